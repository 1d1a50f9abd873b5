//! The file records.

ghost use Rattle.std.specs.Prelude.{◌≡◌, ◌*◌, ◌^◌, ◌<◌, IfSome, IsTrue, length, slice_index_or};
ghost use Rattle.mft.specs.Boot.{is_record_size};
ghost use Rattle.mft.specs.Start.{ends_alike, is_spread, is_start, is_whole, record_start, start_of};

use crate::boot::is_record_size;
use sector_fields::{SECTOR, has_bytes, u16_le, u32_le};

/// The byte at which the update sequence of a record begins, since NTFS 3.1.
const UPDATE_SEQUENCE: u16 = 48;

/// The most bytes of a record.
pub const LARGEST_RECORD: usize = 4096;

/// Of so many records each counts that begins a stretch of 4 KiB.
const DENSE: u32 = 4096;

/// What the first sector of a file record says of it.
#[derive(Clone, Copy, PartialEq, Eq)]
pub struct RecordStart {
    /// Its number.
    pub number: u32,
    /// Its bytes, 1,024 or 4,096.
    pub bytes: u32,
}

/// The file record that begins in the sector. None where none does: another signature; another size than 1,024 or 4,096
/// bytes; or an update sequence that does not begin at byte 48, or is not that of a record of its size.
#[tactic(auto, unfolding(crate::specs::Start::record_start, crate::specs::Start::is_start, crate::specs::Start::start_of))]
pub fn read_start(sector: &[u8; SECTOR]) -> Option<RecordStart>
    ensures start { result ≡ record_start sector.now }
    ensures size { IfSome result (λ r. IsTrue (is_record_size r.bytes)) }
{
    let start = RecordStart {
        number: u32_le(sector, 44),
        bytes: u32_le(sector, 28),
    };
    if is_start(sector) { Some(start) } else { None }
}

/// Whether a file record begins in the sector.
#[tactic(auto, unfolding(crate::specs::Start::is_start))]
fn is_start(sector: &[u8; SECTOR]) -> bool
    ensures { result ≡ is_start sector.now }
{
    let bytes = u32_le(sector, 28);
    has_bytes(sector, 0, b"FILE")
        && u16_le(sector, 4) == UPDATE_SEQUENCE
        && is_record_size(bytes)
        && u16_le(sector, 6) as u32 == bytes / SECTOR as u32 + 1
}

impl RecordStart {
    /// Whether the record counts: of the first 4,096 each that begins a stretch of 4 KiB of its table, and of the others each
    /// that begins one of 64 KiB.
    #[tactic(auto, unfolding(crate::specs::Start::is_spread))]
    pub fn is_spread(&self) -> bool
        ensures { result ≡ is_spread self.now }
    {
        let at = self.number as u64 * self.bytes as u64;
        if self.number < DENSE {
            at % 4096 == 0
        } else {
            at % 65_536 == 0
        }
    }
}

/// Whether all sectors of a record end with the number of its update sequence: so they were written together.
#[tactic(auto, unfolding(crate::specs::Start::is_whole))]
pub fn is_whole(file: &[u8]) -> bool
    ensures { result ≡ is_whole file.now }
{
    (0..file.len() / SECTOR).all(|sector| ends_alike(file, sector))
}

/// Whether a sector of a record ends with the number of its update sequence.
#[tactic(auto, unfolding(crate::specs::Start::ends_alike))]
fn ends_alike(file: &[u8], sector: usize) -> bool
    requires { 512 * sector < length file.now }
    ensures { result ≡ ends_alike file.now sector }
{
    byte(file, SECTOR * sector + 510) == byte(file, 48)
        && byte(file, SECTOR * sector + 511) == byte(file, 49)
}

/// A byte as it stands, 0 past the end.
fn byte(file: &[u8], at: usize) -> u8
    ensures { result ≡ slice_index_or file.now at 0 }
{
    file.get(at).copied().unwrap_or(0)
}
