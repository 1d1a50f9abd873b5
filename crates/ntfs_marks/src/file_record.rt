//! The file records.

ghost use Rattle.std.specs.Prelude.{◌≡◌, ◌<◌, IfSome};
ghost use Rattle.ntfs_marks.specs.FileRecord.{is_ntfs_record, ntfs_record, ntfs_record_of};

use crate::boot::LAST_RECORD;
use sector_fields::{SECTOR, has_bytes, u16_le, u32_le};

/// The byte at which the update sequence of a record begins, since NTFS 3.1.
const UPDATE_SEQUENCE: u16 = 48;

/// What a file record says of itself.
#[derive(Clone, Copy, PartialEq, Eq)]
pub struct NtfsRecord {
    /// Its number, from 0 to 15.
    pub number: u32,
    /// Its allocated size, in bytes.
    pub bytes: u32,
}

/// The fields of a file record that begins in the sector. None where none does: another signature, an
/// update sequence that does not begin at byte 48, or a number of 16 or more.
#[tactic(auto, unfolding(crate::specs::FileRecord::ntfs_record, crate::specs::FileRecord::is_ntfs_record, crate::specs::FileRecord::ntfs_record_of), using(crate::proofs::Limits::number_below))]
pub fn read_record(sector: &[u8; SECTOR]) -> Option<NtfsRecord>
    ensures record_fields { result ≡ ntfs_record sector.now }
    ensures within { IfSome result (λ r. r.number < 16) }
{
    let number = u32_le(sector, 44);
    if has_bytes(sector, 0, b"FILE")
        && u16_le(sector, 4) == UPDATE_SEQUENCE
        && number <= LAST_RECORD
    {
        Some(NtfsRecord {
            number,
            bytes: u32_le(sector, 28),
        })
    } else {
        None
    }
}
