//! The header of a partition table.

ghost use Rattle.std.specs.Prelude.{◌≡◌, ◌*◌, ◌==◌, ◌≤◌, ◌<◌, IfSome, ◌^◌};
ghost use Rattle.sector_fields.specs.Fields.{u32_le};
ghost use Rattle.gpt_marks.specs.Crc.{checksum_of};
ghost use Rattle.gpt_marks.specs.Header.{covered_bytes, gpt_header, gpt_header_of, is_gpt_header, is_own_table, with_zero_checksum, IsUnit};

use crate::crc::crc32;
use sector_fields::{DISTANCE_LIMIT, SECTOR, has_bytes, u32_le, u64_le, uuid_at};
use uuid::Uuid;

/// The bytes that a header has at least: those of its fields. It has no more than its block.
const SMALLEST_HEADER: u32 = 92;

/// What a header says. Its numbers are those of blocks, of 512 or 4,096 bytes each.
#[derive(Clone, Copy, PartialEq, Eq)]
pub struct GptHeader {
    /// The block that the header lies in.
    pub my_lba: u64,
    /// The block of the table's other header.
    pub alternate: u64,
    /// The disk's identifier, its bytes in the order in which they stand in the sector.
    pub disk: Uuid,
    /// The first block of the entries.
    pub table: u64,
    /// How many entries the table has room for.
    pub entries: u32,
    /// The bytes of an entry.
    pub entry_size: u32,
}

/// The header in a sector. None where the sector is no header: another signature, a header size that
/// is not 92 to 512, a checksum that does not agree, or a MyLBA of 2^55 or more.
#[tactic(auto, unfolding(crate::specs::Header::gpt_header), using(crate::proofs::Limits::my_lba_within))]
pub fn read_header(sector: &[u8; SECTOR]) -> Option<GptHeader>
    ensures header { result ≡ gpt_header sector.now }
    ensures within { IfSome result (λ h. h.my_lba < 2 ^ 55) }
{
    if is_header(sector) {
        Some(fields_of(sector))
    } else {
        None
    }
}

/// Whether the sector is a header, by its signature, its size, its checksum and its MyLBA.
#[tactic(auto, unfolding(crate::specs::Header::is_gpt_header))]
fn is_header(sector: &[u8; SECTOR]) -> bool
    ensures { result ≡ is_gpt_header sector.now }
{
    let size = u32_le(sector, 12);
    has_bytes(sector, 0, b"EFI PART")
        && SMALLEST_HEADER <= size
        && size <= SECTOR as u32
        && checksum(sector, size as usize) == u32_le(sector, 16)
        && u64_le(sector, 24) < DISTANCE_LIMIT
}

// The checksum of the first `size` bytes, its own four bytes taken as zero.
#[tactic(auto, unfolding(crate::specs::Header::covered_bytes))]
fn checksum(sector: &[u8; SECTOR], size: usize) -> u32
    requires size { size ≡ u32_le sector.now 12 }
    requires within { size ≤ SECTOR }
    ensures { result ≡ checksum_of (covered_bytes sector.now) }
{
    let covered = with_zero_checksum(sector);
    crc32(&covered[..size])
}

/// The sector with the four bytes of its checksum as zero.
#[tactic(auto, unfolding(crate::specs::Header::with_zero_checksum))]
fn with_zero_checksum(sector: &[u8; SECTOR]) -> [u8; SECTOR]
    ensures { result ≡ with_zero_checksum sector.now }
{
    let mut bytes = *sector;
    bytes[16..20].copy_from_slice(&[0; 4]);
    bytes
}

/// The fields of a header, by their places in the sector (UEFI 2.10, table 5.5).
#[tactic(auto, unfolding(crate::specs::Header::gpt_header_of))]
fn fields_of(sector: &[u8; SECTOR]) -> GptHeader
    ensures { result ≡ gpt_header_of sector.now }
{
    GptHeader {
        my_lba: u64_le(sector, 24),
        alternate: u64_le(sector, 32),
        disk: uuid_at(sector, 56),
        table: u64_le(sector, 72),
        entries: u32_le(sector, 80),
        entry_size: u32_le(sector, 84),
    }
}

/// Whether a header found in `sector` of an image is the table of that image itself, on a disk whose blocks
/// have `unit` sectors each, 1 or 8: the image is whole blocks, the header lies in the block that it names,
/// and it and its other header are block 1 and the image's last.
#[tactic(auto, unfolding(crate::specs::Header::is_own_table), using(crate::proofs::Units::some_sectors, crate::proofs::Units::some_blocks))]
pub fn own_table(header: &GptHeader, sector: u64, image_sectors: u64, unit: u64) -> bool
    requires sector { sector < image_sectors }
    requires unit { IsUnit unit }
    ensures { result ≡ is_own_table header.now sector image_sectors unit }
{
    if image_sectors % unit != 0 {
        return false;
    }
    let last = image_sectors / unit - 1;
    lies_in(header, sector, unit)
        && ((header.my_lba == 1 && header.alternate == last)
            || (header.my_lba == last && header.alternate == 1))
}

/// Whether the block that a header names begins at a sector, where blocks have `unit` sectors.
#[tactic(auto, using(crate::proofs::Units::not_begun, crate::proofs::Units::begins))]
fn lies_in(header: &GptHeader, sector: u64, unit: u64) -> bool
    requires { IsUnit unit }
    ensures { result ≡ (unit * header.now.my_lba == sector) }
{
    sector % unit == 0 && header.my_lba == sector / unit
}
