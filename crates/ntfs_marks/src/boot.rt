//! The boot sector.

ghost use Rattle.std.specs.Prelude.{◌≡◌, IfSome, IsTrue};
ghost use Rattle.ntfs_marks.specs.Boot.{has_boot_form, is_within_limit, ntfs_boot, ntfs_boot_of, record_bytes, record_sector};
ghost use Rattle.ntfs_marks.specs.RecordSize.{allowed_size, is_record_size};

use crate::record_size::record_size;
use sector_fields::{DISTANCE_LIMIT, SECTOR, has_bytes, u16_le, u64_le};

/// The most sectors of a cluster.
const LARGEST_CLUSTER: u8 = 128;

/// The last of the file records that `read_record` reads: those of the volume's own files.
pub(crate) const LAST_RECORD: u32 = 15;

/// What a boot sector says of its volume. A sector has 512 bytes.
#[derive(Clone, Copy, PartialEq, Eq)]
pub struct NtfsBoot {
    /// The sectors of a cluster.
    pub cluster: u64,
    /// The sectors of the volume; the copy of the boot sector lies after the last of them.
    pub total: u64,
    /// The cluster at which the master file table begins.
    pub mft: u64,
    /// The cluster at which the copy of its first records begins.
    pub mirror: u64,
    /// The bytes of a file record.
    pub record_bytes: u32,
    /// The volume's serial number.
    pub serial: u64,
}

/// The fields of a boot sector. None where the sector is none: another OEM identifier or end marker;
/// sectors of another size than 512 bytes; clusters that are no power of two from 1 to 128 sectors;
/// records that are not 512 to 65,536 bytes in whole sectors; no sectors at all, or 2^55 or more; or a
/// record 15, of the table or of its copy, at sector 2^55 or later. Records 0 to 15 are taken to stand
/// in one run.
#[tactic(auto, using(crate::proofs::Sizes::no_boot, crate::proofs::Sizes::size_is, crate::proofs::Sizes::size_allowed, crate::proofs::Limits::boot_within))]
pub fn read_boot(sector: &[u8; SECTOR]) -> Option<NtfsBoot>
    ensures boot { result ≡ ntfs_boot sector.now }
    ensures within { IfSome result (λ b. IsTrue (is_within_limit b)) }
{
    match record_bytes(sector) {
        Some(bytes) => boot_by_size(sector, bytes),
        None => None,
    }
}

/// The fields of a boot sector whose file records have so many bytes, where it is one.
#[tactic(auto, unfolding(crate::specs::Boot::ntfs_boot, crate::specs::Boot::is_ntfs_boot))]
fn boot_by_size(sector: &[u8; SECTOR], bytes: u32) -> Option<NtfsBoot>
    requires size { bytes ≡ record_bytes sector.now }
    requires allowed { IsTrue (is_record_size (record_bytes sector.now)) }
    ensures { result ≡ ntfs_boot sector.now }
{
    let boot = fields_of(sector, bytes);
    if has_boot_form(sector) && is_within_limit(&boot) {
        Some(boot)
    } else {
        None
    }
}

/// The bytes of a file record by what the sector says, where that is a size that records may have.
#[tactic(auto, unfolding(crate::specs::Boot::record_bytes))]
fn record_bytes(sector: &[u8; SECTOR]) -> Option<u32>
    ensures { result ≡ allowed_size (record_bytes sector.now) }
{
    record_size(sector[64].cast_signed(), sector[13])
}

/// Whether the sector has the OEM identifier, the end marker and the sizes of sectors and clusters of a boot sector.
#[tactic(auto, unfolding(crate::specs::Boot::has_boot_form))]
fn has_boot_form(sector: &[u8; SECTOR]) -> bool
    ensures { result ≡ has_boot_form sector.now }
{
    let cluster = sector[13];
    has_bytes(sector, 3, b"NTFS    ")
        && has_bytes(sector, 510, &[0x55, 0xAA])
        && u16_le(sector, 11) == SECTOR as u16
        && cluster.is_power_of_two()
        && cluster <= LARGEST_CLUSTER
}

/// Whether the volume has a sector, and its end and the last file record of the table and of its copy lie below 2^55.
#[tactic(auto, unfolding(crate::specs::Boot::is_within_limit))]
fn is_within_limit(boot: &NtfsBoot) -> bool
    ensures { result ≡ is_within_limit boot.now }
{
    let limit = DISTANCE_LIMIT as u128;
    1 <= boot.total
        && boot.total < DISTANCE_LIMIT
        && last_record_sector(boot, boot.mft) < limit
        && last_record_sector(boot, boot.mirror) < limit
}

// The sector of the last file record, which may pass 64 bits.
#[tactic(auto, unfolding(crate::specs::Boot::record_sector))]
fn last_record_sector(boot: &NtfsBoot, first_cluster: u64) -> u128
    ensures { result ≡ record_sector boot.now first_cluster 15 }
{
    let record_sectors = boot.record_bytes / SECTOR as u32;
    first_cluster as u128 * boot.cluster as u128 + LAST_RECORD as u128 * record_sectors as u128
}

/// The fields of a boot sector whose file records have so many bytes, by their places in the sector.
#[tactic(auto, unfolding(crate::specs::Boot::ntfs_boot_of))]
fn fields_of(sector: &[u8; SECTOR], bytes: u32) -> NtfsBoot
    requires { bytes ≡ record_bytes sector.now }
    ensures { result ≡ ntfs_boot_of sector.now }
{
    NtfsBoot {
        cluster: sector[13] as u64,
        total: u64_le(sector, 40),
        mft: u64_le(sector, 48),
        mirror: u64_le(sector, 56),
        record_bytes: bytes,
        serial: u64_le(sector, 72),
    }
}
