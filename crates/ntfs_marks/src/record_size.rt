//! The size of a file record.

ghost use Rattle.std.specs.Prelude.{◌≡◌, ◌^◌};
ghost use Rattle.ntfs_marks.specs.RecordSize.{allowed_size, coded_bytes};

use sector_fields::SECTOR;

/// The most bytes of a file record.
const LARGEST_RECORD: u32 = 65_536;

/// The bytes of a file record by the boot sector's code for them and by the sectors of a cluster.
/// None where they are not 512 to 65,536 in whole sectors.
#[tactic(auto, unfolding(crate::specs::RecordSize::coded_bytes))]
pub fn record_size(code: i8, cluster: u8) -> Option<u32>
    ensures { result ≡ allowed_size (coded_bytes code cluster) }
{
    let size = code.unsigned_abs();
    if code < 0 {
        power_size(size)
    } else {
        allowed_size(size as u32 * cluster as u32 * SECTOR as u32)
    }
}

/// Two to this power as the bytes of a file record, where that is a size that records may have.
#[tactic(auto, using(crate::proofs::Sizes::too_large))]
fn power_size(power: u8) -> Option<u32>
    ensures { result ≡ allowed_size (2 ^ power) }
{
    match 2u32.checked_pow(power as u32) {
        Some(bytes) => allowed_size(bytes),
        None => None,
    }
}

/// The bytes, where they are a size that file records may have.
#[tactic(auto, unfolding(crate::specs::RecordSize::allowed_size, crate::specs::RecordSize::is_record_size))]
fn allowed_size(bytes: u32) -> Option<u32>
    ensures { result ≡ allowed_size bytes }
{
    if SECTOR as u32 <= bytes && bytes <= LARGEST_RECORD && bytes % SECTOR as u32 == 0 {
        Some(bytes)
    } else {
        None
    }
}
