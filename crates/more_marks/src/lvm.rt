//! The label of a physical volume of LVM2.

ghost use Rattle.std.specs.Prelude.{◌≡◌, ◌<◌, IfSome, ◌^◌};
ghost use Rattle.more_marks.specs.Lvm.{lvm_label};

use sector_fields::{DISTANCE_LIMIT, SECTOR, has_bytes, u64_le};

/// The sector of its physical volume that a label says it lies in (LVM2, `struct label_header`). None
/// where the sector is no label: another identifier or type, or a number of its own of 2^55 or more.
/// The label's checksum is not looked at.
#[tactic(auto, unfolding(crate::specs::Lvm::lvm_label, crate::specs::Lvm::is_lvm_label), using(crate::proofs::Limits::label_below))]
pub fn read_lvm(sector: &[u8; SECTOR]) -> Option<u64>
    ensures label { result ≡ lvm_label sector.now }
    ensures within { IfSome result (λ number. number < 2 ^ 55) }
{
    let number = u64_le(sector, 8);
    if has_bytes(sector, 0, b"LABELONE")
        && has_bytes(sector, 24, b"LVM2 001")
        && number < DISTANCE_LIMIT
    {
        Some(number)
    } else {
        None
    }
}
