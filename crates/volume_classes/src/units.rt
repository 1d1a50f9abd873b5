//! A sector for each slot, in which the byte of each image has a place of its own.
ghost use Rattle.std.specs.Prelude.{◌≡◌, ◌*◌, ◌+◌, ◌<◌, ◌≤◌, ℕ, length, slice_index, take};
ghost use Rattle.volume_classes.specs.Coefficients.{AreUnits, unit_byte};

use outside::SECTOR;
use raid_params::MOST;

/// The bytes of a sector for each slot of an array.
pub(crate) const UNIT_BYTES: usize = MOST * SECTOR;

/// A sector for each slot, one after the other. Byte j of a sector is 01 where the slot holds image j, and 00 elsewhere.
pub(crate) fn units_of(slots: &[Option<u8>]) -> [u8; UNIT_BYTES]
    requires { length slots.now ≤ MOST }
    ensures { AreUnits slots.now (take (512 * length slots.now) result) }
{
    let mut sectors = [0; UNIT_BYTES];
    for (place, slot) in slots.iter().enumerate() {
        put_unit(&mut sectors, place, *slot);
    }
    sectors
}

/// Puts 01 into a sector that is 00, at the number of the image that the slot holds.
fn put_unit(sectors: &mut [u8], place: usize, slot: Option<u8>)
    requires within { 512 * place + 512 ≤ length sectors.old }
    requires blank { (k : ℕ) → 512 * place ≤ k → slice_index sectors.old k ≡ 0 }
    ensures length { length sectors.new ≡ length sectors.old }
    ensures here { (image : ℕ) → image < 512 → slice_index sectors.new (512 * place + image) ≡ unit_byte image slot }
    ensures before { (k : ℕ) → k < 512 * place → slice_index sectors.new k ≡ slice_index sectors.old k }
    ensures after { (k : ℕ) → 512 * place + 512 ≤ k → slice_index sectors.new k ≡ 0 }
{
    if let Some(image) = slot {
        sectors[SECTOR * place + image as usize] = 1;
    }
}
