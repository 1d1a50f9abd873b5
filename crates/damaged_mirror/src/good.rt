//! Which copies of a sector are good.
ghost use Rattle.std.specs.Prelude.{◌≡◌, ◌+◌, ◌<◌, ◌≤◌, ◌^◌, ℕ, Some, false, true};
ghost use Rattle.std.specs.List.{list_any, range_with_len};
ghost use Rattle.near_mirror.specs.Copies.{near_sectors};
ghost use Rattle.near_mirror.specs.Volume.{IsMirror};
ghost use Rattle.damaged_mirror.specs.Damaged.{good_copy as good_copy_of, is_good_copy as is_good_copy_of, is_good_held as is_good_held_of, is_lost as is_lost_of};

use near_mirror::NearSet;
use rescue_text::Rescue;

/// A mirror whose images are damaged.
#[derive(Clone, Copy, Drop)]
pub struct MirrorDamage<'a> {
    /// Its parameters.
    pub set: &'a NearSet,
    /// The image sector after the last that may belong to it.
    pub end: u64,
    /// What was read of its images.
    pub rescue: &'a Rescue,
}

/// Whether a slot holds an image of which a sector was read.
fn is_good_held(rescue: &Rescue, held: Option<u8>, sector: u64) -> bool
    ensures { result ≡ is_good_held_of rescue.now held sector }
{
    match held {
        Some(image) => rescue.is_good(image, sector),
        None => false,
    }
}

/// Whether a copy of a volume sector is good.
#[tactic(auto, using(crate::proofs::GoodCopies::place_inside))]
pub(crate) fn is_good_copy(damage: &MirrorDamage, sector: u64, copy: u8) -> bool
    requires set { IsMirror damage.now.set.now damage.now.end }
    requires end { damage.now.end < 2 ^ 55 }
    requires copy { copy < damage.now.set.now.head.layout.copies }
    requires within { sector < near_sectors damage.now.set.now.head damage.now.end }
    ensures { result ≡ is_good_copy_of damage.now.rescue.now damage.now.set.now damage.now.end sector copy }
{
    match damage.set.head.copy_place(damage.end, copy, sector) {
        Some(place) => {
            let held = damage.set.slots[place.slot as usize];
            is_good_held(damage.rescue, held, damage.set.head.offset + place.sector)
        }
        None => false,
    }
}

/// The first good copy of a volume sector.
#[tactic(auto, unfolding(crate::specs::Damaged::good_copy))]
pub(crate) fn good_copy(damage: &MirrorDamage, sector: u64) -> Option<u8>
    requires set { IsMirror damage.now.set.now damage.now.end }
    requires end { damage.now.end < 2 ^ 55 }
    requires within { sector < near_sectors damage.now.set.now.head damage.now.end }
    ensures { result ≡ good_copy_of damage.now.rescue.now damage.now.set.now damage.now.end sector }
{
    (0..damage.set.head.layout.copies).find(|copy: &u8| is_good_copy(damage, sector, *copy))
}

/// Whether a volume sector is lost.
fn is_lost(damage: &MirrorDamage, sector: u64) -> bool
    requires set { IsMirror damage.now.set.now damage.now.end }
    requires end { damage.now.end < 2 ^ 55 }
    requires within { sector < near_sectors damage.now.set.now.head damage.now.end }
    ensures { result ≡ is_lost_of damage.now.rescue.now damage.now.set.now damage.now.end sector }
{
    good_copy(damage, sector).is_none()
}

/// Whether one of `count` volume sectors from number `first` on is lost. No image is read.
pub(crate) fn has_lost(damage: &MirrorDamage, first: u64, count: u64) -> bool
    requires set { IsMirror damage.now.set.now damage.now.end }
    requires end { damage.now.end < 2 ^ 55 }
    requires within { first + count ≤ near_sectors damage.now.set.now.head damage.now.end }
    ensures { result ≡ list_any (is_lost_of damage.now.rescue.now damage.now.set.now damage.now.end) (range_with_len first count) }
{
    let mut at = 0;
    while at < count {
        if is_lost(damage, first + at) {
            return true;
        }
        at += 1;
    }
    false
}

/// Whether the first good copy of a volume sector is this one.
fn is_taken(damage: &MirrorDamage, sector: u64, copy: u8) -> bool
    requires set { IsMirror damage.now.set.now damage.now.end }
    requires end { damage.now.end < 2 ^ 55 }
    requires within { sector < near_sectors damage.now.set.now.head damage.now.end }
    ensures taken { result ≡ true → good_copy_of damage.now.rescue.now damage.now.set.now damage.now.end sector ≡ Some copy }
    ensures other { result ≡ false → good_copy_of damage.now.rescue.now damage.now.set.now damage.now.end sector ≡ Some copy → ⊥ }
{
    match good_copy(damage, sector) {
        Some(taken) => taken == copy,
        None => false,
    }
}

/// Of how many volume sectors from number `first` on, and at most `most`, the first good copy is the same as that of the first. The run is the longest.
pub(crate) fn taken_run(damage: &MirrorDamage, copy: u8, first: u64, most: u64) -> u64
    requires set { IsMirror damage.now.set.now damage.now.end }
    requires end { damage.now.end < 2 ^ 55 }
    requires some { 1 ≤ most }
    requires within { first + most ≤ near_sectors damage.now.set.now.head damage.now.end }
    requires taken { good_copy_of damage.now.rescue.now damage.now.set.now damage.now.end first ≡ Some copy }
    ensures some { 1 ≤ result }
    ensures few { result ≤ most }
    ensures same { (i : ℕ) → i < result → good_copy_of damage.now.rescue.now damage.now.set.now damage.now.end (first + i) ≡ Some copy }
    ensures longest { result < most → good_copy_of damage.now.rescue.now damage.now.set.now damage.now.end (first + result) ≡ Some copy → ⊥ }
{
    let mut count = 1;
    while count < most {
        if is_taken(damage, first + count, copy) {
            count += 1;
        } else {
            return count;
        }
    }
    count
}
