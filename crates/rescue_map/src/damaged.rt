//! Which cells of a row are known.
ghost use Rattle.std.specs.Prelude.{nat_lt, ℕ, ◌≡◌, ◌+◌, ◌<◌, ◌≤◌, ◌^◌, ◌↔◌, ◌≢◌, IsTrue};
ghost use Rattle.raid_params.specs.Size.{redundancy};
ghost use Rattle.raid_params.specs.Slots.{empties};
ghost use Rattle.rescue_map.specs.Damaged.{damaged as damaged_of, image_sector as image_sector_of, known_slot as known_slot_of, AreAllGood};

use raid_params::{Geometry, Slots, Wide, count_empty};
use rescue_text::Rescue;

/// An array whose images are damaged.
#[derive(Clone, Copy, Drop)]
pub struct Damage<'a> {
    /// Its parameters.
    pub set: &'a Wide,
    /// The image sector after the last that may belong to it.
    pub end: u64,
    /// What was read of its images.
    pub rescue: &'a Rescue,
}

/// The image sector of member sector `sector` of an image.
fn image_sector(set: &Wide, image: u8, sector: u64) -> u64
    requires near { set.now.geo.head.offset + sector < 2 ^ 55 }
    ensures { result ≡ image_sector_of set.now image sector }
{
    match set.bases.get(image as usize) {
        Some(base) => *base + sector,
        None => set.geo.head.offset + sector,
    }
}

/// What a slot holds where member sector `sector` of it is known.
pub(crate) fn known_slot(set: &Wide, rescue: &Rescue, sector: u64, held: Option<u8>) -> Option<u8>
    requires near { set.now.geo.head.offset + sector < 2 ^ 55 }
    ensures { result ≡ known_slot_of rescue.now set.now sector held }
{
    let image = held?;
    if rescue.is_good(image, image_sector(set, image, sector)) {
        return Some(image);
    }
    None
}

/// The set at member sector `sector`: slots whose cell there is not known are empty.
pub(crate) fn damaged(set: &Wide, rescue: &Rescue, sector: u64) -> Geometry
    requires near { set.now.geo.head.offset + sector < 2 ^ 55 }
    ensures { result ≡ damaged_of rescue.now set.now sector }
{
    let mut slots = Slots::new();
    for held in set.geo.slots.as_slice() {
        slots.push(known_slot(set, rescue, sector, *held));
    }
    Geometry {
        head: set.geo.head,
        slots,
    }
}

/// Whether `count` member sectors from number `first` on of all slots that hold an image are good.
pub fn are_all_good(set: &Wide, rescue: &Rescue, first: u64, count: u64) -> bool
    requires some { 0 < count }
    requires near { set.now.geo.head.offset + (first + count) < 2 ^ 55 }
    ensures { IsTrue result ↔ ((t : ℕ) → first ≤ t → t < first + count → AreAllGood rescue.now set.now t) }
{
    set.geo
        .slots
        .iter()
        .all(|held| are_known(set, rescue, first, count, *held))
}

/// Whether a slot is empty, or `count` member sectors of it from number `first` on are good.
fn are_known(set: &Wide, rescue: &Rescue, first: u64, count: u64, held: Option<u8>) -> bool
    requires some { 0 < count }
    requires near { set.now.geo.head.offset + (first + count) < 2 ^ 55 }
    ensures { IsTrue result ↔ ((t : ℕ) → first ≤ t → t < first + count → known_slot_of rescue.now set.now t held ≡ held) }
{
    match held {
        Some(image) => rescue.are_good(image, image_sector(set, image, first), count),
        None => true,
    }
}

/// Whether more slots are empty than the level survives.
pub(crate) fn is_beyond(geo: &Geometry) -> bool
    ensures { result ≡ nat_lt (redundancy geo.now.head.level) (empties geo.now.slots.items) }
{
    count_empty(&geo.slots) > geo.head.level.redundancy() as usize
}

/// How many member sectors of a slot from number `first` on, which is known, are known before the first one that is not, `most`
/// at most. It is found by bisection.
pub(crate) fn known_front(
    set: &Wide,
    rescue: &Rescue,
    first: u64,
    most: u64,
    held: Option<u8>,
) -> u64
    requires some { 1 ≤ most }
    requires near { set.now.geo.head.offset + (first + most) < 2 ^ 55 }
    requires first { known_slot_of rescue.now set.now first held ≡ held }
    ensures some { 1 ≤ result }
    ensures most { result ≤ most }
    ensures known { (t : ℕ) → first ≤ t → t < first + result → known_slot_of rescue.now set.now t held ≡ held }
    ensures longest { result < most → known_slot_of rescue.now set.now (first + result) held ≢ held }
{
    if are_known(set, rescue, first, most, held) {
        return most;
    }
    let mut known = 1;
    let mut beyond = most;
    while known + 1 < beyond {
        let half = known + (beyond - known) / 2;
        if are_known(set, rescue, first, half, held) {
            known = half;
        } else {
            beyond = half;
        }
    }
    known
}
