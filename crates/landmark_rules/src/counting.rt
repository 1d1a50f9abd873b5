//! Which marks lie where their rules let them.
ghost use Rattle.std.specs.Prelude.{◌≡◌, ◌<◌, ◌≤◌, ◌^◌, ◌==◌, ℕ, IfSome, IsTrue, false, length, true};
ghost use Rattle.raid_params.specs.Validity.{is_shaped, is_valid_head};
ghost use Rattle.landmark_rules.specs.Groups.{fits_of, misfits_of};
ghost use Rattle.landmark_rules.specs.Marks.{sector_in as sector_with_home, sector_of as sector_of_mark, slot_holding as slot_that_holds};
ghost use Rattle.landmark_rules.specs.Rules.{distances, is_fit};
ghost use Rattle.landmark_rules.specs.declared.marks.Rule.TheVariants.{Every};
ghost use Rattle.raid_params.specs.declared.limits.TheConstants.{MOST};
ghost use Rattle.std.specs.List.{list_any};
ghost use Rattle.std.specs.Option.{option_map_or};

use crate::marks::{Mark, MarkCount, Marks, Rule};
use address_map::{MemberPlace, place};
use raid_params::{Geometry, Head};

/// Whether a volume sector lies where the rule lets it, where the file system begins at the sector `origin`.
pub fn fits(rule: &Rule, origin: u64, volume_sector: u64) -> bool
    ensures { result ≡ is_fit rule.now origin volume_sector }
{
    let Some(distance) = volume_sector.checked_sub(origin) else {
        return false;
    };
    match *rule {
        Rule::At(only) => distance == only,
        Rule::Either(first, second) => distance == first || distance == second,
        Rule::Every { step, count, plus } => is_every(distance, step, count, plus),
    }
}

/// The marks that lie where their rules let them, and those that lie elsewhere, where the file system begins
/// at the volume sector `origin`. Members end before the image sector `end`. Marks on parity, outside the
/// whole rows or on an image in no slot are neither.
pub fn tally(geo: &Geometry, end: u64, marks: &Marks, origin: u64) -> MarkCount
    requires shaped { (images : ℕ) × (is_shaped geo.now images ≡ true) }
    requires end { end < 2 ^ 55 }
    ensures fits { result.fits ≡ fits_of geo.now end marks.now origin }
    ensures misfits { result.misfits ≡ misfits_of geo.now end marks.now origin }
{
    let mut count = MarkCount {
        fits: 0,
        misfits: 0,
    };
    for mark in marks.as_slice() {
        if let Some(sector) = sector_of(geo, end, mark) {
            if fits(&mark.rule, origin, sector) {
                count.fits += 1;
            } else {
                count.misfits += 1;
            }
        }
    }
    count
}

/// The volume sector at which the mark lies, if there is one.
fn sector_of(geo: &Geometry, end: u64, mark: &Mark) -> Option<u64>
    requires shaped { (images : ℕ) × (is_shaped geo.now images ≡ true) }
    requires end { end < 2 ^ 55 }
    ensures { result ≡ sector_of_mark geo.now end mark.now }
{
    let slot = slot_holding(mark.image, &geo.slots)?;
    sector_in(&geo.head, end, slot, mark.sector)
}

/// The volume sector whose home is a slot at a sector of the image that the slot holds, if there is one:
/// none where that sector holds parity, lies before the offset or past the whole rows. Members end before
/// the image sector `end`.
pub fn sector_in(head: &Head, end: u64, slot: u8, sector: u64) -> Option<u64>
    requires head { IsTrue (is_valid_head head.now) }
    requires end { end < 2 ^ 55 }
    requires slot { slot < head.now.members }
    ensures { result ≡ sector_with_home head.now end slot sector }
{
    let Some(member_sector) = sector.checked_sub(head.offset) else {
        return None;
    };
    match place(head, end, slot, member_sector) {
        MemberPlace::At(volume_sector) => Some(volume_sector),
        MemberPlace::Outside | MemberPlace::Parity => None,
    }
}

/// The slot that holds the image, if one does.
#[tactic(auto, using(crate::proofs::Holding::held_first, crate::proofs::Holding::held_nowhere))]
fn slot_holding(image: u8, slots: &[Option<u8>]) -> Option<u8>
    requires few { length slots.now ≤ MOST }
    ensures slot { result ≡ slot_that_holds image slots.now }
    ensures within { IfSome result (λ slot. slot < length slots.now) }
{
    for (slot, held) in slots.iter().enumerate() {
        if holds(held, image) {
            return Some(slot as u8);
        }
    }
    None
}

/// Whether the slot holds the image.
fn holds(held: &Option<u8>, image: u8) -> bool
    ensures { result ≡ option_map_or (λ i. i == image) held.now false }
{
    match held {
        Some(other) => *other == image,
        None => false,
    }
}

/// Whether a distance is `k * step + plus` for a `k` below `count`.
fn is_every(distance: u64, step: u64, count: u64, plus: u64) -> bool
    ensures { result ≡ list_any (λ d. d == distance) (distances (Every step count plus)) }
{
    let Some(beyond) = distance.checked_sub(plus) else {
        return false;
    };
    if step == 0 {
        beyond == 0 && 0 < count
    } else {
        beyond % step == 0 && beyond / step < count
    }
}
