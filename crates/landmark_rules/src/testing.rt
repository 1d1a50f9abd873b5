//! The landmark test.
ghost use Rattle.std.specs.Prelude.{◌≡◌, ◌<◌, ◌^◌, ℕ, find, true};
ghost use Rattle.raid_params.specs.Validity.{is_shaped};
ghost use Rattle.landmark_rules.specs.Groups.{bounds_of, groups_hold as all_hold, held_origin as first_origin, holds_at as group_holds_at, origins_for as origins_of_kind};

use crate::counting::tally;
use crate::marks::{Group, Groups, MarkBounds, MarkTests};
use mark_kinds::{Begin, GroupKind};
use raid_params::Geometry;

/// The origins at which groups of a kind are tried, in their order: a partition table at 0 alone, a file system at
/// those of `tests`.
pub fn origins_for(tests: &MarkTests, kind: GroupKind) -> &[u64]
    ensures { result.now ≡ origins_of_kind tests.entry.now kind }
{
    match kind.begin() {
        Begin::WithVolume => &[0],
        Begin::AtOrigins => &tests.origins,
    }
}

/// The bounds of a group: its own, or those of `tests` where it has none.
pub fn bounds_for(tests: &MarkTests, group: &Group) -> MarkBounds
    ensures { result ≡ bounds_of tests.now group.now }
{
    match group.bounds {
        Some(own) => own,
        None => MarkBounds {
            misfits: tests.misfits,
            least: tests.least,
        },
    }
}

/// The first of its origins at which the group holds: as many of its marks as are asked lie where their rules let
/// them, and not too many elsewhere.
#[tactic(auto, unfolding(crate::specs::Groups::held_origin))]
pub fn held_origin(geo: &Geometry, end: u64, group: &Group, tests: &MarkTests) -> Option<u64>
    requires shaped { (images : ℕ) × (is_shaped geo.now images ≡ true) }
    requires end { end < 2 ^ 55 }
    ensures { result ≡ first_origin geo.now end tests.now group.now }
{
    first_held(geo, end, group, tests, origins_for(tests, group.kind))
}

/// The first of these origins at which the group holds.
#[tactic(auto, using(crate::proofs::Ranges::found_first, crate::proofs::Ranges::found_nowhere))]
fn first_held(
    geo: &Geometry,
    end: u64,
    group: &Group,
    tests: &MarkTests,
    origins: &[u64],
) -> Option<u64>
    requires shaped { (images : ℕ) × (is_shaped geo.now images ≡ true) }
    requires end { end < 2 ^ 55 }
    ensures { result ≡ find (group_holds_at geo.now end tests.now group.now) origins.now }
{
    for origin in origins {
        if holds_at(geo, end, group, tests, *origin) {
            return Some(*origin);
        }
    }
    None
}

/// Whether the group holds at the origin: few enough misfits, and as many fits as are asked.
fn holds_at(geo: &Geometry, end: u64, group: &Group, tests: &MarkTests, origin: u64) -> bool
    requires shaped { (images : ℕ) × (is_shaped geo.now images ≡ true) }
    requires end { end < 2 ^ 55 }
    ensures { result ≡ group_holds_at geo.now end tests.now group.now origin }
{
    let count = tally(geo, end, &group.marks, origin);
    let bounds = bounds_for(tests, group);
    let asked = bounds.least.min(group.marks.as_slice().len() as u64);
    count.misfits <= bounds.misfits && asked <= count.fits
}

/// Whether each group holds at one of its origins.
#[tactic(auto, unfolding(crate::specs::Groups::groups_hold))]
pub fn groups_hold(geo: &Geometry, end: u64, groups: &Groups, tests: &MarkTests) -> bool
    requires shaped { (images : ℕ) × (is_shaped geo.now images ≡ true) }
    requires end { end < 2 ^ 55 }
    ensures { result ≡ all_hold geo.now end tests.now groups.now }
{
    for group in groups.as_slice() {
        if held_origin(geo, end, group, tests).is_none() {
            return false;
        }
    }
    true
}
