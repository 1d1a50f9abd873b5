//! Heads that differ in their offset alone.
ghost use Rattle.std.specs.Prelude.{◌≡◌, ◌+◌, ◌*◌, ◌<◌, ◌≤◌, ◌^◌, nat_lt, filter, Some, length, position, slice_get, ◌==◌};
ghost use Rattle.search_plan.specs.Plans.{IsPlan};
ghost use Rattle.plan_sets.specs.Sets.{total_of};
ghost use Rattle.set_product.specs.Heads.{end_of, heads_of};
ghost use Rattle.wide_product.specs.Groups.{IsGroup};

use raid_params::Head;
use search_plan::Plan;
use set_product::{HeadSets, Heads};
use slot_math::Space;

/// Heads that differ in their offset alone, one for each offset of a plan, with their slot lists.
#[derive(Drop)]
pub(crate) struct Group {
    /// One of the heads.
    pub head: Head,
    /// The slot lists of each.
    pub space: Space,
    /// The rank of the first set of the first of them, where images have a common offset.
    pub first: u64,
    /// How many sets each of them has.
    pub count: u64,
}

/// The group in whose sets a rank lies, where images have a common offset.
pub(crate) fn group_at(plan: &Plan, rank: u64) -> Group
    requires plan { IsPlan plan.now }
    requires few { total_of plan.now < 2 ^ 64 }
    requires rank { rank < total_of plan.now }
    ensures group { IsGroup plan.now rank result }
{
    let sets = sets_at(plan, rank);
    let place = place_of(&plan.bounds.offsets, sets.head.offset).unwrap();
    Group {
        head: sets.head,
        space: sets.space,
        first: sets.first - place * sets.count,
        count: sets.count,
    }
}

/// The head in whose sets a rank lies, where images have a common offset.
fn sets_at(plan: &Plan, rank: u64) -> HeadSets
    requires plan { IsPlan plan.now }
    requires few { total_of plan.now < 2 ^ 64 }
    requires rank { rank < total_of plan.now }
    ensures { slice_get (filter (λ sets. nat_lt rank (end_of sets)) (heads_of plan.now)) 0 ≡ Some result }
{
    let mut heads = Heads::of(plan);
    heads.skip_to(rank);
    heads.next().unwrap()
}

/// The index of an offset among some.
fn index_of(offsets: &[u64], offset: u64) -> Option<usize>
    ensures { result ≡ position (λ other. offset == other) offsets.now }
{
    offsets.iter().position(|other| offset == *other)
}

/// The place of an offset among some, as a digit of a rank.
pub(crate) fn place_of(offsets: &[u64], offset: u64) -> Option<u64>
    ensures { result ≡ position (λ other. offset == other) offsets.now }
{
    Some(index_of(offsets, offset)? as u64)
}
