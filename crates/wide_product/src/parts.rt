//! Parts of a product.
ghost use Rattle.std.specs.Prelude.{◌≡◌, ◌+◌, ◌<◌, ◌≤◌, ◌^◌, min, true, Some, length, slice_get};
ghost use Rattle.search_plan.specs.Plans.{IsPlan};
ghost use Rattle.raid_params.specs.Bases.{greatest_base};
ghost use Rattle.wide_product.specs.Groups.{bases_of, later_bases};
ghost use Rattle.wide_product.specs.Parts.{IsPartOf};
ghost use Rattle.wide_product.specs.Sets.{wide_total};

use crate::base_lists::{bases_at, count_bases};
use crate::groups::group_at;
use arrayvec::ArrayVec;
use raid_params::{Head, MOST};
use search_plan::Plan;
use slot_math::Space;

/// The parameter sets of one head over images with one list of bases: those of the slot lists of `space`, in their order. They
/// stand at the ranks from `first` on.
#[derive(Drop)]
pub struct Part {
    /// What the sets have in common. The offset is the greatest base.
    pub head: Head,
    /// The offset of each image.
    pub bases: ArrayVec<u64, MOST>,
    /// Their slot lists.
    pub space: Space,
    /// The rank of the first of them.
    pub first: u64,
    /// How many there are.
    pub count: u64,
}

/// The part in which a rank lies, of a plan whose images have an offset each.
pub fn part_at(plan: &Plan, rank: u64) -> Part
    requires plan { IsPlan plan.now }
    requires each { plan.now.each ≡ true }
    requires few { wide_total plan.now < 2 ^ 64 }
    requires rank { rank < wide_total plan.now }
    ensures part { IsPartOf plan.now result }
    ensures from { result.first ≤ rank }
    ensures to { rank < result.first + result.count }
{
    let later = count_later(plan) as u64;
    let group = group_at(plan, rank / later);
    let start = group.first * later;
    let list = (rank - start) / group.count;
    let bases = plan_bases(plan, list);
    Part {
        head: with_offset(&group.head, greatest_of(&bases)),
        bases,
        space: group.space,
        first: start + list * group.count,
        count: group.count,
    }
}

/// How many lists of bases there are for all images but one. The count stops at `COUNT_END`.
pub(crate) fn count_later(plan: &Plan) -> u128
    requires { IsPlan plan.now }
    ensures { result ≡ min (length (later_bases plan.now)) (2 ^ 64) }
{
    count_bases(&plan.bounds.offsets, plan.lengths.len() - 1)
}

/// The list of bases of this rank.
fn plan_bases(plan: &Plan, rank: u64) -> ArrayVec<u64, MOST>
    requires plan { IsPlan plan.now }
    requires few { length (bases_of plan.now) < 2 ^ 64 }
    requires rank { rank < length (bases_of plan.now) }
    ensures { slice_get (bases_of plan.now) rank ≡ Some result.items }
{
    bases_at(&plan.bounds.offsets, plan.lengths.len(), rank)
}

/// The head with another offset.
pub(crate) fn with_offset(head: &Head, offset: u64) -> Head
    ensures { result ≡ record head.now { offset = offset } }
{
    Head {
        level: head.level,
        members: head.members,
        pattern: head.pattern,
        delay: head.delay,
        syndrome: head.syndrome,
        chunk: head.chunk,
        offset,
    }
}

/// The greatest base, and 0 of none.
fn greatest_of(bases: &[u64]) -> u64
    ensures { result ≡ greatest_base bases.now }
{
    let mut greatest = 0;
    for base in bases {
        greatest = greatest.max(*base);
    }
    greatest
}
