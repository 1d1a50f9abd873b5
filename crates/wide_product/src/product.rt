//! The parameter sets of a plan, by rank.
ghost use Rattle.std.specs.Prelude.{◌≡◌, ◌≤◌, ◌<◌, ◌^◌, MatchOption, Some, length, min, position, true, slice_get};
ghost use Rattle.search_plan.specs.Plans.{IsPlan};
ghost use Rattle.plan_sets.specs.Sets.{total_of};
ghost use Rattle.wide_product.specs.Bases.{same_bases};
ghost use Rattle.wide_product.specs.Groups.{bases_of, with_first};
ghost use Rattle.wide_product.specs.Sets.{based, wide_rank, wide_sets, wide_total};

use crate::base_lists::{COUNT_END, bases_rank, count_pairs};
use crate::groups::group_at;
use crate::parts::{count_later, part_at, with_offset};
use arrayvec::ArrayVec;
use raid_params::{Geometry, Slots, Wide};
use search_plan::Plan;

/// How many parameter sets the plan has, or None where they are 2 to the power 64 or more.
pub fn product_total(plan: &Plan) -> Option<u64>
    requires { IsPlan plan.now }
    ensures { MatchOption result (2 ^ 64 ≤ wide_total plan.now) (λ total. total ≡ wide_total plan.now) }
{
    u64::try_from(count_sets(plan)).ok()
}

/// How many parameter sets the plan has. The count stops at `COUNT_END`.
fn count_sets(plan: &Plan) -> u128
    requires { IsPlan plan.now }
    ensures { result ≡ min (wide_total plan.now) (2 ^ 64) }
{
    match set_product::product_total(plan) {
        None => COUNT_END,
        Some(common) => count_with_bases(plan, common),
    }
}

/// How many parameter sets the plan has, of which so many have a common offset. The count stops at `COUNT_END`.
fn count_with_bases(plan: &Plan, common: u64) -> u128
    requires plan { IsPlan plan.now }
    requires common { common ≡ total_of plan.now }
    ensures { result ≡ min (wide_total plan.now) (2 ^ 64) }
{
    if plan.each {
        return count_pairs(u128::from(common), count_later(plan));
    }
    u128::from(common)
}

/// The parameter set of this rank, counted from 0: the levels of the plan in their order, then the numbers of members, the
/// patterns, the delays, the orders of Q, the chunks, the offsets, and the slot lists. Where each image has an offset, the lists of these,
/// in lexicographic order, stand in the place of the offsets.
pub fn product_set(plan: &Plan, rank: u64) -> Wide
    requires plan { IsPlan plan.now }
    requires few { wide_total plan.now < 2 ^ 64 }
    requires rank { rank < wide_total plan.now }
    ensures { slice_get (wide_sets plan.now) rank ≡ Some (based result) }
{
    if !plan.each {
        return Wide {
            geo: set_product::product_set(plan, rank),
            bases: ArrayVec::new(),
        };
    }
    let part = part_at(plan, rank);
    let slots = part.space.unrank(u128::from(rank - part.first));
    Wide {
        geo: Geometry {
            head: part.head,
            slots,
        },
        bases: part.bases,
    }
}

/// The rank of a parameter set, None exactly where the plan has no such set.
pub fn product_rank(plan: &Plan, set: &Wide) -> Option<u64>
    requires plan { IsPlan plan.now }
    requires few { wide_total plan.now < 2 ^ 64 }
    ensures { result ≡ wide_rank plan.now (based set.now) }
{
    if plan.each {
        return based_rank(plan, set);
    }
    if !set.bases.is_empty() {
        return None;
    }
    set_product::product_rank(plan, &set.geo)
}

/// The rank of a parameter set of a plan whose images have an offset each, None exactly where the plan has no such set.
fn based_rank(plan: &Plan, set: &Wide) -> Option<u64>
    requires plan { IsPlan plan.now }
    requires each { plan.now.each ≡ true }
    requires few { wide_total plan.now < 2 ^ 64 }
    ensures { result ≡ wide_rank plan.now (based set.now) }
{
    if set.bases.len() != plan.lengths.len() {
        return None;
    }
    let common = set_product::product_rank(plan, &with_first(plan, &set.geo))?;
    let group = group_at(plan, common);
    let list = list_rank(plan, set)?;
    let later = count_later(plan) as u64;
    Some(group.first * later + (list * group.count + (common - group.first)))
}

/// The rank of the bases of a set among all lists of bases.
fn list_rank(plan: &Plan, set: &Wide) -> Option<u64>
    requires plan { IsPlan plan.now }
    requires each { length set.now.bases.items ≡ length plan.now.lengths.items }
    requires few { length (bases_of plan.now) < 2 ^ 64 }
    ensures { result ≡ position (same_bases set.now.bases.items) (bases_of plan.now) }
{
    bases_rank(&plan.bounds.offsets, &set.bases)
}

/// The parameters with the first offset of the plan.
fn with_first(plan: &Plan, geo: &Geometry) -> Geometry
    requires { IsPlan plan.now }
    ensures { result ≡ with_first plan.now geo.now }
{
    Geometry {
        head: with_offset(&geo.head, plan.bounds.offsets[0]),
        slots: copy_of(&geo.slots),
    }
}

/// A copy of slots.
fn copy_of(slots: &Slots) -> Slots
    ensures { result ≡ slots.now }
{
    let mut copy = Slots::new();
    copy.try_extend_from_slice(slots.as_slice()).unwrap();
    copy
}
