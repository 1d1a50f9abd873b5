//! The parameter sets of a plan, by rank.
ghost use Rattle.std.specs.Prelude.{◌≡◌, ◌<◌, ◌≤◌, ◌*◌, ◌^◌, min, MatchOption, Some, length, slice_get};
ghost use Rattle.raid_params.specs.declared.limits.TheConstants.{MOST_LEVELS, MOST_LESS_ONE};
ghost use Rattle.search_plan.specs.Plans.{IsPlan};
ghost use Rattle.set_product.specs.Blocks.{IsBlock};
ghost use Rattle.set_product.specs.Pairs.{pairs};
ghost use Rattle.plan_sets.specs.Sets.{rank_of, sets_of, total_of};

use crate::block::Block;
use crate::digits::{count_both, pair_at};
use raid_params::Geometry;
use search_plan::Plan;

/// How many pairs of a level and a number of members the plan has.
#[tactic(auto, using(crate::proofs::Walks::few_shapes))]
pub(crate) fn shape_count(plan: &Plan) -> usize
    ensures count { result ≡ length plan.now.bounds.levels.items * length plan.now.bounds.members.items }
    ensures few { result ≤ MOST_LEVELS * MOST_LESS_ONE }
{
    plan.bounds.levels.len() * plan.bounds.members.len()
}

/// The block of the pair of this place.
pub(crate) fn block_at(plan: &Plan, at: usize) -> Block
    requires plan { IsPlan plan.now }
    requires at { at < length plan.now.bounds.levels.items * length plan.now.bounds.members.items }
    ensures block { IsBlock plan.now result }
    ensures shape { slice_get (pairs plan.now.bounds.levels.items plan.now.bounds.members.items) at
        ≡ Some (result.level, result.members) }
{
    let (level, members) = pair_at(&plan.bounds.levels, &plan.bounds.members, at as u64);
    Block::of(plan, level, members)
}

/// How many sets the plan has. The count stops at `COUNT_END`.
fn count_sets(plan: &Plan) -> u128
    requires { IsPlan plan.now }
    ensures { result ≡ min (total_of plan.now) (2 ^ 64) }
{
    let mut sum = 0;
    for at in 0..shape_count(plan) {
        sum = count_both(sum, block_at(plan, at).total(plan));
    }
    sum
}

/// How many parameter sets the plan has, or None where they are 2 to the power 64 or more.
pub fn product_total(plan: &Plan) -> Option<u64>
    requires { IsPlan plan.now }
    ensures { MatchOption result (2 ^ 64 ≤ total_of plan.now) (λ total. total ≡ total_of plan.now) }
{
    u64::try_from(count_sets(plan)).ok()
}

/// The parameter set of this rank, counted from 0: the levels of the plan in their order, then the
/// numbers of members, the patterns, the delays, the orders of Q, the chunks, the offsets, and the slot lists.
pub fn product_set(plan: &Plan, rank: u64) -> Geometry
    requires plan { IsPlan plan.now }
    requires few { total_of plan.now < 2 ^ 64 }
    requires rank { rank < total_of plan.now }
    ensures { slice_get (sets_of plan.now) rank ≡ Some result }
{
    let mut rest = rank;
    for at in 0..shape_count(plan) {
        let block = block_at(plan, at);
        let total = block.total(plan) as u64;
        if rest < total {
            return block.set(plan, rest);
        }
        rest -= total;
    }
    unreachable!()
}

/// The rank of a parameter set, None exactly where the plan has no such set.
pub fn product_rank(plan: &Plan, geo: &Geometry) -> Option<u64>
    requires plan { IsPlan plan.now }
    requires few { total_of plan.now < 2 ^ 64 }
    ensures { result ≡ rank_of plan.now geo.now }
{
    let mut before = 0;
    for at in 0..shape_count(plan) {
        let block = block_at(plan, at);
        if let Some(rank) = block.rank(plan, geo) {
            return Some(before + rank);
        }
        before += block.total(plan) as u64;
    }
    None
}
