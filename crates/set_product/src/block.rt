//! The sets of one level and one number of members.
ghost use Rattle.std.specs.Prelude.{◌≡◌, ◌<◌, ◌≤◌, ◌*◌, ◌^◌, ◌==◌, min, Some, length, filter, position, slice_get};
ghost use Rattle.raid_params.specs.declared.limits.TheConstants.{MOST, MOST_CHUNKS, MOST_OFFSETS};
ghost use Rattle.raid_params.specs.Validity.{has_syndrome};
ghost use Rattle.search_plan.specs.Plans.{IsPlan};
ghost use Rattle.slot_math.specs.Space.{lists_of};
ghost use Rattle.set_product.specs.Blocks.{heads_with, is_rotation_of, sets_with, suits as suits_level, IsBlock};
ghost use Rattle.set_product.specs.declared.block.TheConstants.{MOST_ROTATIONS};
ghost use Rattle.set_product.specs.Pairs.{pairs};
ghost use Rattle.plan_sets.specs.Sets.{is_same_head, is_same_set};

use crate::digits::{COUNT_END, count_pairs, join_rank, pair_at, split_rank};
use crate::slot_space::space_of;
use arrayvec::ArrayVec;
use raid_params::{
    Geometry, Head, Level, MOST_DELAYS, MOST_PATTERNS, MOST_SYNDROMES, Pattern, Syndrome,
};
use search_plan::{Placed, Plan};
use slot_math::Space;

/// The most pairs of a pattern and a delay in a plan.
pub(crate) const MOST_ROTATIONS: usize = MOST_PATTERNS * MOST_DELAYS;

/// The sets of a plan with one level and one number of members: the patterns with their delays and the
/// orders of Q of the plan that suit these, and the slot lists.
#[derive(Drop)]
pub(crate) struct Block {
    /// The level.
    pub level: Level,
    /// The number of members.
    pub members: u8,
    /// The patterns that suit the level and the number of members, each with the delays that suit it, in
    /// their order.
    pub rotations: ArrayVec<(Pattern, u64), MOST_ROTATIONS>,
    /// The orders of Q that suit the level, in their order.
    pub syndromes: ArrayVec<Syndrome, MOST_SYNDROMES>,
    /// The slot lists.
    pub space: Space,
}

/// Whether the level has arrays of `members` members, and the pattern, and the pattern the delay.
fn suits(level: Level, members: u8, pattern: Pattern, delay: u64) -> bool
    ensures { result ≡ suits_level level members (pattern, delay) }
{
    level.has_members(members as usize) && level.has_pattern(pattern) && pattern.has_delay(delay)
}

/// How many pairs of a pattern and a delay the plan has.
#[tactic(auto, using(crate::proofs::Rotations::few_rotations))]
fn count_rotations(plan: &Plan) -> usize
    ensures count { result ≡ length plan.now.bounds.patterns.items * length plan.now.bounds.delays.items }
    ensures few { result ≤ MOST_ROTATIONS }
{
    plan.bounds.patterns.len() * plan.bounds.delays.len()
}

/// The pair of this rank among the plan's pairs of a pattern and a delay.
fn rotation_at(plan: &Plan, rank: u64) -> (Pattern, u64)
    requires { rank < length plan.now.bounds.patterns.items * length plan.now.bounds.delays.items }
    ensures { slice_get (pairs plan.now.bounds.patterns.items plan.now.bounds.delays.items) rank ≡ Some result }
{
    pair_at(&plan.bounds.patterns, &plan.bounds.delays, rank)
}

/// The pairs of a pattern and a delay of the plan that suit the level and the number of members.
fn rotations_of(plan: &Plan, level: Level, members: u8) -> ArrayVec<(Pattern, u64), MOST_ROTATIONS>
    ensures { result.items ≡ filter (suits_level level members) (pairs plan.now.bounds.patterns.items plan.now.bounds.delays.items) }
{
    let mut kept = ArrayVec::new();
    for rank in 0..count_rotations(plan) {
        let rotation = rotation_at(plan, rank as u64);
        if suits(level, members, rotation.0, rotation.1) {
            kept.push(rotation);
        }
    }
    kept
}

/// The orders of Q of the plan that suit the level.
fn syndromes_of(plan: &Plan, level: Level) -> ArrayVec<Syndrome, MOST_SYNDROMES>
    ensures { result.items ≡ filter (has_syndrome level) plan.now.bounds.syndromes.items }
{
    let mut kept = ArrayVec::new();
    for syndrome in plan.bounds.syndromes.as_slice() {
        if level.has_syndrome(*syndrome) {
            kept.push(*syndrome);
        }
    }
    kept
}

/// The index of a value among some.
fn index_among<T: Placed>(values: &[T], value: &T) -> Option<usize>
    ensures { result ≡ position (λ other. T.place value.now == T.place other) values.now }
{
    let place = value.place();
    values.iter().position(|other| place == other.place())
}

/// The place of a value among some, as a digit of a rank.
fn place_among<T: Placed>(values: &[T], value: &T) -> Option<u64>
    ensures { result ≡ position (λ other. T.place value.now == T.place other) values.now }
{
    Some(index_among(values, value)? as u64)
}

/// The index of the pattern of a head with its delay among some.
fn rotation_index(rotations: &[(Pattern, u64)], head: &Head) -> Option<usize>
    ensures { result ≡ position (is_rotation_of head.now) rotations.now }
{
    let place = head.pattern.place();
    let delay = head.delay;
    rotations
        .iter()
        .position(|other| place == other.0.place() && delay == other.1)
}

/// The place of the pattern of a head with its delay among some, as a digit of a rank.
fn rotation_among(rotations: &[(Pattern, u64)], head: &Head) -> Option<u64>
    ensures { result ≡ position (is_rotation_of head.now) rotations.now }
{
    Some(rotation_index(rotations, head)? as u64)
}

/// How many pairs of a chunk and an offset a plan has. The count stops at `COUNT_END`.
fn count_ends(plan: &Plan) -> u128
    ensures count { result ≡ min (length plan.now.bounds.chunks.items * length plan.now.bounds.offsets.items) (2 ^ 64) }
    ensures few { length plan.now.bounds.chunks.items * length plan.now.bounds.offsets.items ≤ MOST_CHUNKS * MOST_OFFSETS }
{
    count_pairs(
        plan.bounds.chunks.len() as u128,
        plan.bounds.offsets.len() as u128,
    )
}

/// The pair of this rank among the plan's pairs of a chunk and an offset.
fn end_at(plan: &Plan, rank: u64) -> (u64, u64)
    requires { rank < length plan.now.bounds.chunks.items * length plan.now.bounds.offsets.items }
    ensures { slice_get (pairs plan.now.bounds.chunks.items plan.now.bounds.offsets.items) rank ≡ Some result }
{
    pair_at(&plan.bounds.chunks, &plan.bounds.offsets, rank)
}

impl Block {
    /// The block of a plan.
    pub(crate) fn of(plan: &Plan, level: Level, members: u8) -> Block
        requires plan { IsPlan plan.now }
        requires members { members ≤ MOST }
        ensures block { IsBlock plan.now result }
        ensures level { result.level ≡ level }
        ensures members { result.members ≡ members }
    {
        Block {
            level,
            members,
            rotations: rotations_of(plan, level, members),
            syndromes: syndromes_of(plan, level),
            space: space_of(plan, level, members),
        }
    }

    /// How many heads the block has. The count stops at `COUNT_END`.
    pub(crate) fn count_heads(&self, plan: &Plan) -> u128
        requires plan { IsPlan plan.now }
        requires block { IsBlock plan.now self.now }
        ensures count { result ≡ min (length (heads_with plan.now.bounds self.now.level self.now.members)) (2 ^ 64) }
        ensures few { length (heads_with plan.now.bounds self.now.level self.now.members) < 2 ^ 64 }
    {
        let starts = count_pairs(self.rotations.len() as u128, self.syndromes.len() as u128);
        count_pairs(starts, count_ends(plan))
    }

    /// How many slot lists each head has. The count stops at `COUNT_END`.
    pub(crate) fn count_lists(&self) -> u128
        requires images { self.now.space.images ≤ MOST }
        requires members { self.now.space.members ≤ MOST }
        ensures { result ≡ min (length (lists_of self.now.space)) (2 ^ 64) }
    {
        self.space.total().min(COUNT_END)
    }

    /// The pair of this rank among the block's pairs of a pattern with its delay and an order of Q.
    fn start_at(&self, rank: u64) -> ((Pattern, u64), Syndrome)
        requires { rank < length self.now.rotations.items * length self.now.syndromes.items }
        ensures { slice_get (pairs self.now.rotations.items self.now.syndromes.items) rank ≡ Some result }
    {
        pair_at(&self.rotations, &self.syndromes, rank)
    }

    /// The head of this rank among those of the block.
    pub(crate) fn head_at(&self, plan: &Plan, rank: u64) -> Head
        requires plan { IsPlan plan.now }
        requires block { IsBlock plan.now self.now }
        requires rank { rank < length (heads_with plan.now.bounds self.now.level self.now.members) }
        ensures head { slice_get (heads_with plan.now.bounds self.now.level self.now.members) rank ≡ Some result }
        ensures level { result.level ≡ self.now.level }
        ensures members { result.members ≡ self.now.members }
    {
        let (first, last) = split_rank(rank, count_ends(plan));
        let (rotation, syndrome) = self.start_at(first);
        let (chunk, offset) = end_at(plan, last);
        Head {
            level: self.level,
            members: self.members,
            pattern: rotation.0,
            delay: rotation.1,
            syndrome,
            chunk,
            offset,
        }
    }

    /// The rank of a head among those of the block.
    fn head_rank(&self, plan: &Plan, head: &Head) -> Option<u64>
        requires plan { IsPlan plan.now }
        requires block { IsBlock plan.now self.now }
        ensures { result ≡ position (is_same_head head.now) (heads_with plan.now.bounds self.now.level self.now.members) }
    {
        if head.level.place() != self.level.place() || head.members != self.members {
            return None;
        }
        let rotation = rotation_among(&self.rotations, head);
        let syndrome = place_among(&self.syndromes, &head.syndrome);
        let start = join_rank(rotation, syndrome, self.syndromes.len() as u128);
        let chunk = place_among(&plan.bounds.chunks, &head.chunk);
        let offset = place_among(&plan.bounds.offsets, &head.offset);
        let end = join_rank(chunk, offset, plan.bounds.offsets.len() as u128);
        join_rank(start, end, count_ends(plan))
    }

    /// How many sets the block has. The count stops at `COUNT_END`.
    pub(crate) fn total(&self, plan: &Plan) -> u128
        requires plan { IsPlan plan.now }
        requires block { IsBlock plan.now self.now }
        ensures { result ≡ min (length (sets_with plan.now (self.now.level, self.now.members))) (2 ^ 64) }
    {
        count_pairs(self.count_heads(plan), self.count_lists())
    }

    /// The set of this rank among those of the block.
    pub(crate) fn set(&self, plan: &Plan, rank: u64) -> Geometry
        requires plan { IsPlan plan.now }
        requires block { IsBlock plan.now self.now }
        requires rank { rank < length (sets_with plan.now (self.now.level, self.now.members)) }
        ensures { slice_get (sets_with plan.now (self.now.level, self.now.members)) rank ≡ Some result }
    {
        let (head, slots) = split_rank(rank, self.count_lists());
        Geometry {
            head: self.head_at(plan, head),
            slots: self.space.unrank(u128::from(slots)),
        }
    }

    /// The rank of a set among those of the block.
    pub(crate) fn rank(&self, plan: &Plan, geo: &Geometry) -> Option<u64>
        requires plan { IsPlan plan.now }
        requires block { IsBlock plan.now self.now }
        requires few { length (sets_with plan.now (self.now.level, self.now.members)) < 2 ^ 64 }
        ensures { result ≡ position (is_same_set geo.now) (sets_with plan.now (self.now.level, self.now.members)) }
    {
        let slots = self.space.rank(&geo.slots)?;
        let head = self.head_rank(plan, &geo.head)?;
        join_rank(Some(head), Some(slots as u64), self.count_lists())
    }
}
