//! The heads of a plan, each with its slot lists and its ranks.
ghost use Rattle.std.specs.Prelude.{◌≡◌, ◌≤◌, ◌+◌, ◌*◌, ◌<◌, ◌^◌, ◌⊎◌, nat_lt, filter};
ghost use Rattle.std.specs.Iterator.{YieldsFirst, item_count};
ghost use Rattle.search_plan.specs.Plans.{IsPlan};
ghost use Rattle.plan_sets.specs.Sets.{total_of};
ghost use Rattle.set_product.specs.Heads.{count_in, end_of, heads_of, numbered};
ghost use Rattle.set_product.specs.Left.{left_heads, MayBeOpened};

use crate::opened::{Opened, open_from, pass_heads};
use raid_params::Head;
use search_plan::Plan;
use slot_math::Space;
use std::marker::Model;

/// The parameter sets of one head: those of the slot lists of `space`, in their order. They stand at
/// the ranks from `first` on.
#[derive(Clone, Copy)]
pub struct HeadSets {
    /// What the sets have in common.
    pub head: Head,
    /// Their slot lists.
    pub space: Space,
    /// The rank of the first of them, or of the next set where there is none.
    pub first: u64,
    /// How many there are.
    pub count: u64,
}

/// A walk over the heads of a plan, in the order of the product. It takes no memory, and a step takes
/// no longer in a plan with more heads.
#[derive(Drop)]
pub struct Heads<'a> {
    plan: &'a Plan,
    opened: Option<Opened>,
    first: u64,
}

impl<'a> Model for Heads<'a> {
    ghost use Rattle.std.specs.Prelude.{◌≡◌, ◌+◌, ◌<◌, ◌^◌, List};
    ghost use Rattle.search_plan.specs.Plans.{IsPlan};
    ghost use Rattle.plan_sets.specs.Sets.{total_of};
    ghost use Rattle.set_product.specs.Heads.{count_in, numbered};
    ghost use Rattle.set_product.specs.Left.{left_heads, MayBeOpened};
    ghost use Rattle.set_product.specs.declared.heads.HeadSets.{HeadSets as HeadSetsOf};

    ghost Value = { List HeadSetsOf };

    ghost view = { λ s. numbered s.plan.now s.first (left_heads s.plan.now s.opened) };

    ghost invariant = { λ s. IsPlan s.plan.now × (total_of s.plan.now < 2 ^ 64) × MayBeOpened s.plan.now s.opened × (s.first + count_in s.plan.now (left_heads s.plan.now s.opened) ≡ total_of s.plan.now) };
}

/// How many of `heads` heads, with `lists` slot lists each and the first set at rank `first`, end at the
/// rank or before. The last of them ends after the rank.
fn heads_before(first: u64, rank: u64, lists: u64, heads: u64) -> u64
    requires some { 0 < heads }
    requires rank { rank < first + heads * lists }
    ensures few { result < heads }
    ensures low { (result ≡ 0) ⊎ (first + result * lists ≤ rank) }
    ensures high { rank < first + (result + 1) * lists }
{
    if rank <= first {
        return 0;
    }
    (rank - first) / lists
}

/// Where a walk that stands here has passed over the heads that end at this rank or before.
fn skip_heads(
    plan: &Plan,
    mut opened: Option<Opened>,
    mut first: u64,
    rank: u64,
) -> (Option<Opened>, u64)
    requires plan { IsPlan plan.now }
    requires few { total_of plan.now < 2 ^ 64 }
    requires opened { MayBeOpened plan.now opened }
    requires first { first + count_in plan.now (left_heads plan.now opened) ≡ total_of plan.now }
    ensures left { numbered plan.now result.1 (left_heads plan.now result.0)
        ≡ filter (λ sets. nat_lt rank (end_of sets)) (numbered plan.now first (left_heads plan.now opened)) }
    ensures opened { MayBeOpened plan.now result.0 }
    ensures first { result.1 + count_in plan.now (left_heads plan.now result.0) ≡ total_of plan.now }
{
    while let Some(block) = opened.take() {
        let sets = (block.heads - block.next) * block.lists;
        if rank < first + sets {
            let count = heads_before(first, rank, block.lists, block.heads - block.next);
            let start = first + count * block.lists;
            return (pass_heads(plan, block, count), start);
        }
        first += sets;
        opened = open_from(plan, block.after);
    }
    (None, first)
}

impl<'a> Heads<'a> {
    /// The heads of a plan, each once: every combination of its levels, numbers of members, patterns,
    /// delays, orders of Q, chunks and offsets that makes sense.
    #[tactic(auto, using(crate::proofs::HeadByHead::all_heads, crate::proofs::HeadByHead::all_counted))]
    pub fn of(plan: &'a Plan) -> Heads<'a>
        requires plan { IsPlan plan.now }
        requires few { total_of plan.now < 2 ^ 64 }
        ensures { result ≡ heads_of plan.now }
    {
        Heads {
            plan,
            opened: open_from(plan, 0),
            first: 0,
        }
    }

    /// Passes over the heads whose sets all have ranks below this one, and those without sets that
    /// stand before or among them. The time it takes grows with the number of pairs of a level and a
    /// number of members.
    pub fn skip_to(&mut self, rank: u64)
        ensures { self.new ≡ filter (λ sets. nat_lt rank (end_of sets)) self.old }
    {
        let (opened, first) = skip_heads(self.plan, self.opened.take(), self.first, rank);
        self.opened = opened;
        self.first = first;
    }
}

impl<'a> Iterator for Heads<'a> {
    type Item = HeadSets;

    ghost next_gives = { YieldsFirst (λ s. s) };

    ghost remaining = { item_count (λ s. s) };

    fn next(&mut self) -> Option<HeadSets> {
        match self.opened.take() {
            None => None,
            Some(block) => {
                let sets = HeadSets {
                    head: block.block.head_at(self.plan, block.next),
                    space: block.block.space,
                    first: self.first,
                    count: block.lists,
                };
                self.first += block.lists;
                self.opened = pass_heads(self.plan, block, 1);
                Some(sets)
            }
        }
    }
}
