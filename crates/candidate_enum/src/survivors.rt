//! The walk.
ghost use Rattle.std.specs.Prelude.{◌≡◌, ◌+◌, ◌-◌, ◌≤◌, [], ◌∷◌, length, MatchOption};
ghost use Rattle.std.specs.Iterator.{YieldsFirst, item_count};
ghost use Rattle.slot_math.specs.Space.{lists_of};
ghost use Rattle.candidate_enum.specs.Survivors.{question, survivors};
ghost use Rattle.candidate_enum.specs.Tests.{tests};
ghost use Rattle.candidate_enum.specs.Counts.{IsTable};
ghost use Rattle.candidate_enum.specs.Kept.{AreKept, IsKept};
ghost use Rattle.candidate_enum.specs.Left.{Left, IsSearch, MayStand, left_from, nothing_left};

use crate::counts::{ROW, counts_of};
use crate::family::Family;
use crate::leaf::Leaf;
use crate::search::Search;
use crate::steps::Steps;
use crate::walk::Walk;
use raid_params::MOST;
use std::marker::Model;
use std::sync::ledger::Ledger;

/// A walk over the lists of a family's space of ranks from `from` up to and not including `stop`:
/// it gives those whose every prefix, the empty and the whole one included, the family admits, in
/// order of rank. It can be left and gone on with at any rank.
#[derive(Drop)]
pub struct Survivors<'a, F: Family> {
    search: Search<'a, F>,
    walk: Walk,
    /// What is kept of the beginnings of the walk's prefix, by how many places they have.
    stack: [F::Kept; ROW],
}

impl<'a, F: Family> Model for Survivors<'a, F> {
    ghost Value = { Left };

    ghost view = { λ s. left_from (question s.search.space (F.admits s.search.family.now) s.search.from s.search.stop) s.walk };

    ghost invariant = { λ s. (s.search.space ≡ F.space_of s.search.family.now) × IsSearch s.search.space s.search.from s.search.stop × IsTable s.search.space s.search.counts × IsKept s.walk.slots.items s.walk.free s.walk.empty × AreKept (F.keeps s.search.family.now) s.walk.slots.items s.stack × MayStand (question s.search.space (F.admits s.search.family.now) s.search.from s.search.stop) s.walk };
}

impl<'a, F: Family> Survivors<'a, F> {
    /// The walk of the ranks from `from` up to and not including `stop`, which is at most the
    /// total of the space. Its allowance is the number of tests of the empty prefix.
    pub fn start(family: &'a F, from: u64, stop: u64) -> Survivors<'a, F>
        requires images { (F.space_of family.now).images ≤ MOST }
        requires members { (F.space_of family.now).members ≤ MOST }
        requires ordered { from ≤ stop }
        requires ranks { stop ≤ length (lists_of (F.space_of family.now)) }
        ensures leaves { result.leaves ≡ survivors (question (F.space_of family.now) (F.admits family.now) from stop) }
        ensures allowance { result.allowance ≡ tests (question (F.space_of family.now) (F.admits family.now) from stop) (F.space_of family.now).members [] }
    {
        let space = family.space();
        let search = Search {
            family,
            space,
            counts: counts_of(&space),
            from,
            stop,
        };
        let walk = search.first_walk();
        let stack = [family.kept_first(); ROW];
        Survivors {
            search,
            walk,
            stack,
        }
    }

    /// The next leaf, or None exactly where none is left. It counts a step for each test of a
    /// prefix, and lowers the allowance by as much, to 0 where no leaf is left: so a whole walk takes
    /// as many steps as its allowance at the start.
    pub fn advance<L: Ledger>(&mut self, steps: &mut Steps<L>) -> Option<Leaf>
        ensures leaf { MatchOption result ((self.old.leaves ≡ []) × (self.new ≡ nothing_left)) (λ r. self.old.leaves ≡ r ∷ self.new.leaves) }
        ensures cost { (steps.new - steps.old) + self.new.allowance ≡ self.old.allowance }
        ensures counts { steps.old ≤ steps.new }
    {
        if !self
            .search
            .to_leaf_counted(&mut self.walk, &mut self.stack, steps)
        {
            return None;
        }
        steps.tick();
        Some(self.search.take_leaf(&mut self.walk))
    }
}

impl<'a, F: Family> Iterator for Survivors<'a, F> {
    type Item = Leaf;

    ghost next_gives = { YieldsFirst (λ s. s.leaves) };

    ghost remaining = { item_count (λ s. s.leaves) };

    fn next(&mut self) -> Option<Leaf> {
        if !self.search.to_leaf(&mut self.walk, &mut self.stack) {
            return None;
        }
        Some(self.search.take_leaf(&mut self.walk))
    }
}
