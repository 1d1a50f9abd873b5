//! The tests of a walk, one after another.
ghost use Rattle.std.specs.Prelude.{◌≡◌, ◌≤◌, ◌+◌, [], true, false, Some, None, length, slice_index_or};
ghost use Rattle.candidate_enum.specs.Survivors.{question, survivors};
ghost use Rattle.candidate_enum.specs.Tests.{tests};
ghost use Rattle.candidate_enum.specs.Counts.{IsTable};
ghost use Rattle.candidate_enum.specs.Kept.{AreKept, IsKept, SharesBelow};
ghost use Rattle.candidate_enum.specs.Left.{left_at, left_from, IsSearch, StandsAt, MayStand, IsMet, IsTurn};

use crate::counts::ROW;
use crate::family::Family;
use crate::leaf::Leaf;
use crate::search::{Search, meets_range};
use crate::steps::Steps;
use crate::walk::Walk;
use raid_params::Slots;
use std::sync::ledger::Ledger;

/// A copy of the list.
#[inline]
fn copy_of(slots: &Slots) -> Slots
    ensures { result.items ≡ slots.now.items }
{
    let mut copy = Slots::new();
    copy.try_extend_from_slice(slots.as_slice()).unwrap();
    copy
}

impl<'a, F: Family> Search<'a, F> {
    /// Where a walk begins: at the empty prefix, if there is a rank in the range.
    #[tactic(auto, using(crate::proofs::Turns::total_sum))]
    pub(crate) fn first_walk(&self) -> Walk
        requires search { IsSearch self.now.space self.now.from self.now.stop }
        requires counts { IsTable self.now.space self.now.counts }
        ensures leaves { (left_from (question self.now.space (F.admits self.now.family.now) self.now.from self.now.stop) result).leaves ≡ survivors (question self.now.space (F.admits self.now.family.now) self.now.from self.now.stop) }
        ensures allowance { (left_from (question self.now.space (F.admits self.now.family.now) self.now.from self.now.stop) result).allowance ≡ tests (question self.now.space (F.admits self.now.family.now) self.now.from self.now.stop) self.now.space.members [] }
        ensures stands { MayStand (question self.now.space (F.admits self.now.family.now) self.now.from self.now.stop) result }
        ensures begins { result.slots.items ≡ [] }
        ensures kept { IsKept result.slots.items result.free result.empty }
    {
        Walk::new(meets_range(self.from, self.stop, 0, self.space.total()))
    }

    /// Keeps of the prefix at which the walk stands what the family keeps of it.
    #[inline]
    fn keep(&self, walk: &Walk, stack: &mut [F::Kept; ROW])
        requires family { self.now.space ≡ F.space_of self.now.family.now }
        requires search { IsSearch self.now.space self.now.from self.now.stop }
        requires stands { StandsAt (question self.now.space (F.admits self.now.family.now) self.now.from self.now.stop) walk.now.slots.items walk.now.rank }
        requires stack { AreKept (F.keeps self.now.family.now) walk.now.slots.items stack.old }
        ensures stack { AreKept (F.keeps self.now.family.now) walk.now.slots.items stack.new }
        ensures own { (none : F.Kept) → F.keeps self.now.family.now walk.now.slots.items (slice_index_or stack.new (length walk.now.slots.items) none) }
    {
        let count = walk.slots.len();
        if count > 0 {
            stack[count] = self.family.kept_next(&stack[count - 1], &walk.slots);
        }
    }

    /// Tests the prefix at which the walk stands: whether it is a whole list and admitted, where the walk then stays. Else it
    /// goes on.
    #[inline]
    #[tactic(auto, using(crate::proofs::Turns::begins_some))]
    fn take_turn(&self, walk: &mut Walk, stack: &mut [F::Kept; ROW]) -> bool
        requires family { self.now.space ≡ F.space_of self.now.family.now }
        requires search { IsSearch self.now.space self.now.from self.now.stop }
        requires counts { IsTable self.now.space self.now.counts }
        requires going { walk.old.going ≡ true }
        requires kept { IsKept walk.old.slots.items walk.old.free walk.old.empty }
        requires stack { AreKept (F.keeps self.now.family.now) walk.old.slots.items stack.old }
        requires stands { StandsAt (question self.now.space (F.admits self.now.family.now) self.now.from self.now.stop) walk.old.slots.items walk.old.rank }
        ensures met { result ≡ true → IsMet (question self.now.space (F.admits self.now.family.now) self.now.from self.now.stop) walk.new.slots.items walk.new.rank }
        ensures same { result ≡ true → walk.new ≡ walk.old }
        ensures passed { result ≡ false → IsTurn (left_at (question self.now.space (F.admits self.now.family.now) self.now.from self.now.stop) walk.old.slots.items walk.old.rank) None (left_from (question self.now.space (F.admits self.now.family.now) self.now.from self.now.stop) walk.new) }
        ensures stands { MayStand (question self.now.space (F.admits self.now.family.now) self.now.from self.now.stop) walk.new }
        ensures stack { AreKept (F.keeps self.now.family.now) walk.new.slots.items stack.new }
        ensures kept { IsKept walk.new.slots.items walk.new.free walk.new.empty }
    {
        let count = walk.slots.len();
        let members = self.space.members as usize;
        self.keep(walk, stack);
        if !self.family.may_pass(&walk.slots, &stack[count]) {
            walk.rank += self.ways(members - count, walk.empty);
            self.climb(walk);
            return false;
        }
        if count < members {
            self.descend(walk);
            return false;
        }
        true
    }

    /// The list at which the walk stands, which then goes on.
    #[inline]
    #[tactic(auto, using(crate::proofs::Turns::met_below))]
    pub(crate) fn take_leaf(&self, walk: &mut Walk) -> Leaf
        requires search { IsSearch self.now.space self.now.from self.now.stop }
        requires counts { IsTable self.now.space self.now.counts }
        requires going { walk.old.going ≡ true }
        requires kept { IsKept walk.old.slots.items walk.old.free walk.old.empty }
        requires met { IsMet (question self.now.space (F.admits self.now.family.now) self.now.from self.now.stop) walk.old.slots.items walk.old.rank }
        ensures turn { IsTurn (left_at (question self.now.space (F.admits self.now.family.now) self.now.from self.now.stop) walk.old.slots.items walk.old.rank) (Some result) (left_from (question self.now.space (F.admits self.now.family.now) self.now.from self.now.stop) walk.new) }
        ensures stands { MayStand (question self.now.space (F.admits self.now.family.now) self.now.from self.now.stop) walk.new }
        ensures shares { SharesBelow walk.old.slots.items (length walk.old.slots.items) walk.new.slots.items }
        ensures kept { IsKept walk.new.slots.items walk.new.free walk.new.empty }
    {
        let leaf = Leaf {
            rank: walk.rank as u64,
            slots: copy_of(&walk.slots),
        };
        walk.rank += 1;
        self.climb(walk);
        leaf
    }

    /// Goes on up to a list that is met: whether one is.
    #[inline]
    pub(crate) fn to_leaf(&self, walk: &mut Walk, stack: &mut [F::Kept; ROW]) -> bool
        requires family { self.now.space ≡ F.space_of self.now.family.now }
        requires search { IsSearch self.now.space self.now.from self.now.stop }
        requires counts { IsTable self.now.space self.now.counts }
        requires kept { IsKept walk.old.slots.items walk.old.free walk.old.empty }
        requires stack { AreKept (F.keeps self.now.family.now) walk.old.slots.items stack.old }
        requires stands { MayStand (question self.now.space (F.admits self.now.family.now) self.now.from self.now.stop) walk.old }
        ensures going { walk.new.going ≡ result }
        ensures stands { MayStand (question self.now.space (F.admits self.now.family.now) self.now.from self.now.stop) walk.new }
        ensures met { result ≡ true → IsMet (question self.now.space (F.admits self.now.family.now) self.now.from self.now.stop) walk.new.slots.items walk.new.rank }
        ensures leaves { (left_from (question self.now.space (F.admits self.now.family.now) self.now.from self.now.stop) walk.old).leaves ≡ (left_from (question self.now.space (F.admits self.now.family.now) self.now.from self.now.stop) walk.new).leaves }
        ensures stack { AreKept (F.keeps self.now.family.now) walk.new.slots.items stack.new }
        ensures kept { IsKept walk.new.slots.items walk.new.free walk.new.empty }
    {
        while walk.going {
            if self.take_turn(walk, stack) {
                return true;
            }
        }
        false
    }

    /// Does as `to_leaf`, and counts a step for each test but that of the list.
    #[inline]
    pub(crate) fn to_leaf_counted<L: Ledger>(
        &self,
        walk: &mut Walk,
        stack: &mut [F::Kept; ROW],
        steps: &mut Steps<L>,
    ) -> bool
        requires family { self.now.space ≡ F.space_of self.now.family.now }
        requires search { IsSearch self.now.space self.now.from self.now.stop }
        requires counts { IsTable self.now.space self.now.counts }
        requires kept { IsKept walk.old.slots.items walk.old.free walk.old.empty }
        requires stack { AreKept (F.keeps self.now.family.now) walk.old.slots.items stack.old }
        requires stands { MayStand (question self.now.space (F.admits self.now.family.now) self.now.from self.now.stop) walk.old }
        ensures going { walk.new.going ≡ result }
        ensures stands { MayStand (question self.now.space (F.admits self.now.family.now) self.now.from self.now.stop) walk.new }
        ensures met { result ≡ true → IsMet (question self.now.space (F.admits self.now.family.now) self.now.from self.now.stop) walk.new.slots.items walk.new.rank }
        ensures leaves { (left_from (question self.now.space (F.admits self.now.family.now) self.now.from self.now.stop) walk.old).leaves ≡ (left_from (question self.now.space (F.admits self.now.family.now) self.now.from self.now.stop) walk.new).leaves }
        ensures cost { steps.new + (left_from (question self.now.space (F.admits self.now.family.now) self.now.from self.now.stop) walk.new).allowance ≡ steps.old + (left_from (question self.now.space (F.admits self.now.family.now) self.now.from self.now.stop) walk.old).allowance }
        ensures counts { steps.old ≤ steps.new }
        ensures stack { AreKept (F.keeps self.now.family.now) walk.new.slots.items stack.new }
        ensures kept { IsKept walk.new.slots.items walk.new.free walk.new.empty }
    {
        while walk.going {
            if self.take_turn(walk, stack) {
                return true;
            }
            steps.tick();
        }
        false
    }
}
