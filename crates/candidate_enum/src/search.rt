//! How a walk goes from one prefix to the next.
ghost use Rattle.std.specs.Prelude.{◌≡◌, ◌≤◌, ◌<◌, ◌+◌, ◌^◌, ◌++◌, ◌∷◌, [], true, false, ℕ, Some, None, length};
ghost use Rattle.std.specs.Int.{bit_at};
ghost use Rattle.slot_math.specs.Ways.{ends, IsPlace};
ghost use Rattle.candidate_enum.specs.Survivors.{question};
ghost use Rattle.candidate_enum.specs.Counts.{IsTable, ways_on};
ghost use Rattle.candidate_enum.specs.Kept.{IsKept, IsLonger, SharesBelow};
ghost use Rattle.candidate_enum.specs.Left.{overlaps, left_after, left_children, left_from, index_of, IsSearch, IsParent, IsDone, IsFound, IsPassed, MayStand, Looked};

use crate::counts::{Counts, ROW};
use crate::family::Family;
use crate::walk::Walk;
use raid_params::MOST;
use slot_math::Space;

/// What is searched: the lists of a family's space of ranks from `from` up to `stop`.
#[derive(Drop)]
pub struct Search<'a, F: Family> {
    /// Which prefixes are admitted.
    pub family: &'a F,
    /// The lists.
    pub space: Space,
    /// How many lists go on from a prefix.
    pub counts: Counts,
    /// The first rank of the range.
    pub from: u64,
    /// The rank after the range.
    pub stop: u64,
}

/// Some rank of the range is among `count` ranks from `rank` on.
#[inline]
pub(crate) fn meets_range(from: u64, stop: u64, rank: u128, count: u128) -> bool
    requires { rank + count ≤ (MOST + 1) ^ MOST }
    ensures { result ≡ overlaps from stop rank count }
{
    count > 0
        && rank < stop as u128
        && (from as u128 <= rank || from < stop && (from as u128) < rank + count)
}

/// The least image from `first` on whose bit is set, or `images` where there is none.
#[inline]
fn next_free(free: u32, first: u8, images: u8) -> u8
    requires first { first ≤ images }
    requires images { images ≤ MOST }
    ensures low { first ≤ result }
    ensures high { result ≤ images }
    ensures free { result < images → bit_at free result ≡ 1 }
    ensures others { (i : ℕ) → first ≤ i → i < result → bit_at free i ≡ 0 }
{
    let rest = free >> first;
    if rest == 0 {
        return images;
    }
    let image = first as u32 + rest.trailing_zeros();
    image.min(images as u32) as u8
}

impl<'a, F: Family> Search<'a, F> {
    /// How many lists go on from a prefix with so many places to come and so many empty ones.
    #[inline]
    pub(crate) fn ways(&self, left: usize, empty: usize) -> u128
        requires members { self.now.space.members ≤ MOST }
        requires counts { IsTable self.now.space self.now.counts }
        requires within { left + empty ≤ self.now.space.members }
        ensures { result ≡ ways_on self.now.space left empty }
    {
        self.counts[left * ROW + empty]
    }

    /// The first image from `first` on with which a list of the range goes on from the prefix, and the rank of the first
    /// such list; or `images`, and the rank after all lists that go on with an image.
    #[inline(always)]
    fn next_image(&self, walk: &Walk, first: u8) -> (u8, u128)
        requires search { IsSearch self.now.space self.now.from self.now.stop }
        requires counts { IsTable self.now.space self.now.counts }
        requires first { first ≤ self.now.space.images }
        requires kept { IsKept walk.now.slots.items walk.now.free walk.now.empty }
        requires parent { IsParent (question self.now.space (F.admits self.now.family.now) self.now.from self.now.stop) walk.now.slots.items first walk.now.rank }
        ensures within { result.0 ≤ self.now.space.images }
        ensures looked { Looked (question self.now.space (F.admits self.now.family.now) self.now.from self.now.stop) walk.now.slots.items (left_children (question self.now.space (F.admits self.now.family.now) self.now.from self.now.stop) walk.now.slots.items first walk.now.rank) result.0 result.1 }
        ensures found { result.0 < self.now.space.images → overlaps self.now.from self.now.stop result.1 (length (ends self.now.space (walk.now.slots.items ++ Some result.0 ∷ []))) ≡ true }
    {
        let mut at = walk.rank;
        let mut image = next_free(walk.free, first, self.space.images);
        while image < self.space.images {
            let left = self.space.members as usize - walk.slots.len() - 1;
            let ways = self.ways(left, walk.empty);
            if meets_range(self.from, self.stop, at, ways) {
                return (image, at);
            }
            at += ways;
            image = next_free(walk.free, image + 1, self.space.images);
        }
        (image, at)
    }

    /// Leaves one place more empty, if a list of the range goes on so from the prefix.
    #[inline]
    fn next_empty(&self, walk: &mut Walk) -> bool
        requires search { IsSearch self.now.space self.now.from self.now.stop }
        requires counts { IsTable self.now.space self.now.counts }
        requires kept { IsKept walk.old.slots.items walk.old.free walk.old.empty }
        requires parent { IsParent (question self.now.space (F.admits self.now.family.now) self.now.from self.now.stop) walk.old.slots.items self.now.space.images walk.old.rank }
        ensures found { result ≡ true → IsFound (question self.now.space (F.admits self.now.family.now) self.now.from self.now.stop) (left_children (question self.now.space (F.admits self.now.family.now) self.now.from self.now.stop) walk.old.slots.items self.now.space.images walk.old.rank) walk.new.slots.items walk.new.rank }
        ensures passed { result ≡ false → IsPassed (question self.now.space (F.admits self.now.family.now) self.now.from self.now.stop) (left_children (question self.now.space (F.admits self.now.family.now) self.now.from self.now.stop) walk.old.slots.items self.now.space.images walk.old.rank) walk.new.slots.items walk.new.rank }
        ensures same { result ≡ false → walk.new.slots.items ≡ walk.old.slots.items }
        ensures going { walk.new.going ≡ walk.old.going }
        ensures longer { result ≡ true → IsLonger walk.old.slots.items walk.new.slots.items }
        ensures kept { IsKept walk.new.slots.items walk.new.free walk.new.empty }
    {
        if walk.empty >= self.space.high as usize {
            return false;
        }
        let left = self.space.members as usize - walk.slots.len() - 1;
        let ways = self.ways(left, walk.empty + 1);
        if meets_range(self.from, self.stop, walk.rank, ways) {
            walk.push_empty();
            return true;
        }
        walk.rank += ways;
        false
    }

    /// Fills one place more, from image `first` on, with the first that a list of the range goes on with. Where there is
    /// none, the rank is then that after all lists that begin with the prefix.
    #[inline(always)]
    fn next_child(&self, walk: &mut Walk, first: u8) -> bool
        requires search { IsSearch self.now.space self.now.from self.now.stop }
        requires counts { IsTable self.now.space self.now.counts }
        requires first { first ≤ self.now.space.images }
        requires kept { IsKept walk.old.slots.items walk.old.free walk.old.empty }
        requires parent { IsParent (question self.now.space (F.admits self.now.family.now) self.now.from self.now.stop) walk.old.slots.items first walk.old.rank }
        ensures found { result ≡ true → IsFound (question self.now.space (F.admits self.now.family.now) self.now.from self.now.stop) (left_children (question self.now.space (F.admits self.now.family.now) self.now.from self.now.stop) walk.old.slots.items first walk.old.rank) walk.new.slots.items walk.new.rank }
        ensures passed { result ≡ false → IsPassed (question self.now.space (F.admits self.now.family.now) self.now.from self.now.stop) (left_children (question self.now.space (F.admits self.now.family.now) self.now.from self.now.stop) walk.old.slots.items first walk.old.rank) walk.new.slots.items walk.new.rank }
        ensures same { result ≡ false → walk.new.slots.items ≡ walk.old.slots.items }
        ensures going { walk.new.going ≡ walk.old.going }
        ensures longer { result ≡ true → IsLonger walk.old.slots.items walk.new.slots.items }
        ensures kept { IsKept walk.new.slots.items walk.new.free walk.new.empty }
    {
        let (image, at) = self.next_image(walk, first);
        walk.rank = at;
        if image == self.space.images {
            return self.next_empty(walk);
        }
        walk.push_image(image);
        true
    }

    /// Fills one place more with what comes after `last` there, as `next_child` does.
    #[inline(always)]
    fn next_after(&self, walk: &mut Walk, last: Option<u8>) -> bool
        requires search { IsSearch self.now.space self.now.from self.now.stop }
        requires counts { IsTable self.now.space self.now.counts }
        requires place { IsPlace self.now.space.images last }
        requires kept { IsKept walk.old.slots.items walk.old.free walk.old.empty }
        requires parent { IsParent (question self.now.space (F.admits self.now.family.now) self.now.from self.now.stop) walk.old.slots.items (index_of self.now.space.images last + 1) walk.old.rank }
        ensures found { result ≡ true → IsFound (question self.now.space (F.admits self.now.family.now) self.now.from self.now.stop) (left_children (question self.now.space (F.admits self.now.family.now) self.now.from self.now.stop) walk.old.slots.items (index_of self.now.space.images last + 1) walk.old.rank) walk.new.slots.items walk.new.rank }
        ensures passed { result ≡ false → IsPassed (question self.now.space (F.admits self.now.family.now) self.now.from self.now.stop) (left_children (question self.now.space (F.admits self.now.family.now) self.now.from self.now.stop) walk.old.slots.items (index_of self.now.space.images last + 1) walk.old.rank) walk.new.slots.items walk.new.rank }
        ensures same { result ≡ false → walk.new.slots.items ≡ walk.old.slots.items }
        ensures going { walk.new.going ≡ walk.old.going }
        ensures longer { result ≡ true → IsLonger walk.old.slots.items walk.new.slots.items }
        ensures kept { IsKept walk.new.slots.items walk.new.free walk.new.empty }
    {
        match last {
            Some(image) => self.next_child(walk, image + 1),
            None => false,
        }
    }

    /// Goes on from a prefix that the walk is done with, where the next list has the walk's rank.
    #[inline(always)]
    #[tactic(auto, using(crate::proofs::Moves::at_end))]
    pub(crate) fn climb(&self, walk: &mut Walk)
        requires search { IsSearch self.now.space self.now.from self.now.stop }
        requires counts { IsTable self.now.space self.now.counts }
        requires going { walk.old.going ≡ true }
        requires kept { IsKept walk.old.slots.items walk.old.free walk.old.empty }
        requires done { IsDone (question self.now.space (F.admits self.now.family.now) self.now.from self.now.stop) walk.old.slots.items walk.old.rank }
        ensures left { left_after (question self.now.space (F.admits self.now.family.now) self.now.from self.now.stop) walk.old.slots.items walk.old.rank ≡ left_from (question self.now.space (F.admits self.now.family.now) self.now.from self.now.stop) walk.new }
        ensures stands { MayStand (question self.now.space (F.admits self.now.family.now) self.now.from self.now.stop) walk.new }
        ensures shares { SharesBelow walk.old.slots.items (length walk.old.slots.items) walk.new.slots.items }
        ensures kept { IsKept walk.new.slots.items walk.new.free walk.new.empty }
    {
        while let Some(last) = walk.pop() {
            if self.next_after(walk, last) {
                return;
            }
        }
        walk.going = false;
    }

    /// Goes on below an admitted prefix.
    #[inline(always)]
    pub(crate) fn descend(&self, walk: &mut Walk)
        requires search { IsSearch self.now.space self.now.from self.now.stop }
        requires counts { IsTable self.now.space self.now.counts }
        requires going { walk.old.going ≡ true }
        requires kept { IsKept walk.old.slots.items walk.old.free walk.old.empty }
        requires parent { IsParent (question self.now.space (F.admits self.now.family.now) self.now.from self.now.stop) walk.old.slots.items 0 walk.old.rank }
        ensures left { left_children (question self.now.space (F.admits self.now.family.now) self.now.from self.now.stop) walk.old.slots.items 0 walk.old.rank ≡ left_from (question self.now.space (F.admits self.now.family.now) self.now.from self.now.stop) walk.new }
        ensures stands { MayStand (question self.now.space (F.admits self.now.family.now) self.now.from self.now.stop) walk.new }
        ensures shares { SharesBelow walk.old.slots.items (length walk.old.slots.items + 1) walk.new.slots.items }
        ensures kept { IsKept walk.new.slots.items walk.new.free walk.new.empty }
    {
        if !self.next_child(walk, 0) {
            self.climb(walk);
        }
    }
}
