//! Walks whose leaves and asked prefixes are written out.
ghost use Rattle.std.specs.Prelude.{◌≡◌, ◌<◌, ◌+◌, ◌∷◌, [], IsNone, Some, not};
ghost use Rattle.std.specs.List.{starts_with};
ghost use Rattle.candidate_enum.specs.Survivors.{question};
ghost use Rattle.candidate_enum.specs.Tests.{tests};

use candidate_enum::{Family, Leaf, Steps, Survivors};
use raid_params::Slots;
use slot_math::Space;
use std::cell::Cell;
use std::marker::Brand;
use std::process::Abort;
use std::sync::ledger::{Blank, Ledger};

/// Three images in three places, without the lists that begin with image 1.
#[derive(Drop)]
struct NotOne {
    /// How many prefixes it was asked, or none where they were not the first of `ASKED`.
    asked: Cell<Option<usize>>,
}

impl Family for NotOne {
    type Kept = ();

    ghost space_of = { λ _. record { images = 3; members = 3; low = 0; high = 0 } };

    ghost admits = { λ _ p. not (starts_with ⟦<Option<u8> as PartialEq>⟧.eq p (Some 1 ∷ [])) };

    ghost keeps = { λ _ _ _. Unit };

    fn space(&self) -> Space {
        Space {
            images: 3,
            members: 3,
            low: 0,
            high: 0,
        }
    }

    fn kept_first(&self) {}

    fn kept_next(&self, _kept: &(), _prefix: &Slots) {}

    fn may_pass(&self, prefix: &Slots, _kept: &()) -> bool {
        self.asked.set(match self.asked.get() {
            Some(count) if ASKED.get(count).is_some_and(|p| *p == prefix.as_slice()) => Some(
                count + 1,
            ),
            _ => None,
        });
        !prefix.as_slice().starts_with(&[Some(1)])
    }
}

/// The prefixes that a walk from rank 1 up to and not including rank 5 asks, in their order.
const ASKED: [&[Option<u8>]; 8] = [
    &[],
    &[Some(0)],
    &[Some(0), Some(2)],
    &[Some(0), Some(2), Some(1)],
    &[Some(1)],
    &[Some(2)],
    &[Some(2), Some(0)],
    &[Some(2), Some(0), Some(1)],
];

// The walk of these ranks.
fn walk_of<'a, R: Abort, F: Family>(rt: &R, family: &'a F, from: u64, stop: u64) -> Survivors<'a, F>
    ensures { result.allowance ≡ tests (question (F.space_of family.now) (F.admits family.now) from stop) (F.space_of family.now).members [] }
{
    let space = family.space();
    assert!(rt; space.images <= 24 && space.members <= 24);
    assert!(rt; from <= stop && stop as u128 <= space.total());
    Survivors::start(family, from, stop)
}

// The next leaf, as an iterator gives it.
fn next_leaf<F: Family>(walk: &mut Survivors<F>) -> Option<Leaf> {
    walk.next()
}

// The next leaf, with its steps counted.
fn counted_leaf<F: Family, L: Ledger>(walk: &mut Survivors<F>, steps: &mut Steps<L>) -> Option<Leaf>
    ensures cost { steps.new + walk.new.allowance ≡ steps.old + walk.old.allowance }
    ensures end { IsNone result → walk.new.allowance ≡ 0 }
{
    walk.advance(steps)
}

fn is_leaf(leaf: &Option<Leaf>, rank: u64, slots: &[Option<u8>]) -> bool {
    match leaf {
        Some(leaf) => leaf.rank == rank && leaf.slots.as_slice() == slots,
        None => false,
    }
}

// The leaves of ranks 1 to 4, by a walk whose steps are counted to its end, and how many steps it took.
fn two_leaves<R: Abort, L: Ledger>(rt: &R, family: &NotOne, steps: &mut Steps<L>) -> usize
    ensures { steps.new ≡ steps.old + result }
{
    assert!(rt; family.space().total() == 6);
    let mut walk = walk_of(rt, family, 1, 5);
    let first = counted_leaf(&mut walk, steps);
    assert!(rt; is_leaf(&first, 1, &[Some(0), Some(2), Some(1)]));
    let second = counted_leaf(&mut walk, steps);
    assert!(rt; is_leaf(&second, 4, &[Some(2), Some(0), Some(1)]));
    assert!(rt; counted_leaf(&mut walk, steps).is_none());
    assert!(rt; counted_leaf(&mut walk, steps).is_none());
    ASKED.len()
}

// How many steps the same walk takes, with a counter of its own.
fn steps_of<R: Abort, L: Ledger>(rt: &R, family: &NotOne, blank: Blank) -> usize
    requires name { blank.name ≡ L.name }
    requires parts { blank.parts ≡ L.parts }
    requires some { 0 < L.parts }
{
    let mut steps = Steps::<L>::new(blank);
    two_leaves(rt, family, &mut steps)
}

// The steps that are counted are the calls that the family saw, one by one.
#[test]
fn advanced(rt: HostRuntime) {
    let family = NotOne {
        asked: Cell::new(Some(0)),
    };
    let steps = steps_of::<HostRuntime, Brand>(&rt, &family, Blank::new(1));
    assert!(rt; family.asked.get() == Some(steps));
}

#[test]
fn iterated(rt: HostRuntime) {
    let family = NotOne {
        asked: Cell::new(Some(0)),
    };
    assert!(rt; family.space().total() == 6);
    let mut walk = walk_of(&rt, &family, 1, 5);
    assert!(rt; is_leaf(&next_leaf(&mut walk), 1, &[Some(0), Some(2), Some(1)]));
    assert!(rt; is_leaf(&next_leaf(&mut walk), 4, &[Some(2), Some(0), Some(1)]));
    assert!(rt; next_leaf(&mut walk).is_none());
    assert!(rt; family.asked.get() == Some(ASKED.len()));
}

/// As many images as there may be in as many places, of which one list passes.
#[derive(Drop)]
struct OneList {
    wanted: Slots,
}

impl Family for OneList {
    type Kept = ();

    ghost space_of = { λ _. record { images = 24; members = 24; low = 0; high = 0 } };

    ghost admits = { λ s p. starts_with ⟦<Option<u8> as PartialEq>⟧.eq s.wanted.items p };

    ghost keeps = { λ _ _ _. Unit };

    fn space(&self) -> Space {
        Space {
            images: 24,
            members: 24,
            low: 0,
            high: 0,
        }
    }

    fn kept_first(&self) {}

    fn kept_next(&self, _kept: &(), _prefix: &Slots) {}

    fn may_pass(&self, prefix: &Slots, _kept: &()) -> bool {
        self.wanted.as_slice().starts_with(prefix.as_slice())
    }
}

/// The list of rank 12,345,678,901,234,567,890, as these lines of Python give it:
///
///     from math import factorial
///     rank, left, wanted = 12_345_678_901_234_567_890, list(range(24)), []
///     for after in reversed(range(24)):
///         place, rank = divmod(rank, factorial(after))
///         wanted.append(left.pop(place))
///     assert wanted == [0, 1, 2, 8, 4, 14, 10, 11, 22, 19, 21, 17, 5, 15, 12, 20, 13, 6, 16, 18, 23, 3, 7, 9]
const WANTED: [Option<u8>; 24] = [
    Some(0),
    Some(1),
    Some(2),
    Some(8),
    Some(4),
    Some(14),
    Some(10),
    Some(11),
    Some(22),
    Some(19),
    Some(21),
    Some(17),
    Some(5),
    Some(15),
    Some(12),
    Some(20),
    Some(13),
    Some(6),
    Some(16),
    Some(18),
    Some(23),
    Some(3),
    Some(7),
    Some(9),
];

#[test]
fn one_of_many(rt: HostRuntime) {
    let family = OneList {
        wanted: Slots::from(WANTED),
    };
    assert!(rt; family.space().total() == 620_448_401_733_239_439_360_000);
    let mut walk = walk_of(&rt, &family, 0, u64::MAX);
    assert!(rt; is_leaf(&next_leaf(&mut walk), 12_345_678_901_234_567_890, &WANTED));
    assert!(rt; next_leaf(&mut walk).is_none());
}
