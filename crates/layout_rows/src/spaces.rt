//! Small spaces whose lists are written out, and a large one whose length is worked out by hand.
ghost use Rattle.std.specs.Prelude.{◌≡◌};

use raid_params::Slots;
use slot_math::Space;
use std::process::Abort;

// An empty place.
const NO: Option<u8> = None;

// The lists of the space are these, in their order, and their ranks are their numbers.
fn are_lists<R: Abort>(rt: &R, space: &Space, lists: &[[Option<u8>; 3]; 6]) {
    assert!(rt; space.images <= 3 && space.members == 3);
    assert!(rt; space.total() == 6);
    for rank in 0..6u8 {
        let slots = space.unrank(rank as u128);
        assert!(rt;
            slots.as_slice() == &lists[rank as usize][..],
            "the list of {rank}"
        );
        assert!(rt;
            space.rank(&slots) == Some(rank as u128),
            "the rank of {rank}"
        );
    }
}

#[test]
fn three_images(rt: HostRuntime) {
    let lists = [
        [Some(0), Some(1), Some(2)],
        [Some(0), Some(2), Some(1)],
        [Some(1), Some(0), Some(2)],
        [Some(1), Some(2), Some(0)],
        [Some(2), Some(0), Some(1)],
        [Some(2), Some(1), Some(0)],
    ];
    let space = Space {
        images: 3,
        members: 3,
        low: 0,
        high: 0,
    };
    are_lists(&rt, &space, &lists);
}

#[test]
fn one_empty(rt: HostRuntime) {
    let lists = [
        [Some(0), Some(1), NO],
        [Some(0), NO, Some(1)],
        [Some(1), Some(0), NO],
        [Some(1), NO, Some(0)],
        [NO, Some(0), Some(1)],
        [NO, Some(1), Some(0)],
    ];
    let space = Space {
        images: 2,
        members: 3,
        low: 1,
        high: 1,
    };
    are_lists(&rt, &space, &lists);
}

// How many lists of as many images as there may be have from `low` to `high` empty places.
fn total(low: u8, high: u8) -> u128 {
    largest(low, high).total()
}

fn largest(low: u8, high: u8) -> Space
    ensures images { result.images ≡ 24 }
    ensures members { result.members ≡ 24 }
{
    Space {
        images: 24,
        members: 24,
        low,
        high,
    }
}

// How many of those with two empty places at most begin so, and the rank of this beginning as a list.
fn begun(front: &Slots) -> (u128, Option<u128>) {
    let space = largest(0, 2);
    (space.completions(front), space.rank(front))
}

// 24! lists have all images, 24 * 24! leave one out, and 276 * 24! / 2 two: together 163 * 24!. With any number of empty places
// they are, as Python has it, sum(math.comb(24, empty) * math.perm(24, 24 - empty) for empty in range(25)).
#[test]
fn as_many_images_as_there_may_be(rt: HostRuntime) {
    assert!(rt; total(0, 0) == 620_448_401_733_239_439_360_000);
    assert!(rt; total(0, 2) == 163 * 620_448_401_733_239_439_360_000);
    assert!(rt; total(0, 24) == 977_421_343_777_135_316_364_285_889);
    assert!(rt; total(3, 2) == 0);
    let mut front = Slots::new();
    assert!(rt; begun(&front).0 == 163 * 620_448_401_733_239_439_360_000);
    front.push(Some(3));
    front.push(Some(3));
    assert!(rt; begun(&front) == (0, None));
}
