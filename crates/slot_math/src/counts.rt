//! How many lists a space has, and how many of them begin with a prefix.
ghost use Rattle.std.specs.Prelude.{◌≡◌, ◌≤◌, ◌*◌, ◌<◌, ◌^◌, ◌+◌, ℕ, length, filter};
ghost use Rattle.slot_math.specs.Space.{lists_of, begins};
ghost use Rattle.slot_math.specs.Ways.{ways};

use crate::places::{all_different, all_images};
use crate::space::Space;
use raid_params::{MOST, Slots, count_empty};

/// One way where no place is left and from `low` to `high` places are empty, and none elsewhere.
#[tactic(auto, using(crate::proofs::Bound::ways_zero))]
fn last_way(low: u8, high: u8, empty: usize) -> u128
    ensures { (u : ℕ) → result ≡ ways low high u 0 empty }
{
    let fits = low as usize <= empty && empty <= high as usize;
    if fits { 1 } else { 0 }
}

/// The ways with an image next, and those with an empty place next.
#[tactic(auto, using(crate::proofs::Bound::small_product))]
fn more_ways(unused: usize, image: u128, empty: u128) -> u128
    requires unused { unused ≤ MOST }
    requires image { image ≤ (MOST + 1) ^ MOST }
    requires empty { empty ≤ (MOST + 1) ^ MOST }
    ensures { result ≡ unused * image + empty }
{
    unused as u128 * image + empty
}

/// The ways to fill `left` places with `free` unused images, after `empty` empty places.
#[tactic(auto, using(crate::proofs::Bound::ways_fit, crate::proofs::Bound::ways_next))]
pub(crate) fn ways_of(low: u8, high: u8, free: u8, left: u8, empty: u8) -> u128
    requires free { free ≤ MOST }
    requires left { left ≤ MOST }
    requires empty { empty ≤ MOST }
    ensures { result ≡ ways low high free left empty }
{
    let mut row = [0u128; MOST + 2];
    for start in 0..left as usize + 1 {
        row[start] = last_way(low, high, empty as usize + start);
    }
    for m in 0..left as usize {
        for k in 0..left as usize - m {
            let unused = (free as usize + k + m + 1).saturating_sub(left as usize);
            row[k] = more_ways(unused, row[k], row[k + 1]);
        }
    }
    row[0]
}

impl Space {
    /// How many lists the space has.
    #[tactic(auto, using(crate::proofs::Kept::total_is))]
    pub fn total(&self) -> u128
        requires images { self.now.images ≤ MOST }
        requires members { self.now.members ≤ MOST }
        ensures { result ≡ length (lists_of self.now) }
    {
        ways_of(self.low, self.high, self.images, self.members, 0)
    }

    /// How many lists of the space begin with the prefix. None do where it has more places than
    /// `members`, an image twice, or an image that the space does not have.
    #[tactic(auto, using(crate::proofs::Completions::none_longer, crate::proofs::Completions::none_unknown, crate::proofs::Completions::none_twice, crate::proofs::Completions::completed))]
    pub fn completions(&self, prefix: &Slots) -> u128
        requires images { self.now.images ≤ MOST }
        requires members { self.now.members ≤ MOST }
        ensures { result ≡ length (filter (begins prefix.now.items) (lists_of self.now)) }
    {
        let places = prefix.as_slice();
        let count = places.len();
        if count > self.members as usize
            || !all_images(places, self.images)
            || !all_different(places)
        {
            return 0;
        }
        let empty = count_empty(places);
        let free = (self.images as usize).saturating_sub(count - empty);
        let left = self.members as usize - count;
        ways_of(self.low, self.high, free as u8, left as u8, empty as u8)
    }
}
