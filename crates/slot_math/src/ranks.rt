//! The list of a rank, and the rank of a list.
ghost use Rattle.std.specs.Prelude.{◌≡◌, ◌≤◌, ◌<◌, ◌+◌, ◌++◌, ◌∷◌, [], None, Some, length, filter, slice_get};
ghost use Rattle.raid_params.specs.Slots.{stands, empties};
ghost use Rattle.slot_math.specs.Space.{begins, lists_of, rank_in};
ghost use Rattle.slot_math.specs.Ways.{ends, images_before, before, is_listed, IsImageWays, IsPlace, IsStart};

use crate::counts::ways_of;
use crate::places::{all_different, all_images};
use crate::space::Space;
use raid_params::{MOST, Slots, count_empty, stands_among};

impl Space {
    /// How many lists go on from these places with one image that is not among them: as many for
    /// each such image.
    #[tactic(auto, using(crate::proofs::Fronts::image_ways_are))]
    fn image_ways(&self, prefix: &[Option<u8>]) -> u128
        requires images { self.now.images ≤ MOST }
        requires members { self.now.members ≤ MOST }
        requires short { length prefix.now < self.now.members }
        requires start { IsStart self.now prefix.now }
        ensures { IsImageWays self.now prefix.now result }
    {
        let empty = count_empty(prefix);
        let used = prefix.len() + 1 - empty;
        let free = (self.images as usize).saturating_sub(used);
        let left = self.members as usize - (prefix.len() + 1);
        ways_of(self.low, self.high, free as u8, left as u8, empty as u8)
    }

    /// How many lists go on from these places with this image, where `ways` do with an unused one.
    #[tactic(auto, using(crate::proofs::Fronts::used_image))]
    fn ways_of_image(&self, prefix: &[Option<u8>], image: u8, ways: u128) -> u128
        requires start { IsStart self.now prefix.now }
        requires image { image < self.now.images }
        requires ways { IsImageWays self.now prefix.now ways }
        ensures { result ≡ length (ends self.now (prefix.now ++ Some image ∷ [])) }
    {
        if stands_among(image, prefix) { 0 } else { ways }
    }

    /// How many lists go on from these places with an empty one.
    #[tactic(auto, using(crate::proofs::Fronts::empty_place))]
    fn empty_ways(&self, prefix: &[Option<u8>]) -> u128
        requires images { self.now.images ≤ MOST }
        requires members { self.now.members ≤ MOST }
        requires short { length prefix.now < self.now.members }
        requires start { IsStart self.now prefix.now }
        ensures { result ≡ length (ends self.now (prefix.now ++ None ∷ [])) }
    {
        let empty = count_empty(prefix);
        let free = (self.images as usize).saturating_sub(prefix.len() - empty);
        let left = self.members as usize - (prefix.len() + 1);
        ways_of(
            self.low,
            self.high,
            free as u8,
            left as u8,
            (empty + 1) as u8,
        )
    }

    /// How many lists of the space begin with the prefix and then hold this in the next place. The
    /// prefix has fewer places than `members`, and its images are different ones of the space. It
    /// is the number that `completions` gives for the longer prefix, with less work.
    #[tactic(auto, using(crate::proofs::Fronts::used_image, crate::proofs::Completions::begun_with))]
    pub fn completions_with(&self, prefix: &[Option<u8>], place: Option<u8>) -> u128
        requires images { self.now.images ≤ MOST }
        requires members { self.now.members ≤ MOST }
        requires short { length prefix.now < self.now.members }
        requires start { IsStart self.now prefix.now }
        requires place { IsPlace self.now.images place }
        ensures { result ≡ length (filter (begins (prefix.now ++ place ∷ [])) (lists_of self.now)) }
    {
        match place {
            None => self.empty_ways(prefix),
            Some(image) => {
                if stands_among(image, prefix) {
                    0
                } else {
                    self.image_ways(prefix)
                }
            }
        }
    }

    /// What stands in the next place of the list that goes on from these places and has this rank
    /// among those that do, and its rank among those that go on from there.
    #[tactic(auto, using(crate::proofs::Fronts::none_before, crate::proofs::Steps::one_more_image, crate::proofs::Steps::all_ends))]
    fn place_at(&self, prefix: &[Option<u8>], rank: u128) -> (Option<u8>, u128)
        requires images { self.now.images ≤ MOST }
        requires members { self.now.members ≤ MOST }
        requires short { length prefix.now < self.now.members }
        requires start { IsStart self.now prefix.now }
        requires rank { rank < length (ends self.now prefix.now) }
        ensures place { IsPlace self.now.images result.0 }
        ensures before { rank ≡ before self.now prefix.now result.0 + result.1 }
        ensures within { result.1 < length (ends self.now (prefix.now ++ result.0 ∷ [])) }
    {
        let unused = self.image_ways(prefix);
        let mut rest = rank;
        for image in 0..self.images {
            let ways = self.ways_of_image(prefix, image, unused);
            if rest < ways {
                return (Some(image), rest);
            }
            rest -= ways;
        }
        (None, rest)
    }

    /// The list at this position in the order of the space, counted from 0. The rank is below
    /// `total`.
    #[tactic(auto, using(crate::proofs::Fronts::goes_on_first, crate::proofs::Fronts::goes_on_more, crate::proofs::Fronts::goes_on_last, crate::proofs::Fronts::start_more, crate::proofs::Fronts::ends_of_nothing))]
    pub fn unrank(&self, rank: u128) -> Slots
        requires images { self.now.images ≤ MOST }
        requires members { self.now.members ≤ MOST }
        requires rank { rank < length (lists_of self.now) }
        ensures { slice_get (lists_of self.now) rank ≡ Some result.items }
    {
        let mut slots = Slots::new();
        let mut rest = rank;
        for _ in 0..self.members {
            let (place, next) = self.place_at(slots.as_slice(), rest);
            slots.push(place);
            rest = next;
        }
        slots
    }

    /// How many lists go on from these places with what comes before this in the next one.
    #[tactic(auto, using(crate::proofs::Fronts::none_before, crate::proofs::Steps::one_more_image, crate::proofs::Fronts::images_fit))]
    fn before(&self, prefix: &[Option<u8>], place: Option<u8>) -> u128
        requires images { self.now.images ≤ MOST }
        requires members { self.now.members ≤ MOST }
        requires short { length prefix.now < self.now.members }
        requires start { IsStart self.now prefix.now }
        requires place { IsPlace self.now.images place }
        ensures { result ≡ before self.now prefix.now place }
    {
        let unused = self.image_ways(prefix);
        let end = place.unwrap_or(self.images);
        let mut sum = 0;
        for image in 0..end {
            sum += self.ways_of_image(prefix, image, unused);
        }
        sum
    }

    /// The list is one of the space.
    fn holds(&self, list: &[Option<u8>]) -> bool
        ensures { result ≡ is_listed self.now list.now }
    {
        let empty = count_empty(list);
        list.len() == self.members as usize
            && all_images(list, self.images)
            && all_different(list)
            && self.low as usize <= empty
            && empty <= self.high as usize
    }

    /// The position of this list in the order of the space, counted from 0. None exactly where the
    /// list is not one of the space.
    #[tactic(auto, using(crate::proofs::Positions::rank_of_other, crate::proofs::Blocks::first_block, crate::proofs::Blocks::next_front, crate::proofs::Blocks::front_start, crate::proofs::Blocks::front_place, crate::proofs::Blocks::listed_long, crate::proofs::Blocks::rank_fits, crate::proofs::Blocks::rank_found))]
    pub fn rank(&self, slots: &Slots) -> Option<u128>
        requires images { self.now.images ≤ MOST }
        requires members { self.now.members ≤ MOST }
        ensures { result ≡ rank_in self.now slots.now.items }
    {
        let list = slots.as_slice();
        if !self.holds(list) {
            return None;
        }
        let mut rank = 0;
        for at in 0..list.len() {
            rank += self.before(&list[..at], list[at]);
        }
        Some(rank)
    }
}
