//! Where a walk stands.
ghost use Rattle.std.specs.Prelude.{◌≡◌, ◌<◌, ◌++◌, ◌∷◌, [], true, Some, None, length, MatchOption};
ghost use Rattle.raid_params.specs.Slots.{is_distinct};
ghost use Rattle.slot_math.specs.Ways.{AllImages, IsPlace};
ghost use Rattle.candidate_enum.specs.Kept.{IsKept};

use raid_params::{MOST, Slots};

/// A prefix, the rank of the first list that begins with it, and what is kept of its places.
#[derive(Drop)]
pub struct Walk {
    /// The prefix.
    pub slots: Slots,
    /// The rank of the first list that begins with it.
    pub rank: u128,
    /// The images that are not in it, image `i` by bit `i`.
    pub free: u32,
    /// How many of its places are empty.
    pub empty: usize,
    /// Whether the walk is not at its end.
    pub going: bool,
}

impl Walk {
    /// The empty prefix.
    pub(crate) fn new(going: bool) -> Walk
        ensures slots { result.slots.items ≡ [] }
        ensures rank { result.rank ≡ 0 }
        ensures going { result.going ≡ going }
        ensures kept { IsKept result.slots.items result.free result.empty }
    {
        Walk {
            slots: Slots::new(),
            rank: 0,
            free: u32::MAX,
            empty: 0,
            going,
        }
    }

    /// Fills one place more with an image.
    #[inline]
    pub(crate) fn push_image(&mut self, image: u8)
        requires room { length self.old.slots.items < MOST }
        requires image { image < MOST }
        requires kept { IsKept self.old.slots.items self.old.free self.old.empty }
        ensures slots { self.new.slots.items ≡ self.old.slots.items ++ Some image ∷ [] }
        ensures rank { self.new.rank ≡ self.old.rank }
        ensures going { self.new.going ≡ self.old.going }
        ensures kept { IsKept self.new.slots.items self.new.free self.new.empty }
    {
        self.free &= !(1 << image);
        self.slots.push(Some(image));
    }

    /// Leaves one place more empty.
    #[inline]
    pub(crate) fn push_empty(&mut self)
        requires room { length self.old.slots.items < MOST }
        requires kept { IsKept self.old.slots.items self.old.free self.old.empty }
        ensures slots { self.new.slots.items ≡ self.old.slots.items ++ None ∷ [] }
        ensures rank { self.new.rank ≡ self.old.rank }
        ensures going { self.new.going ≡ self.old.going }
        ensures kept { IsKept self.new.slots.items self.new.free self.new.empty }
    {
        self.empty += 1;
        self.slots.push(None);
    }

    /// Keeps no more of a place that was taken away, which held this.
    #[inline]
    fn forget(&mut self, last: Option<u8>)
        requires place { IsPlace MOST last }
        requires distinct { is_distinct (self.old.slots.items ++ last ∷ []) ≡ true }
        requires kept { IsKept (self.old.slots.items ++ last ∷ []) self.old.free self.old.empty }
        ensures slots { self.new.slots.items ≡ self.old.slots.items }
        ensures rank { self.new.rank ≡ self.old.rank }
        ensures going { self.new.going ≡ self.old.going }
        ensures kept { IsKept self.new.slots.items self.new.free self.new.empty }
    {
        match last {
            Some(image) => self.free |= 1 << image,
            None => self.empty -= 1,
        }
    }

    /// Takes the last place away, and gives what it held.
    #[inline]
    pub(crate) fn pop(&mut self) -> Option<Option<u8>>
        requires images { AllImages MOST self.old.slots.items }
        requires distinct { is_distinct self.old.slots.items ≡ true }
        requires kept { IsKept self.old.slots.items self.old.free self.old.empty }
        ensures slots { MatchOption result ((self.old.slots.items ≡ []) × (self.new.slots.items ≡ [])) (λ last. self.old.slots.items ≡ self.new.slots.items ++ last ∷ []) }
        ensures rank { self.new.rank ≡ self.old.rank }
        ensures going { self.new.going ≡ self.old.going }
        ensures kept { IsKept self.new.slots.items self.new.free self.new.empty }
    {
        match self.slots.pop() {
            Some(last) => {
                self.forget(last);
                Some(last)
            }
            None => None,
        }
    }
}
