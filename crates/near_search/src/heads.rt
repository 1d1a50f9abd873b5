//! The heads of a search, each with its slot lists and its ranks.
ghost use Rattle.std.specs.Prelude.{◌≡◌, ◌<◌, ◌≤◌, ◌+◌, ◌*◌, ◌^◌, MatchOption, Some, length, min, slice_get};
ghost use Rattle.raid_params.specs.declared.limits.TheConstants.{MOST};
ghost use Rattle.near_mirror.specs.declared.types.NearHead.{NearHead as NearHeadOf};
ghost use Rattle.near_search.specs.Asks.{IsNearAsk};
ghost use Rattle.near_search.specs.Product.{layout_heads, near_heads, near_space as near_space_of, near_total, set_count};

use crate::ask::NearAsk;
use near_mirror::{CopyLayout, NearHead};
use slot_math::Space;

/// Where the count of sets stops: of as many or more none is ranked.
const COUNT_END: u128 = 1 << 64;

/// The parameter sets of one head: those of the slot lists of `space`, in their order. They stand at the ranks from `first` on.
#[derive(Clone, Copy)]
pub struct NearSets {
    /// What the sets have in common.
    pub head: NearHead,
    /// Their slot lists.
    pub space: Space,
    /// The rank of the first of them, or of the next set where there is none.
    pub first: u64,
    /// How many there are.
    pub count: u64,
}

/// The number at a place of a list.
#[tactic(auto, using(std::proofs::lemmas::Option::slice_get_read))]
fn number_at<T: Copy>(numbers: &[T], place: usize) -> T
    requires { place < length numbers.now }
    ensures { slice_get numbers.now place ≡ Some result }
{
    numbers[place]
}

impl NearAsk {
    /// How many heads a layout has.
    fn layout_count(&self) -> usize
        ensures value { result ≡ length self.now.members.items * (length self.now.chunks.items * length self.now.offsets.items) }
        ensures few { result ≤ 23 * (16 * 64) }
    {
        self.members.len() * (self.chunks.len() * self.offsets.len())
    }

    /// How many heads there are.
    pub(crate) fn head_count(&self) -> usize
        ensures { result ≡ length (near_heads self.now) }
    {
        self.layouts.len() * self.layout_count()
    }

    /// The head of this place.
    pub(crate) fn head_at(&self, place: usize) -> NearHead
        requires { place < length (near_heads self.now) }
        ensures { slice_get (near_heads self.now) place ≡ Some result }
    {
        let layout_count = self.layout_count();
        let layout = number_at(&self.layouts, place / layout_count);
        self.head_of(layout, place % layout_count)
    }

    /// The head of this place among those of a layout.
    fn head_of(&self, layout: CopyLayout, place: usize) -> NearHead
        requires { place < length (layout_heads self.now layout) }
        ensures { slice_get (layout_heads self.now layout) place ≡ Some result }
    {
        let offsets = self.offsets.len();
        let pairs = self.chunks.len() * offsets;
        NearHead {
            members: number_at(&self.members, place / pairs),
            chunk: number_at(&self.chunks, place % pairs / offsets),
            offset: number_at(&self.offsets, place % pairs % offsets),
            layout,
        }
    }

    /// The slot lists of a head over so many images.
    pub(crate) fn space(&self, images: u8, head: &NearHead) -> Space
        requires foreign { self.now.foreign ≤ MOST }
        requires members { head.now.members ≤ MOST }
        ensures { result ≡ near_space_of images self.now head.now }
    {
        let members = head.members;
        let held = self.foreign + members;
        if head.layout.copies <= members && images <= held {
            Space {
                images,
                members,
                low: 0,
                high: self.missing.min(held - images),
            }
        } else {
            Space {
                images,
                members,
                low: 1,
                high: 0,
            }
        }
    }

    /// How many sets the head of this place has.
    pub(crate) fn count_at(&self, images: u8, place: usize) -> u128
        requires ask { IsNearAsk self.now }
        requires images { images ≤ MOST }
        requires place { place < length (near_heads self.now) }
        ensures { (head : NearHeadOf) → slice_get (near_heads self.now) place ≡ Some head → result ≡ set_count images self.now head }
    {
        self.space(images, &self.head_at(place)).total()
    }

    /// How many sets there are over so many images. The count stops at `COUNT_END`.
    fn count_sets(&self, images: u8) -> u128
        requires ask { IsNearAsk self.now }
        requires images { images ≤ MOST }
        ensures { result ≡ min (near_total images self.now) (2 ^ 64) }
    {
        let mut sum = 0u128;
        for place in 0..self.head_count() {
            sum = sum
                .saturating_add(self.count_at(images, place))
                .min(COUNT_END);
        }
        sum
    }

    /// How many sets there are over so many images, or None where they are 2 to the power 64 or more.
    pub(crate) fn total(&self, images: u8) -> Option<u64>
        requires ask { IsNearAsk self.now }
        requires images { images ≤ MOST }
        ensures { MatchOption result (2 ^ 64 ≤ near_total images self.now) (λ total. total ≡ near_total images self.now) }
    {
        u64::try_from(self.count_sets(images)).ok()
    }
}
