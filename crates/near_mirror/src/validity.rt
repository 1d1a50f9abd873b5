//! The first rule that a parameter set breaks.
ghost use Rattle.std.specs.Prelude.{◌≡◌, ◌≤◌, ◌<◌, ◌^◌, MatchResult, OnOk, Some, None, IsTrue, length, nat_eq};
ghost use Rattle.std.specs.List.{find, range_with_len};
ghost use Rattle.raid_params.specs.Validity.{first_absent as first_absent_of, first_repeat as first_repeat_of};
ghost use Rattle.near_mirror.specs.Copies.{near_chunks};
ghost use Rattle.near_mirror.specs.Heads.{are_copies as are_copies_of, are_members as are_members_of, has_members as has_members_of, is_near2 as is_near2_of, is_valid_near};
ghost use Rattle.near_mirror.specs.Validity.{bare_rule as bare_rule_of, first_fault, rowless_rule as rowless_rule_of, shape_fault, slots_fault};
ghost use Rattle.near_mirror.specs.Volume.{IsMirror, first_bare as first_bare_of, is_bare as is_bare_of};

use crate::types::{CopyLayout, Copying, NearRule, NearSet};
use raid_params::{MOST, count_empty, first_absent, first_repeat, is_chunk};

/// The fewest copies of each chunk, and so the fewest members.
pub const FEWEST_COPIES: u8 = 2;

/// The most copies of each chunk.
pub const MOST_COPIES: u8 = 4;

impl NearSet {
    /// The first broken rule of the set over `images` images, whose members end before the image sector
    /// `end`. The rules, in their order: the number of members, the chunk, the images that the slots name,
    /// that no image stands twice, that each chunk has a copy, and that there is a chunk.
    #[tactic(auto, using(crate::proofs::Homes::mirror_of, crate::proofs::Homes::shaped_head))]
    pub fn validate(&self, images: u8, end: u64) -> Result<(), NearRule>
        ensures rule { MatchResult result (λ _. first_fault self.now images end ≡ None) (λ rule. first_fault self.now images end ≡ Some rule) }
        ensures mirror { OnOk result (IsMirror self.now end) }
    {
        match self.broken_shape(images) {
            Some(rule) => Err(rule),
            None => match self.first_bare(end) {
                Some(chunk) => Err(self.bare_rule(chunk)),
                None if self.has_no_chunk(end) => Err(self.rowless_rule()),
                None => Ok(()),
            },
        }
    }

    /// The first broken rule on the shape.
    fn broken_shape(&self, images: u8) -> Option<NearRule>
        ensures { result ≡ shape_fault self.now images }
    {
        let head = &self.head;
        let slots = self.slots.as_slice();
        if !are_members(head.layout, slots.len()) || head.members as usize != slots.len() {
            Some(NearRule::Members(head.members))
        } else if !is_chunk(head.chunk) {
            Some(NearRule::Chunk(head.chunk))
        } else {
            broken_slots(slots, images)
        }
    }

    /// The first chunk of the volume of which no slot holds an image.
    #[tactic(auto, using(crate::proofs::Homes::first_tell, crate::proofs::Heads::few_members))]
    fn first_bare(&self, end: u64) -> Option<u64>
        requires { IsTrue (is_valid_near self.now.head) }
        ensures { result ≡ first_bare_of self.now end }
    {
        self.bare_before(self.head.first_chunks(end))
    }

    /// The first of so many chunks of which no slot holds an image.
    fn bare_before(&self, chunks: u64) -> Option<u64>
        requires head { IsTrue (is_valid_near self.now.head) }
        requires chunks { chunks < 2 ^ 60 }
        ensures { result ≡ find (is_bare_of self.now) (range_with_len 0 chunks) }
    {
        (0..chunks).find(|chunk: &u64| self.is_bare(*chunk))
    }

    /// Whether no slot of a chunk holds an image.
    fn is_bare(&self, chunk: u64) -> bool
        requires head { IsTrue (is_valid_near self.now.head) }
        requires chunk { chunk < 2 ^ 60 }
        ensures { result ≡ is_bare_of self.now chunk }
    {
        self.held_copy(chunk).is_none()
    }

    /// Whether the volume has no chunk.
    #[tactic(auto, using(crate::proofs::Homes::none_told))]
    fn has_no_chunk(&self, end: u64) -> bool
        requires { IsTrue (is_valid_near self.now.head) }
        ensures { result ≡ nat_eq (near_chunks self.now.head end) 0 }
    {
        self.head.first_chunks(end) == 0
    }

    /// The rule that a chunk without a copy breaks.
    fn bare_rule(&self, chunk: u64) -> NearRule
        requires { length self.now.slots.items ≤ MOST }
        ensures { result ≡ bare_rule_of self.now chunk }
    {
        if is_near2(self.head.layout) {
            NearRule::Missing(count_empty(&self.slots) as u8)
        } else {
            NearRule::NoCopy(chunk)
        }
    }

    /// The rule that a volume without a chunk breaks.
    fn rowless_rule(&self) -> NearRule
        requires { length self.now.slots.items ≤ MOST }
        ensures { result ≡ rowless_rule_of self.now }
    {
        let empty = count_empty(&self.slots) as u8;
        if is_near2(self.head.layout) && empty >= 2 {
            NearRule::Missing(empty)
        } else {
            NearRule::NoRow(self.head.offset)
        }
    }
}

/// Whether the layout is that of two near copies.
fn is_near2(layout: CopyLayout) -> bool
    ensures { result ≡ is_near2_of layout }
{
    match layout.copying {
        Copying::Near => layout.copies == 2,
        _ => false,
    }
}

/// Whether there are mirrors of this layout of so many members: from `FEWEST_COPIES` to `MOST_COPIES` copies, no fewer
/// members than copies, and at most `MOST`.
pub(crate) fn are_members(layout: CopyLayout, members: usize) -> bool
    ensures { result ≡ are_members_of layout members }
{
    let copies = usize::from(layout.copies);
    are_copies(layout.copies) && copies <= members && has_members(members)
}

/// Whether a chunk has so many copies: from `FEWEST_COPIES` to `MOST_COPIES`.
pub(crate) fn are_copies(copies: u8) -> bool
    ensures { result ≡ are_copies_of copies }
{
    FEWEST_COPIES <= copies && copies <= MOST_COPIES
}

/// Whether there are mirrors of so many members.
fn has_members(members: usize) -> bool
    ensures { result ≡ has_members_of members }
{
    usize::from(FEWEST_COPIES) <= members && members <= MOST
}

/// The first broken rule on what the slots hold.
fn broken_slots(slots: &[Option<u8>], images: u8) -> Option<NearRule>
    requires { length slots.now ≤ MOST }
    ensures { result ≡ slots_fault (first_absent_of images slots.now) (first_repeat_of slots.now) }
{
    match (first_absent(slots, images), first_repeat(slots)) {
        (Some(image), _) => Some(NearRule::Image(image)),
        (None, Some(image)) => Some(NearRule::Repeat(image)),
        (None, None) => None,
    }
}
