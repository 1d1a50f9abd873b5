//! In how many of some rows of sectors the images differ.
ghost use Rattle.std.specs.Prelude.{◌≡◌, ◌+◌, ◌-◌, ◌*◌, ◌<◌, ◌≤◌, ◌^◌, ℕ, List, IsTrue, min};
ghost use Rattle.std.specs.List.{range_with_len, sum_by};
ghost use Rattle.raid_params.specs.Validity.{is_valid_head};
ghost use Rattle.raid_params.specs.declared.limits.TheConstants.{MOST};
ghost use Rattle.slot_math.specs.Ways.{AllImages};
ghost use Rattle.member_regions.specs.declared.regions.TheConstants.{BLOCK};
ghost use Rattle.xor_tables.specs.Rows.{on_q as image_on_q};
ghost use Rattle.xor_tables.specs.Xors.{beside_q as beside_q_of, broken_in, AreFew, AreSumsOf, CountRows, IsSumOf};

use crate::row_counts::{RowCounts, count_row, one_if};
use member_regions::{BLOCK, ImageSum};
use raid_layouts::q_slot;
use raid_params::{Head, Level, MOST};
use std::marker::Model;

/// In how many of some rows of sectors images differ.
///
/// Contracts see it as a `RowTable`.
#[derive(Drop)]
pub(crate) struct RowTally {
    /// The rows in which the exclusive or of all images is not zero.
    pub(crate) all: u64,
    /// Those in which that of all images but one is not, by the row's turn among as many turns as there are images,
    /// and by the one.
    pub(crate) beside: [RowCounts; MOST],
}

impl Model for RowTally {
    ghost use Rattle.std.specs.Prelude.{◌≡◌, length};
    ghost use Rattle.raid_params.specs.declared.limits.TheConstants.{MOST};
    ghost use Rattle.xor_tables.specs.Xors.{RowTable};

    ghost Value = { RowTable };

    ghost view = { λ tally. record { all = tally.all; beside = tally.beside } };

    ghost invariant = { λ tally. length tally.beside ≡ MOST };
}

impl RowTally {
    /// The tally of no rows.
    pub(crate) fn new() -> RowTally
        ensures counts { (images : List (List ℕ)) (count span offset : ℕ) → CountRows images count span offset 0 result }
        ensures few { AreFew 0 result }
    {
        RowTally {
            all: 0,
            beside: [[0; MOST]; MOST],
        }
    }

    /// Counts the first `rows` of some rows, of which the first is row `first`, where a turn has `span` rows.
    pub(crate) fn add_rows(
        &mut self,
        sums: &[ImageSum; BLOCK],
        images: usize,
        span: u64,
        first: u64,
        rows: usize,
    )
        requires some { 0 < images }
        requires images { images ≤ MOST }
        requires span { 0 < span }
        requires count { rows ≤ BLOCK }
        requires rows { first + rows < 2 ^ 55 }
        requires few { AreFew first self.old }
        ensures counts { (bytes : List (List ℕ)) (offset : ℕ) → AreSumsOf bytes images (offset + first) rows sums.now →
            CountRows bytes images span offset first self.old → CountRows bytes images span offset (first + rows) self.new }
        ensures few { AreFew (first + rows) self.new }
    {
        for j in 0..rows {
            self.add_row(&sums[j], images, span, first + j as u64);
        }
    }

    /// Counts row `t`, of which this is the sum.
    fn add_row(&mut self, sum: &ImageSum, images: usize, span: u64, t: u64)
        requires some { 0 < images }
        requires images { images ≤ MOST }
        requires span { 0 < span }
        requires row { t < 2 ^ 55 }
        requires few { AreFew t self.old }
        ensures counts { (bytes : List (List ℕ)) (offset : ℕ) → IsSumOf bytes images (offset + t) sum.now →
            CountRows bytes images span offset t self.old → CountRows bytes images span offset (t + 1) self.new }
        ensures few { AreFew (t + 1) self.new }
    {
        let turn = (t / span) as usize % images;
        self.all += one_if(!sum.is_zero);
        self.beside[turn] = count_row(&self.beside[turn], sum, images);
    }

    /// How many of the rows are known to break the equation of P where the slots of a head begin with a prefix, up
    /// to the largest number.
    pub(crate) fn broken_rows(&self, head: &Head, prefix: &[Option<u8>]) -> u64
        requires head { IsTrue (is_valid_head head.now) }
        requires images { AllImages MOST prefix.now }
        ensures { result ≡ broken_in self.now head.now.level head.now prefix.now }
    {
        match head.level {
            Level::Raid0 => 0,
            Level::Raid5 => self.all,
            Level::Raid6 => self.sum_beside_q(head, prefix),
        }
    }

    /// The rows in which the prefix puts an image on Q and the others differ, up to the largest number: then there
    /// are more than any plan allows.
    fn sum_beside_q(&self, head: &Head, prefix: &[Option<u8>]) -> u64
        requires head { IsTrue (is_valid_head head.now) }
        requires images { AllImages MOST prefix.now }
        ensures { result ≡ min (sum_by (beside_q_of self.now head.now prefix.now)
            (range_with_len 0 head.now.members)) (2 ^ 64 - 1) }
    {
        let mut sum = 0u64;
        for turn in 0..head.members {
            sum = sum.saturating_add(self.beside_q(head, prefix, turn));
        }
        sum
    }

    /// The rows of which that is so among those of a turn, counted round the members.
    fn beside_q(&self, head: &Head, prefix: &[Option<u8>], turn: u8) -> u64
        requires head { IsTrue (is_valid_head head.now) }
        requires images { AllImages MOST prefix.now }
        requires turn { turn < head.now.members }
        ensures { result ≡ beside_q_of self.now head.now prefix.now turn }
    {
        match on_q(head, prefix, first_row(head, turn)) {
            Some(image) => self.beside[turn as usize][image as usize],
            None => 0,
        }
    }
}

/// The first row of chunks of a turn.
#[tactic(auto, using(crate::proofs::Paces::short_delay))]
pub(crate) fn first_row(head: &Head, turn: u8) -> u64
    requires { IsTrue (is_valid_head head.now) }
    ensures { result ≡ turn * head.now.delay }
{
    u64::from(turn) * head.delay
}

/// The image that the prefix puts on Q in a row of chunks, if it puts one there.
fn on_q(head: &Head, prefix: &[Option<u8>], row: u64) -> Option<u8>
    requires head { IsTrue (is_valid_head head.now) }
    ensures { result ≡ image_on_q head.now prefix.now row }
{
    let slot = q_slot(head, row)? as usize;
    if slot < prefix.len() {
        prefix[slot]
    } else {
        None
    }
}
