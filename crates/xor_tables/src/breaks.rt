//! How many rows break, by the images that slots hold.
ghost use Rattle.std.specs.Prelude.{◌≡◌, ◌+◌, ◌-◌, ◌<◌, ◌≤◌, ◌^◌, ℕ, List, Option, IsSome, IsTrue, [], length, min, slice_index, slice_index_or, true};
ghost use Rattle.std.specs.List.{range_with_len, sum_by};
ghost use Rattle.std.specs.Option.{option_map};
ghost use Rattle.raid_params.specs.Validity.{is_valid_head};
ghost use Rattle.raid_params.specs.declared.limits.TheConstants.{MOST};
ghost use Rattle.search_plan.specs.Plans.{IsPlan};
ghost use Rattle.slot_math.specs.Ways.{AllImages};
ghost use Rattle.xor_tables.specs.Heads.{broken_by, AreBrokenFrom, IsAnswer};
ghost use Rattle.xor_tables.specs.Rows.{needs_table as head_needs_table};
ghost use Rattle.xor_tables.specs.Xors.{beside_q, broken_in};

use crate::early_table::EarlyTable;
use crate::row_counts::RowCounts;
use crate::row_tally::{RowTally, first_row};
use crate::rows::needs_table;
use raid_layouts::q_slot;
use raid_params::{Head, Level, MOST};
use search_plan::Plan;

/// How many rows break.
#[derive(Drop)]
pub(crate) struct Broken {
    /// Those that break whatever the slots hold.
    pub(crate) always: u64,
    /// By slot and image, those that break where the image stands there.
    pub(crate) placed: [RowCounts; MOST],
}

/// How many rows break for a head, by the table of its pace and offset, where it needs one.
pub(crate) fn broken_rows(plan: &Plan, head: &Head, table: Option<&EarlyTable>) -> Broken
    requires plan { IsPlan plan.now }
    requires head { IsTrue (is_valid_head head.now) }
    requires table { head_needs_table plan.now head.now ≡ true → IsSome table }
    ensures long { length result.placed ≡ MOST }
    ensures answer { IsAnswer (option_map (λ table. table.now) table.entry) plan.now head.now result.always result.placed }
{
    if !needs_table(plan, head) {
        return Broken {
            always: 0,
            placed: nowhere(),
        };
    }
    match table {
        Some(table) => table.rows.broken_for(head),
        None => unreachable!(),
    }
}

/// How many rows break where the slots begin with a prefix, up to the largest number: then there are more than any
/// plan allows. `always` break whatever the slots hold, and `placed` by slot and image, but none in the slots before
/// `first`.
pub(crate) fn count_broken(
    always: u64,
    placed: &[RowCounts; MOST],
    first: usize,
    prefix: &[Option<u8>],
) -> u64
    requires images { AllImages MOST prefix.now }
    requires short { length prefix.now ≤ MOST }
    requires first { AreBrokenFrom first placed.now }
    ensures { result ≡ min (always + broken_by placed.now prefix.now) (2 ^ 64 - 1) }
{
    let mut sum = always;
    if prefix.len() <= first {
        return sum;
    }
    for slot in first..prefix.len() {
        if let Some(image) = prefix[slot] {
            sum = sum.saturating_add(placed[slot][image as usize]);
        }
    }
    sum
}

/// The first slot in which something breaks.
pub(crate) fn first_broken(placed: &[RowCounts; MOST]) -> usize
    ensures { AreBrokenFrom result placed.now }
{
    for slot in 0..MOST {
        if !are_nothing(&placed[slot]) {
            return slot;
        }
    }
    MOST
}

/// Whether none of the counts is above 0.
fn are_nothing(counts: &RowCounts) -> bool
    ensures { result ≡ true → (i : ℕ) → i < MOST → slice_index counts.now i ≡ 0 }
{
    for image in 0..MOST {
        if counts[image] != 0 {
            return false;
        }
    }
    true
}

/// Nothing in any slot.
fn nowhere() -> [RowCounts; MOST]
    ensures long { length result ≡ MOST }
    ensures none { (slot i : ℕ) → slice_index (slice_index_or result slot []) i ≡ 0 }
{
    [[0; MOST]; MOST]
}

impl RowTally {
    /// How many of the rows are known to break the equation of P for a head: at level 5 those in which the images
    /// differ, and at level 6 those in which the others do, where one stands on Q.
    fn broken_for(&self, head: &Head) -> Broken
        requires head { IsTrue (is_valid_head head.now) }
        ensures long { length result.placed ≡ MOST }
        ensures sum { (prefix : List (Option ℕ)) → AllImages MOST prefix →
            min (result.always + broken_by result.placed prefix) (2 ^ 64 - 1) ≡ min (broken_in self.now head.now.level head.now prefix) (2 ^ 64 - 1) }
    {
        match head.level {
            Level::Raid0 => Broken {
                always: 0,
                placed: nowhere(),
            },
            Level::Raid5 => Broken {
                always: self.all,
                placed: nowhere(),
            },
            Level::Raid6 => Broken {
                always: 0,
                placed: self.placed_on_q(head),
            },
        }
    }

    /// By slot and image, the rows in which the slot holds Q and the other images differ.
    fn placed_on_q(&self, head: &Head) -> [RowCounts; MOST]
        requires head { IsTrue (is_valid_head head.now) }
        ensures long { length result ≡ MOST }
        ensures sum { (prefix : List (Option ℕ)) → AllImages MOST prefix →
            min (broken_by result prefix) (2 ^ 64 - 1) ≡ min (sum_by (beside_q self.now head.now prefix) (range_with_len 0 head.now.members)) (2 ^ 64 - 1) }
    {
        let mut placed = nowhere();
        for turn in 0..head.members {
            if let Some(slot) = q_slot(head, first_row(head, turn)) {
                let slot = slot as usize;
                placed[slot] = sums_of(&placed[slot], &self.beside[turn as usize]);
            }
        }
        placed
    }
}

/// The sum of the counts of each image, up to the largest number.
fn sums_of(counts: &RowCounts, more: &RowCounts) -> RowCounts
    ensures { (i : ℕ) → i < MOST → slice_index result i ≡ min (slice_index counts.now i + slice_index more.now i) (2 ^ 64 - 1) }
{
    let mut sums = *counts;
    for image in 0..MOST {
        sums[image] = counts[image].saturating_add(more[image]);
    }
    sums
}
