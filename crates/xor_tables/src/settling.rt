//! When a table settles what further rows could tell.
ghost use Rattle.std.specs.Prelude.{◌≡◌, ◌*◌, ◌^◌, ◌<◌, ◌≤◌, ◌⊎◌, ℕ, All, length, slice_index, slice_index_or, [], true};
ghost use Rattle.raid_params.specs.declared.limits.TheConstants.{MOST};
ghost use Rattle.search_plan.specs.Plans.{IsPlan};
ghost use Rattle.xor_tables.specs.Early.{AreKnown, IsSettled, IsSettledFor};
ghost use Rattle.xor_tables.specs.Paces.{IsPace};
ghost use Rattle.search_plan.specs.Rows.{tested_with};

use crate::early_table::EarlyTable;
use crate::pace::Pace;
use crate::row_counts::RowCounts;
use crate::row_tally::RowTally;
use raid_params::{Level, MOST};
use search_plan::{Plan, tested_rows};

/// Whether each table, with the rows before row `first`, counts all that are tested or is settled.
pub(crate) fn tables_suffice(
    tables: &[EarlyTable],
    plan: &Plan,
    paces: &[Pace],
    offset: u64,
    first: u64,
) -> bool
    requires plan { IsPlan plan.now }
    requires paces { All IsPace paces.now }
    requires tables { length tables.now ≡ length paces.now }
    ensures { result ≡ true → AreKnown plan.now paces.now offset first tables.now }
{
    for place in 0..paces.len() {
        let table = &tables[place];
        if !table.rows.suffices(plan, paces[place], offset, first) {
            return false;
        }
    }
    true
}

impl RowTally {
    /// Whether the tally, with the rows before row `first`, counts all that are tested or is settled.
    fn suffices(&self, plan: &Plan, pace: Pace, offset: u64, first: u64) -> bool
        requires plan { IsPlan plan.now }
        requires pace { IsPace pace }
        ensures { result ≡ true → (tested_with plan.now pace.chunk offset ≤ first) ⊎ IsSettled plan.now pace offset self.now }
    {
        let rows = tested_rows(plan, pace.chunk, offset);
        if rows <= first {
            return true;
        }
        self.settles_levels(plan, pace, rows)
    }

    /// Whether the tally is settled for each level of the plan, where `rows` rows are tested.
    fn settles_levels(&self, plan: &Plan, pace: Pace, rows: u64) -> bool
        requires plan { IsPlan plan.now }
        requires pace { IsPace pace }
        ensures { (offset : ℕ) → rows ≡ tested_with plan.now pace.chunk offset → result ≡ true →
            IsSettled plan.now pace offset self.now }
    {
        for level in plan.bounds.levels.as_slice() {
            if !self.settles_level(*level, plan, pace, rows) {
                return false;
            }
        }
        true
    }

    /// Whether the tally is settled for a level of the plan, where `rows` rows are tested.
    fn settles_level(&self, level: Level, plan: &Plan, pace: Pace, rows: u64) -> bool
        requires plan { IsPlan plan.now }
        requires pace { IsPace pace }
        ensures { (offset : ℕ) → rows ≡ tested_with plan.now pace.chunk offset → result ≡ true →
            IsSettledFor plan.now pace offset self.now level }
    {
        match level {
            Level::Raid0 => true,
            Level::Raid5 => plan.limits.badrows < self.all,
            Level::Raid6 => self.breaks_beside(
                plan.lengths.len(),
                plan.limits.badrows,
                pace.span(),
                rows,
            ),
        }
    }

    /// Whether more rows than `most` break beside each image, in each of the turns of `span` rows of which some is tested.
    fn breaks_beside(&self, images: usize, most: u64, span: u64, rows: u64) -> bool
        requires images { images ≤ MOST }
        requires span { span ≤ 2 ^ 25 }
        ensures { result ≡ true → (k i : ℕ) → k < images → i < images → k * span < rows →
            most < slice_index (slice_index_or self.now.beside k []) i }
    {
        for turn in 0..images {
            if (turn as u64) * span < rows && !are_above(&self.beside[turn], images, most) {
                return false;
            }
        }
        true
    }
}

/// Whether the counts of the first `images` images are above a number.
fn are_above(counts: &RowCounts, images: usize, most: u64) -> bool
    requires { images ≤ MOST }
    ensures { result ≡ true → (i : ℕ) → i < images → most < slice_index counts.now i }
{
    for image in 0..images {
        if counts[image] <= most {
            return false;
        }
    }
    true
}
