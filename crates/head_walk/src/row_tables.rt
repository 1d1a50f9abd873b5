//! What a walk keeps of each offset: tables of rows, and rows.
ghost use Rattle.std.specs.Prelude.{◌≡◌, ◌==◌, ◌+◌, ◌*◌, ◌<◌, ◌≤◌, ◌^◌, ◌||◌, All, Contains, IfErr, IfOk, IfSome, IsSome, ℕ, List, None, OnOk, Some, false, length, min, position, slice_get, slice_index, true};
ghost use Rattle.std.specs.Option.{option_map};
ghost use Rattle.outside.specs.Attached.{told_all};
ghost use Rattle.outside.specs.Seen.{OnlyReads};
ghost use Rattle.row_samples.specs.Rows.{most_kept as most_rows_kept, AreImageRows, EndsSamples};
ghost use Rattle.prune_filters.specs.Early.{AreEarlyTables, HasEarlyTable};
ghost use Rattle.prune_filters.specs.Paces.{pace_at, pace_of, paces_of};
ghost use Rattle.prune_filters.specs.Rows.{needs_samples as head_needs_samples, needs_table as head_needs_table};
ghost use Rattle.search_plan.specs.Plans.{IsPlan, AgreeWith};
ghost use Rattle.head_walk.specs.Counts.{asks_samples, asks_tables as plan_asks_tables, offset_reads};
ghost use Rattle.head_walk.specs.Faults.{EndsTest};
ghost use Rattle.head_walk.specs.Walk.{has_entry, HasTables, IsHeadOf, IsKept, left_after, left_reads, needs_entry, Spends};

use crate::asking::asks_tables;
use crate::parts::WalkFault;
use outside::{Images, ListOf};
use prune_filters::{EarlyTable, most_rows, needs_samples, needs_table};
use raid_params::Head;
use relation_prefix::SampledRows;
use row_samples::{RowSampler, SampleFault, read_rows};
use search_plan::Plan;
use set_product::HeadSets;
use std::alloc::Global;

/// What is kept of an offset.
#[derive(Drop)]
pub struct OffsetTables {
    /// The offset.
    pub offset: u64,
    /// The tables of rows, one for each delay of each chunk of the plan, in their order; none where no head of the plan needs one.
    pub tables: Vec<EarlyTable>,
    /// Some rows, with what they say of how the images depend on one another.
    pub rows: SampledRows,
}

/// What is kept so far.
pub type KeptTables = ListOf<OffsetTables>;

/// The place of what is kept of an offset, if something is.
fn kept_place(kept: &[OffsetTables], offset: u64) -> Option<usize>
    ensures { result ≡ position (λ one. one.offset == offset) kept.now }
{
    kept.iter().position(|one| one.offset == offset)
}

/// Whether something is kept of an offset.
pub(crate) fn is_kept(kept: &KeptTables, offset: u64) -> bool
    ensures { result ≡ has_entry offset kept.now }
{
    kept.as_slice().iter().any(|one| one.offset == offset)
}

/// The place of a number among some.
fn number_place(numbers: &[u64], number: u64) -> usize
    requires { Contains numbers.now number }
    ensures within { result < length numbers.now }
    ensures is { slice_index numbers.now result ≡ number }
{
    match numbers.iter().position(|one| *one == number) {
        Some(place) => place,
        None => unreachable!(),
    }
}

/// The place of the table for a head among those for each delay of each chunk of the plan.
fn pace_place(plan: &Plan, head: &Head) -> usize
    requires chunk { Contains plan.now.bounds.chunks.items head.now.chunk }
    requires delay { Contains plan.now.bounds.delays.items head.now.delay }
    ensures within { result < length (paces_of plan.now) }
    ensures is { pace_at (paces_of plan.now) result ≡ pace_of head.now }
{
    let chunk = number_place(&plan.bounds.chunks, head.chunk);
    let delay = number_place(&plan.bounds.delays, head.delay);
    chunk * plan.bounds.delays.len() + delay
}

/// Keeps of the offset of a head what it needs, if it needs something: tables of rows for all chunks and delays of the plan
/// where some head of the plan needs one, and rows. Each image is read once for an offset.
pub(crate) fn keep_needed<I: Images>(
    alloc: Global,
    images: &mut I,
    plan: &Plan,
    sets: &HeadSets,
    kept: &mut KeptTables,
) -> Result<(), WalkFault>
    requires plan { IsPlan plan.now }
    requires lengths { AgreeWith plan.now (I.seen images.old).attached }
    requires head { IsHeadOf plan.now sets.now }
    requires begins { sets.now.head.offset ≤ plan.now.end }
    requires kept { All (IsKept (told_all (I.seen images.old).attached) plan.now) kept.old }
    ensures has { OnOk result (needs_entry plan.now sets.now.head ≡ true → has_entry sets.now.head.offset kept.new ≡ true) }
    ensures kept { All (IsKept (told_all (I.seen images.old).attached) plan.now) kept.new }
    ensures quiet { OnOk result ((I.seen images.new).faults ≡ (I.seen images.old).faults) }
    ensures ends { IfErr result (EndsTest (I.seen images.old) (I.seen images.new)) }
    ensures reads { Spends (left_reads plan.now kept.old) (left_after plan.now kept.new result) (I.seen images.old) (I.seen images.new) 0 }
{
    let offset = sets.head.offset;
    if !needs_table(plan, &sets.head) && !needs_samples(plan, &sets.head) {
        return Ok(());
    }
    if is_kept(kept, offset) {
        return Ok(());
    }
    let entry = entry_of(alloc, images, plan, offset)?;
    kept.push(entry)?;
    Ok(())
}

/// What is to be kept of an offset: tables of rows where some head of the plan needs one, with some of the rows that are read
/// for them, and rows alone where they are asked for some head.
fn entry_of<I: Images>(
    alloc: Global,
    images: &mut I,
    plan: &Plan,
    offset: u64,
) -> Result<OffsetTables, WalkFault>
    requires plan { IsPlan plan.now }
    requires lengths { AgreeWith plan.now (I.seen images.old).attached }
    requires asks { (plan_asks_tables plan.now || asks_samples plan.now) ≡ true }
    requires near { offset < 2 ^ 55 }
    requires begins { offset ≤ plan.now.end }
    ensures offset { IfOk result (λ entry. entry.offset ≡ offset) }
    ensures kept { IfOk result (IsKept (told_all (I.seen images.old).attached) plan.now) }
    ensures quiet { IfOk result (λ entry. (I.seen images.new).faults ≡ (I.seen images.old).faults) }
    ensures ends { IfErr result (EndsTest (I.seen images.old) (I.seen images.new)) }
    ensures reads { OnlyReads (I.seen images.old) (I.seen images.new) (offset_reads plan.now offset) }
{
    let chunks = plan.bounds.chunks.as_slice();
    if !asks_tables(plan) {
        let tested = most_rows(plan, chunks, offset);
        let rows = read_samples(alloc, images, plan, tested, offset)?;
        return Ok(OffsetTables {
            offset,
            tables: Vec::new(alloc),
            rows,
        });
    }
    tables_of(alloc, images, plan, offset)
}

/// What is to be kept of an offset where some head of the plan needs a table of rows.
fn tables_of<I: Images>(
    alloc: Global,
    images: &mut I,
    plan: &Plan,
    offset: u64,
) -> Result<OffsetTables, WalkFault>
    requires plan { IsPlan plan.now }
    requires lengths { AgreeWith plan.now (I.seen images.old).attached }
    requires asks { plan_asks_tables plan.now ≡ true }
    requires near { offset < 2 ^ 55 }
    requires begins { offset ≤ plan.now.end }
    ensures offset { IfOk result (λ entry. entry.offset ≡ offset) }
    ensures kept { IfOk result (IsKept (told_all (I.seen images.old).attached) plan.now) }
    ensures quiet { IfOk result (λ entry. (I.seen images.new).faults ≡ (I.seen images.old).faults) }
    ensures ends { IfErr result (EndsTest (I.seen images.old) (I.seen images.new)) }
    ensures reads { OnlyReads (I.seen images.old) (I.seen images.new) (offset_reads plan.now offset) }
{
    let chunks = plan.bounds.chunks.as_slice();
    let count = plan.lengths.len();
    let tested = most_rows(plan, chunks, offset);
    let mut sampler = RowSampler::new(alloc, count, tested, plan.limits.badrows)?;
    let tables = EarlyTable::build_each(alloc, images, plan, offset, &mut sampler)?;
    Ok(OffsetTables {
        offset,
        tables,
        rows: sampler.finish(),
    })
}

/// Some of the first `tested` rows of sectors of the images of a plan from an offset on.
fn read_samples<I: Images>(
    alloc: Global,
    images: &mut I,
    plan: &Plan,
    tested: u64,
    offset: u64,
) -> Result<SampledRows, SampleFault>
    requires plan { IsPlan plan.now }
    requires images { AgreeWith plan.now (I.seen images.old).attached }
    requires within { offset + tested ≤ plan.now.end }
    ensures images { IfOk result (λ rows. rows.images ≡ length plan.now.lengths.items) }
    ensures rows { IfOk result (λ rows. IfSome (told_all (I.seen images.old).attached)
        (λ bytes. AreImageRows bytes (length plan.now.lengths.items) offset rows.list)) }
    ensures reads { OnlyReads (I.seen images.old) (I.seen images.new)
        (length plan.now.lengths.items * min (8 * most_rows_kept plan.now.limits.badrows) tested) }
    ensures ends { IfErr result (EndsSamples (I.seen images.old) (I.seen images.new)) }
    ensures stays { OnOk result ((I.seen images.new).faults ≡ (I.seen images.old).faults) }
{
    let scope = plan.scope();
    read_rows(alloc, images, &scope, tested, offset)
}

/// What is kept of an offset.
pub(crate) fn entry_at(kept: &KeptTables, offset: u64) -> &OffsetTables
    requires { has_entry offset kept.now ≡ true }
    ensures { (place : ℕ) × (slice_get kept.now place ≡ Some result.now) × (result.now.offset ≡ offset) }
{
    match kept_place(kept.as_slice(), offset) {
        Some(place) => &kept.as_slice()[place],
        None => unreachable!(),
    }
}

/// The table of rows of a head, if it needs one.
pub(crate) fn table_for<'a>(
    entry: &'a OffsetTables,
    plan: &Plan,
    sets: &HeadSets,
) -> Option<&'a EarlyTable>
    requires head { IsHeadOf plan.now sets.now }
    requires long { HasTables plan.now entry.now }
    requires offset { entry.now.offset ≡ sets.now.head.offset }
    ensures some { head_needs_table plan.now sets.now.head ≡ true → IsSome result }
    ensures table { (bytes : List (List ℕ)) → (plan_asks_tables plan.now ≡ true → AreEarlyTables bytes plan.now (paces_of plan.now) entry.now.offset entry.now.tables.items) →
        HasEarlyTable bytes plan.now sets.now.head (option_map (λ table. table.now) result) }
{
    if !needs_table(plan, &sets.head) {
        return None;
    }
    let place = pace_place(plan, &sets.head);
    let tables: &[EarlyTable] = &entry.tables;
    Some(&tables[place])
}

/// The rows for a head, if they are asked for it.
pub(crate) fn rows_for<'a>(
    entry: &'a OffsetTables,
    plan: &Plan,
    head: &Head,
) -> Option<&'a SampledRows>
    ensures some { head_needs_samples plan.now head.now ≡ true → IsSome result }
    ensures none { head_needs_samples plan.now head.now ≡ false → result ≡ None }
    ensures is { IfSome result (λ rows. rows.now ≡ entry.now.rows) }
{
    if needs_samples(plan, head) {
        Some(&entry.rows)
    } else {
        None
    }
}
