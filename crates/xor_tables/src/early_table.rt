//! The tables of rows of all chunks and delays of an offset, made in one reading that may end early.
ghost use Rattle.std.specs.Prelude.{◌≡◌, ◌+◌, ◌*◌, ◌<◌, ◌≤◌, ◌^◌, ℕ, List, All, IfErr, IfOk, IfSome, OnOk, length, min};
ghost use Rattle.outside.specs.Attached.{told_all};
ghost use Rattle.outside.specs.Causes.{HasCause};
ghost use Rattle.outside.specs.Seen.{OnlyReads};
ghost use Rattle.row_samples.specs.Spreads.{AreSampled, HasNone};
ghost use Rattle.member_regions.specs.Regions.{IsRoomFor};
ghost use Rattle.member_regions.specs.declared.regions.TheConstants.{BLOCK};
ghost use Rattle.search_plan.specs.Plans.{IsPlan, AgreeWith};
ghost use Rattle.xor_tables.specs.Early.{AreAllFew, AreEarlyTables, CountFirst};
ghost use Rattle.xor_tables.specs.Paces.{paces_of as paces_of_plan, span, IsPace, IsPaceOf};
ghost use Rattle.xor_tables.specs.Reading.{EndsTable};
ghost use Rattle.xor_tables.specs.Xors.{most_tested, AreFew, AreSumsOf, CountRows};
ghost use Rattle.search_plan.specs.Rows.{tested_with};
ghost use Rattle.xor_tables.specs.declared.xor_table.TableFault.TheVariants.{Memory};

use crate::most_tested::most_rows;
use crate::pace::{Pace, paces_of};
use crate::row_sums::row_sums;
use crate::row_tally::RowTally;
use crate::sampling::offer_rows;
use crate::settling::tables_suffice;
use crate::xor_table::TableFault;
use member_regions::{BLOCK, ImageSum, Regions};
use outside::{Failed, Images};
use row_samples::RowSampler;
use search_plan::{Plan, tested_rows};
use std::alloc::Global;
use std::marker::Model;

/// The sectors of each image that are read first: where images do not belong together, the first rows show it.
const FIRST_BLOCK: usize = 8;

/// In how many rows of sectors the images of a plan differ, for one chunk, one delay and one offset: of all rows that
/// are tested, or of as many of the first of them as settle what the others could tell of the plan's levels.
///
/// Contracts see it as a `RowTable`.
#[derive(Drop)]
pub struct EarlyTable {
    /// The tally of the rows that were read.
    pub(crate) rows: RowTally,
}

impl Model for EarlyTable {
    ghost use Rattle.xor_tables.specs.Xors.{RowTable};

    ghost Value = { RowTable };

    ghost view = { λ table. table.rows };
}

impl EarlyTable {
    /// Counts the rows of an offset in which the images of a plan differ, for each delay of each chunk of the plan. Each
    /// image is read at most once, in the order of its sectors, and memory is taken before the first reading. The reading
    /// ends where each table counts all rows that are tested, or settles what the others could tell: of a level of the
    /// plan, that more rows are broken than may be. The rows that are read are offered to a sampler. `ReadFault` comes only where the
    /// images failed.
    pub fn build_each<I: Images>(
        alloc: Global,
        images: &mut I,
        plan: &Plan,
        offset: u64,
        sampler: &mut RowSampler,
    ) -> Result<Vec<EarlyTable>, TableFault>
        requires plan { IsPlan plan.now }
        requires offset { offset < 2 ^ 55 }
        requires images { AgreeWith plan.now (I.seen images.old).attached }
        requires none { HasNone (length plan.now.lengths.items) sampler.old }
        ensures long { IfOk result (λ tables. length tables.items ≡ length (paces_of_plan plan.now)) }
        ensures told { IfOk result (λ tables. IfSome (told_all (I.seen images.old).attached)
            (λ bytes. AreEarlyTables bytes plan.now (paces_of_plan plan.now) offset tables.items)) }
        ensures telling_images { sampler.new.telling.kept.images ≡ length plan.now.lengths.items }
        ensures others_images { sampler.new.others.kept.images ≡ length plan.now.lengths.items }
        ensures rows { OnOk result (IfSome (told_all (I.seen images.old).attached) (λ bytes. AreSampled bytes (length plan.now.lengths.items) offset sampler.new)) }
        ensures reads { OnlyReads (I.seen images.old) (I.seen images.new)
            (length plan.now.lengths.items * most_tested plan.now plan.now.bounds.chunks.items offset) }
        ensures ends { IfErr result (EndsTable (I.seen images.old) (I.seen images.new)) }
        ensures stays { OnOk result ((I.seen images.new).faults ≡ (I.seen images.old).faults) }
    {
        let mut regions = Regions::new(alloc, plan.lengths.len(), BLOCK).map_err(
            |_| TableFault::Memory,
        )?;
        let paces = paces_of(alloc, plan)?;
        let mut tables = no_rows(alloc, paces.len())?;
        read_rows(
            images,
            &mut regions,
            &mut tables,
            sampler,
            plan,
            &paces,
            offset,
        )
        .map_err(|_| TableFault::ReadFault)?;
        Ok(tables)
    }

    /// Counts those of `count` rows that are tested. The first of them is row `first`.
    fn add_tested(
        &mut self,
        sums: &[ImageSum; BLOCK],
        plan: &Plan,
        pace: Pace,
        offset: u64,
        first: u64,
        count: usize,
    )
        requires plan { IsPlan plan.now }
        requires pace { IsPace pace }
        requires count { count ≤ BLOCK }
        requires rows { first + count < 2 ^ 55 }
        requires few { AreFew first self.old }
        ensures counts { (bytes : List (List ℕ)) →
            AreSumsOf bytes (length plan.now.lengths.items) (offset + first) count sums.now →
            CountRows bytes (length plan.now.lengths.items) (span pace) offset (min first (tested_with plan.now pace.chunk offset)) self.old →
            CountRows bytes (length plan.now.lengths.items) (span pace) offset (min (first + count) (tested_with plan.now pace.chunk offset)) self.new }
        ensures few { AreFew (first + count) self.new }
    {
        let tested = tested_rows(plan, pace.chunk, offset);
        if first < tested {
            let rows = (tested - first).min(count as u64) as usize;
            self.rows
                .add_rows(sums, plan.lengths.len(), pace.span(), first, rows);
        }
    }
}

/// `count` tables of no rows.
fn no_rows(alloc: Global, count: usize) -> Result<Vec<EarlyTable>, TableFault>
    ensures long { IfOk result (λ tables. length tables.items ≡ count) }
    ensures counts { IfOk result (λ tables. (images : List (List ℕ)) (members span offset : ℕ) →
        All (CountRows images members span offset 0) tables.items) }
    ensures few { IfOk result (λ tables. AreAllFew 0 tables.items) }
    ensures memory { IfErr result (λ fault. fault ≡ Memory) }
{
    let mut tables = Vec::with_capacity(alloc, count).map_err(|_| TableFault::Memory)?;
    for _ in 0..count {
        let table = EarlyTable {
            rows: RowTally::new(),
        };
        tables.push(table).map_err(|_| TableFault::Memory)?;
    }
    Ok(tables)
}

/// Counts the rows of an offset for each of some paces of the plan, with room for a block of each image, and offers them
/// to a sampler.
fn read_rows<I: Images>(
    images: &mut I,
    regions: &mut Regions,
    tables: &mut Vec<EarlyTable>,
    sampler: &mut RowSampler,
    plan: &Plan,
    paces: &[Pace],
    offset: u64,
) -> Result<(), Failed>
    requires plan { IsPlan plan.now }
    requires paces { All (IsPaceOf plan.now) paces.now }
    requires offset { offset < 2 ^ 55 }
    requires images { AgreeWith plan.now (I.seen images.old).attached }
    requires room { IsRoomFor (length plan.now.lengths.items) BLOCK regions.old }
    requires tables { length tables.old.items ≡ length paces.now }
    requires none { (bytes : List (List ℕ)) (members span offset : ℕ) →
        All (CountRows bytes members span offset 0) tables.old.items }
    requires few { AreAllFew 0 tables.old.items }
    requires none_kept { HasNone (length plan.now.lengths.items) sampler.old }
    ensures long { length tables.new.items ≡ length paces.now }
    ensures told { OnOk result (IfSome (told_all (I.seen images.old).attached)
        (λ bytes. AreEarlyTables bytes plan.now paces.now offset tables.new.items)) }
    ensures telling_images { sampler.new.telling.kept.images ≡ length plan.now.lengths.items }
    ensures others_images { sampler.new.others.kept.images ≡ length plan.now.lengths.items }
    ensures rows { OnOk result (IfSome (told_all (I.seen images.old).attached) (λ bytes. AreSampled bytes (length plan.now.lengths.items) offset sampler.new)) }
    ensures reads { OnlyReads (I.seen images.old) (I.seen images.new)
        (length plan.now.lengths.items * most_tested plan.now plan.now.bounds.chunks.items offset) }
    ensures cause { HasCause (I.seen images.old).faults (I.seen images.new).faults result }
{
    let rows = most_rows(plan, plan.bounds.chunks.as_slice(), offset);
    let mut first = 0;
    while first < rows {
        if tables_suffice(tables, plan, paces, offset, first) {
            return Ok(());
        }
        let most = first.clamp(FIRST_BLOCK as u64, BLOCK as u64);
        let count = most.min(rows - first) as usize;
        let sums = row_sums(images, regions, plan, offset + first, count)?;
        add_block(tables, &sums, plan, paces, offset, first, count);
        offer_rows(sampler, regions, &sums, first, count);
        first += count as u64;
    }
    Ok(())
}

/// Counts the rows of a block, of which the first is row `first`, for each of some paces.
fn add_block(
    tables: &mut Vec<EarlyTable>,
    sums: &[ImageSum; BLOCK],
    plan: &Plan,
    paces: &[Pace],
    offset: u64,
    first: u64,
    count: usize,
)
    requires plan { IsPlan plan.now }
    requires paces { All IsPace paces.now }
    requires count { count ≤ BLOCK }
    requires rows { first + count < 2 ^ 55 }
    requires tables { length tables.old.items ≡ length paces.now }
    requires few { AreAllFew first tables.old.items }
    ensures counts { (bytes : List (List ℕ)) → AreSumsOf bytes (length plan.now.lengths.items) (offset + first) count sums.now →
        CountFirst bytes plan.now paces.now offset first tables.old.items → CountFirst bytes plan.now paces.now offset (first + count) tables.new.items }
    ensures few { AreAllFew (first + count) tables.new.items }
    ensures long { length tables.new.items ≡ length tables.old.items }
{
    for place in 0..paces.len() {
        tables[place].add_tested(sums, plan, paces[place], offset, first, count);
    }
}
