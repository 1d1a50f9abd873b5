//! The table of the tested rows in which images differ.
ghost use Rattle.std.specs.Prelude.{◌≡◌, ◌*◌, ◌<◌, ◌^◌, IfErr, IfOk, IfSome, IsTrue, OnOk, length};
ghost use Rattle.raid_params.specs.Validity.{is_chunk};
ghost use Rattle.outside.specs.Attached.{told_all};
ghost use Rattle.outside.specs.Causes.{HasCause};
ghost use Rattle.outside.specs.Seen.{OnlyReads};
ghost use Rattle.member_regions.specs.Regions.{IsRoomFor};
ghost use Rattle.member_regions.specs.declared.regions.TheConstants.{BLOCK};
ghost use Rattle.search_plan.specs.Plans.{IsPlan, AgreeWith};
ghost use Rattle.xor_tables.specs.Paces.{IsPace};
ghost use Rattle.xor_tables.specs.Xors.{IsXorTable};
ghost use Rattle.search_plan.specs.Rows.{tested_with};
ghost use Rattle.xor_tables.specs.Reading.{EndsTable};

use crate::pace::Pace;
use crate::row_sums::row_sums;
use crate::row_tally::RowTally;
use member_regions::{BLOCK, Regions};
use outside::{Failed, Images};
use search_plan::{Plan, tested_rows};
use std::alloc::Global;
use std::marker::Model;
use thiserror::Error;

/// In how many of the rows of sectors that are tested with one chunk and one offset the images of a plan differ, by the
/// turns of one delay.
///
/// Contracts see it as a `RowTable`.
#[derive(Drop)]
pub struct XorTable {
    /// The tally of all rows that are tested.
    pub(crate) rows: RowTally,
}

impl Model for XorTable {
    ghost use Rattle.xor_tables.specs.Xors.{RowTable};

    ghost Value = { RowTable };

    ghost view = { λ table. table.rows };
}

/// Why a table is not built.
#[derive(Clone, Copy, Debug, Drop, Error)]
pub enum TableFault {
    /// The images failed.
    #[error("an image cannot be read")]
    ReadFault,
    /// Out of memory.
    #[error("not enough memory")]
    Memory,
}

impl XorTable {
    /// Counts all rows of sectors that a plan tests with a chunk and an offset, as [`XorTable::build_for`] does for a
    /// delay of 1.
    pub fn build<I: Images>(
        alloc: Global,
        images: &mut I,
        plan: &Plan,
        chunk: u64,
        offset: u64,
    ) -> Result<XorTable, TableFault>
        requires plan { IsPlan plan.now }
        requires chunk { IsTrue (is_chunk chunk) }
        requires offset { offset < 2 ^ 55 }
        requires images { AgreeWith plan.now (I.seen images.old).attached }
        ensures told { IfOk result (λ table. IfSome (told_all (I.seen images.old).attached)
            (λ bytes. IsXorTable bytes plan.now (record { chunk = chunk; delay = 1 }) offset table)) }
        ensures reads { OnlyReads (I.seen images.old) (I.seen images.new)
            (length plan.now.lengths.items * tested_with plan.now chunk offset) }
        ensures ends { IfErr result (EndsTable (I.seen images.old) (I.seen images.new)) }
        ensures stays { OnOk result ((I.seen images.new).faults ≡ (I.seen images.old).faults) }
    {
        XorTable::build_for(alloc, images, plan, Pace { chunk, delay: 1 }, offset)
    }

    /// Counts all rows of sectors that a plan tests with the chunk of a pace and an offset. Each image is read at most once, in
    /// the order of its sectors, and memory is taken before the first reading. `ReadFault` comes only where the
    /// images failed.
    pub fn build_for<I: Images>(
        alloc: Global,
        images: &mut I,
        plan: &Plan,
        pace: Pace,
        offset: u64,
    ) -> Result<XorTable, TableFault>
        requires plan { IsPlan plan.now }
        requires pace { IsPace pace }
        requires offset { offset < 2 ^ 55 }
        requires images { AgreeWith plan.now (I.seen images.old).attached }
        ensures told { IfOk result (λ table. IfSome (told_all (I.seen images.old).attached)
            (λ bytes. IsXorTable bytes plan.now pace offset table)) }
        ensures reads { OnlyReads (I.seen images.old) (I.seen images.new)
            (length plan.now.lengths.items * tested_with plan.now pace.chunk offset) }
        ensures ends { IfErr result (EndsTable (I.seen images.old) (I.seen images.new)) }
        ensures stays { OnOk result ((I.seen images.new).faults ≡ (I.seen images.old).faults) }
    {
        let mut regions = Regions::new(alloc, plan.lengths.len(), BLOCK).map_err(
            |_| TableFault::Memory,
        )?;
        let rows = tally_rows(images, &mut regions, plan, pace, offset).map_err(
            |_| TableFault::ReadFault,
        )?;
        Ok(XorTable { rows })
    }
}

/// The tally of all tested rows, with room for a block of each image.
fn tally_rows<I: Images>(
    images: &mut I,
    regions: &mut Regions,
    plan: &Plan,
    pace: Pace,
    offset: u64,
) -> Result<RowTally, Failed>
    requires plan { IsPlan plan.now }
    requires pace { IsPace pace }
    requires offset { offset < 2 ^ 55 }
    requires images { AgreeWith plan.now (I.seen images.old).attached }
    requires room { IsRoomFor (length plan.now.lengths.items) BLOCK regions.old }
    ensures told { IfOk result (λ tally. IfSome (told_all (I.seen images.old).attached)
        (λ bytes. IsXorTable bytes plan.now pace offset tally)) }
    ensures reads { OnlyReads (I.seen images.old) (I.seen images.new)
        (length plan.now.lengths.items * tested_with plan.now pace.chunk offset) }
    ensures cause { HasCause (I.seen images.old).faults (I.seen images.new).faults result }
{
    let rows = tested_rows(plan, pace.chunk, offset);
    let span = pace.span();
    let mut tally = RowTally::new();
    let mut first = 0;
    while first < rows {
        let count = (rows - first).min(BLOCK as u64) as usize;
        let sums = row_sums(images, regions, plan, offset + first, count)?;
        tally.add_rows(&sums, plan.lengths.len(), span, first, count);
        first += count as u64;
    }
    Ok(tally)
}
