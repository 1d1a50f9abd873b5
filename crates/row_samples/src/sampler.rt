//! Rows that are kept while images are read.
ghost use Rattle.std.specs.Prelude.{ℕ, List, ◌≡◌, ◌+◌, ◌*◌, ◌^◌, ◌<◌, ◌≤◌, IfOk, IfSome, length, true};
ghost use Rattle.member_regions.specs.Regions.{IsRoomFor};
ghost use Rattle.relation_prefix.specs.Sampled.{KeptRows};
ghost use Rattle.row_relations.specs.declared.standing.TheConstants.{MOST_IMAGES as MOST};
ghost use Rattle.row_samples.specs.Rows.{most_kept as most_rows_kept, HoldSector};
ghost use Rattle.row_samples.specs.Spreads.{chosen, first_sampling, is_wanted as row_is_wanted, AreSampled, LieBelow, OffersRow, TakesTable};

use crate::row_bytes::{copy_row, fill_table};
use crate::spread::Spread;
use member_regions::Regions;
use outside::{Memory, SECTOR};
use relation_prefix::{RowTies, SampledRows};
use row_relations::RowTable;
use std::alloc::Global;
use std::marker::Model;

/// The most rows that are kept of an offset.
const MOST_KEPT: u64 = 4096;

/// How many rows are kept where so many may be unsound: 64 more, and 4,096 at most.
pub(crate) fn most_kept(badrows: u64) -> usize
    ensures { result ≡ most_rows_kept badrows }
{
    badrows.min(MOST_KEPT - 64) as usize + 64
}

/// Keeps rows of an offset, spread over as many equal parts as there is room for: from each part the first that tells much, and beside
/// these the first that is not zeros.
///
/// Contracts see both, which rows are wanted, and how many may be unsound.
#[derive(Drop)]
pub struct RowSampler {
    telling: Spread,
    others: Spread,
    /// Room for the table of a row, and for its sectors.
    table: RowTable,
    sectors: Vec<u8>,
    /// How many rows may be unsound.
    badrows: u64,
}

impl Model for RowSampler {
    ghost use Rattle.std.specs.Prelude.{◌≡◌, ◌≤◌, ◌<◌, ◌*◌, ◌^◌, length};
    ghost use Rattle.row_samples.specs.Spreads.{Sampling};

    ghost Value = { Sampling };

    ghost view = { λ s. record { telling = s.telling; others = s.others; badrows = s.badrows } };

    ghost invariant = { λ s. (length s.table.standings ≡ s.telling.kept.images) × (s.others.kept.images ≡ s.telling.kept.images) × (length s.sectors.items ≡ 512 * s.telling.kept.images)
        × (0 < s.telling.part) × (s.telling.part < 2 ^ 55) × (0 < s.others.part) × (s.others.part < 2 ^ 55) };
}

/// Offers a row of this table to both, of which one wants it.
fn take(telling: &mut Spread, others: &mut Spread, row: u64, table: &RowTable)
    requires telling_images { length table.now.standings ≡ telling.old.kept.images }
    requires others_images { length table.now.standings ≡ others.old.kept.images }
    requires row { row < 2 ^ 55 }
    requires telling_some { 0 < telling.old.part }
    requires telling_part { telling.old.part < 2 ^ 55 }
    requires others_some { 0 < others.old.part }
    requires others_part { others.old.part < 2 ^ 55 }
    ensures takes { (badrows : ℕ) → TakesTable table.now row (record { telling = telling.old; others = others.old; badrows = badrows })
        (record { telling = telling.new; others = others.new; badrows = badrows }) }
{
    let Some(ties) = RowTies::of(table) else {
        telling.pass(row);
        others.pass(row);
        return;
    };
    telling.offer(row, &ties, ties.tells_much());
    others.offer(row, &ties, !ties.is_blank());
}

impl RowSampler {
    /// Room for rows of so many images, of the first `rows` rows of an offset, of which so many may be unsound. None is kept yet. All
    /// memory is taken here.
    pub fn new(alloc: Global, images: usize, rows: u64, badrows: u64) -> Result<RowSampler, Memory>
        requires images { images ≤ MOST }
        requires rows { rows < 2 ^ 55 }
        ensures { IfOk result (λ sampler. sampler ≡ first_sampling images rows badrows) }
    {
        let most = most_kept(badrows);
        let telling = Spread::new(alloc, images, rows, most)?;
        let others = Spread::new(alloc, images, rows, most)?;
        let table = RowTable::new(alloc, images)?;
        let sectors = vec![in alloc; 0u8; SECTOR * images].map_err(|_| Memory)?;
        Ok(RowSampler {
            telling,
            others,
            table,
            sectors,
            badrows,
        })
    }

    /// Whether a row is wanted: where it is none of those that are offered, nothing is changed.
    pub(crate) fn wants(&self, row: u64) -> bool
        ensures { result ≡ row_is_wanted self.now row }
    {
        self.telling.wants(row) || self.others.wants(row)
    }

    /// Keeps the row whose sectors are those number `place` of the regions of all images, if it is wanted: with those that tell much,
    /// if it does, and with the others, if it is not zeros. It takes no memory.
    pub fn offer(&mut self, regions: &Regions, row: u64, place: usize)
        requires room { IsRoomFor self.old.telling.kept.images (place + 1) regions.now }
        requires row { row < 2 ^ 55 }
        ensures offers { OffersRow regions.now place row self.old self.new }
    {
        if !self.wants(row) {
            return;
        }
        let images = self.table.images();
        copy_row(regions, images, place, self.sectors.as_mut_slice());
        fill_table(&mut self.table, &self.sectors);
        take(&mut self.telling, &mut self.others, row, &self.table);
    }

    /// The rows that are asked: those that tell much, where they are more than may be unsound, and else all that are not zeros.
    pub fn finish(self) -> SampledRows
        ensures { result ≡ chosen self }
    {
        let RowSampler {
            telling,
            others,
            badrows,
            ..
        } = self;
        if telling.kept.count() as u64 > badrows {
            telling.kept
        } else {
            others.kept
        }
    }
}
