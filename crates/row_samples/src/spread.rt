//! Rows that are kept, spread over an offset.
ghost use Rattle.std.specs.Prelude.{◌≡◌, ◌^◌, ◌<◌, IfOk, true};
ghost use Rattle.relation_prefix.specs.Ties.{FitTies};
ghost use Rattle.row_samples.specs.Spreads.{first_spread, kept_row, next_part, offered, passed, passed_row, wants as spread_wants};

use outside::Memory;
use relation_prefix::{RowTies, SampledRows};
use std::alloc::Global;

/// How far the place of a row within its part moves from one part to the next, in rows: an odd prime.
const STRIDE: u64 = 7919;

/// Rows of an offset, one of each of as many equal parts as there is room for.
#[derive(Drop)]
pub struct Spread {
    /// Those that are kept.
    pub kept: SampledRows,
    /// The length of a part, in rows.
    pub part: u64,
    /// The first row that is wanted.
    pub wanted: u64,
}

/// The first row that is wanted after one that was kept: one of the next part, at a place that differs from part to part.
fn next_wanted(row: u64, part: u64) -> u64
    requires row { row < 2 ^ 55 }
    requires some { 0 < part }
    requires part { part < 2 ^ 55 }
    ensures { result ≡ next_part row part }
{
    let next = row / part + 1;
    next * part + next % 4096 * STRIDE % part
}

impl Spread {
    /// Room for at most `most` rows of so many images, of the first `rows` rows of an offset. None is kept yet. All memory is taken
    /// here.
    pub(crate) fn new(
        alloc: Global,
        images: usize,
        rows: u64,
        most: usize,
    ) -> Result<Spread, Memory>
        ensures { IfOk result (λ spread. spread ≡ first_spread images rows most) }
    {
        let kept = SampledRows::with_room(alloc, images, most)?;
        let part = (rows / most.max(1) as u64).max(1);
        Ok(Spread {
            kept,
            part,
            wanted: 0,
        })
    }

    /// Whether a row is wanted.
    pub(crate) fn wants(&self, row: u64) -> bool
        ensures { result ≡ spread_wants self.now row }
    {
        self.wanted <= row && !self.kept.is_full()
    }

    /// Keeps a row of these ties, which is wanted.
    fn keep(&mut self, row: u64, ties: &RowTies)
        requires wanted { spread_wants self.old row ≡ true }
        requires ties { FitTies ties.now }
        requires images { ties.now.images ≡ self.old.kept.images }
        requires row { row < 2 ^ 55 }
        requires some { 0 < self.old.part }
        requires part { self.old.part < 2 ^ 55 }
        ensures { self.new ≡ kept_row self.old row ties.now }
    {
        match self.kept.keep(row, ties) {
            Ok(()) => (),
            Err(_) => unreachable!(),
        }
        self.wanted = next_wanted(row, self.part);
    }

    /// Goes past a row that is not kept, if it is wanted: the next is wanted a bit further on.
    pub(crate) fn pass(&mut self, row: u64)
        requires row { row < 2 ^ 55 }
        requires part { self.old.part < 2 ^ 55 }
        ensures { self.new ≡ passed self.old row }
    {
        if self.wants(row) {
            self.wanted = row + self.part / 16 + 1;
        }
    }

    /// Keeps a row of these ties, if it is wanted and worth it. Where it is not worth it, the next is wanted a bit further on.
    pub(crate) fn offer(&mut self, row: u64, ties: &RowTies, is_worth: bool)
        requires ties { FitTies ties.now }
        requires images { ties.now.images ≡ self.old.kept.images }
        requires row { row < 2 ^ 55 }
        requires some { 0 < self.old.part }
        requires part { self.old.part < 2 ^ 55 }
        ensures { self.new ≡ offered self.old row ties.now is_worth }
    {
        if !is_worth {
            self.pass(row);
        } else if self.wants(row) {
            self.keep(row, ties);
        }
    }
}
