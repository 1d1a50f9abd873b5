//! The lost sectors of data cells alone, of many sector rows at once.
ghost use Rattle.std.specs.Prelude.{ℕ, List, ◌≡◌, ◌≢◌, ◌<◌, ◌≤◌, ◌+◌, ◌*◌, false, length, slice_index, true};
ghost use Rattle.raid_params.specs.declared.types.Part.TheVariants.{Q};
ghost use Rattle.raid_terms.specs.Parity.{has_q, IsRow};
ghost use Rattle.pq_parity.specs.Finding.{is_lost_at, AreFinders};
ghost use Rattle.row_parity.specs.Known.{ArePlaces};
ghost use Rattle.lane_kernels.specs.Formulas.{weighed_sum};
ghost use Rattle.pq_parity.specs.Needs.{needs, AgreeInRows, AreWhole, HoldLostData, KeepAllBut};
ghost use Rattle.row_parity.specs.Regions.{region_column};

use crate::fills::{SectorRows, fill_by_p};
use crate::finders::{Finder, finder_after, finder_at, lost_data_from, needs_q};
use lane_kernels::weigh;
use outside::SECTOR;
use raid_params::Cell;
use row_parity::{Known, Sums, known_of, sums_by};

/// Finds `count` lost sectors of each missing data cell, from number `from` on, and writes them into its
/// region. The regions lie one after the other, each of `stride` bytes.
///
/// The regions need hold no more than what the lost data are found by: the present data, P where
/// a data block is missing, and Q where P alone does not tell. What lies in the region of another parity
/// block counts for nothing.
pub fn solve_data(cells: &[Cell], sectors: &mut [u8], stride: usize, from: usize, count: usize)
    requires cells { IsRow cells.now }
    requires sectors { stride * length cells.now ≤ length sectors.old }
    requires fits { 512 * (from + count) ≤ stride }
    ensures lost { (column : ℕ → ℕ → List ℕ) → AreWhole cells.now from count column →
        AgreeInRows cells.now stride from count sectors.old column → HoldLostData cells.now stride from count sectors.new column }
    ensures others { KeepAllBut cells.now stride from count sectors.old sectors.new }
{
    let Some(first) = lost_data_from(cells, 0) else {
        return;
    };
    let rows = SectorRows {
        stride,
        from,
        count,
    };
    if needs_q(cells) {
        solve_by_both(cells, first, sectors, rows);
    } else {
        fill_by_p(cells, first, sectors, rows);
    }
}

/// Finds the same, by both equations. `first` is the first missing data cell.
fn solve_by_both(cells: &[Cell], first: usize, sectors: &mut [u8], rows: SectorRows)
    requires cells { IsRow cells.now }
    requires first { is_lost_at cells.now first ≡ true }
    requires none_before { (i : ℕ) → i < first → is_lost_at cells.now i ≡ false }
    requires by_q { needs cells.now Q ≡ true }
    requires sectors { rows.stride * length cells.now ≤ length sectors.old }
    requires fits { 512 * (rows.from + rows.count) ≤ rows.stride }
    ensures lost { HoldLostData cells.now rows.stride rows.from rows.count sectors.new (λ j x. region_column (length cells.now) rows.stride sectors.old j x) }
    ensures others { KeepAllBut cells.now rows.stride rows.from rows.count sectors.old sectors.new }
{
    let known = known_of(cells);
    let second = finder_after(cells, first);
    let first = finder_at(cells, first);
    for row in 0..rows.count {
        fill_row(
            cells,
            &known,
            &first,
            &second,
            sectors,
            rows.stride,
            rows.from + row,
        );
    }
}

/// Writes the lost sectors number `j` of the missing data cells, by their finders, into their regions.
fn fill_row(
    cells: &[Cell],
    known: &Known,
    first: &Finder,
    second: &Option<Finder>,
    sectors: &mut [u8],
    stride: usize,
    j: usize,
)
    requires cells { IsRow cells.now }
    requires q { has_q cells.now ≡ true }
    requires known { ArePlaces cells.now (length cells.now) known.now }
    requires finders { AreFinders cells.now first.now second.now }
    requires sectors { stride * length cells.now ≤ length sectors.old }
    requires j { 512 * j + 512 ≤ stride }
    ensures lost { HoldLostData cells.now stride j 1 sectors.new (λ i x. region_column (length cells.now) stride sectors.old i x) }
    ensures others { KeepAllBut cells.now stride j 1 sectors.old sectors.new }
{
    let sums = sums_by(cells, known, sectors, stride, j);
    fill(first, &sums, sectors, stride, cells.len(), j);
    if let Some(second) = second {
        fill(second, &sums, sectors, stride, cells.len(), j);
    }
}

/// Writes what the finder makes of the sums into its region, as the sector number `j`.
fn fill(finder: &Finder, sums: &Sums, sectors: &mut [u8], stride: usize, members: usize, j: usize)
    requires place { finder.now.place < members }
    requires by_p { length sums.now.p ≡ 512 }
    requires by_q { length sums.now.q ≡ 512 }
    requires sectors { stride * members ≤ length sectors.old }
    requires j { 512 * j + 512 ≤ stride }
    ensures bytes { (x : ℕ) → x < 512 → slice_index sectors.new (stride * finder.now.place + (512 * j + x))
        ≡ weighed_sum finder.now.by_p.factor finder.now.by_q.factor (slice_index sums.now.p x) (slice_index sums.now.q x) }
    ensures others { (p : ℕ) → ((x : ℕ) → x < 512 → p ≢ stride * finder.now.place + (512 * j + x)) → slice_index sectors.new p ≡ slice_index sectors.old p }
{
    let at = stride * finder.place + SECTOR * j;
    let to = &mut sectors[at..at + SECTOR];
    weigh(to, &sums.p, &finder.by_p, &sums.q, &finder.by_q);
}
