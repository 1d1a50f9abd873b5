//! Sums of a row, written into the region of a place: of many sector rows at once.
ghost use Rattle.std.specs.Prelude.{ℕ, ◌≡◌, ◌≢◌, ◌<◌, ◌≤◌, ◌+◌, ◌*◌, length, slice_index, true};
ghost use Rattle.raid_params.specs.declared.limits.TheConstants.{MOST};
ghost use Rattle.raid_terms.specs.Parity.{has_q, in_p, in_q, IsRow};
ghost use Rattle.row_parity.specs.Known.{ArePlaces};
ghost use Rattle.row_parity.specs.Regions.{region_column, HoldSums, KeepOthers};
ghost use Rattle.row_parity.specs.Syndromes.{AreColumns, sum_at};

use outside::SECTOR;
use raid_params::Cell;
use row_parity::{Known, STRIP, STRIPS, known_of, p_sum, store, strip_sums};

/// Sectors of each region, where the regions lie one after the other.
#[derive(Clone, Copy)]
pub struct SectorRows {
    /// The bytes of a region.
    pub stride: usize,
    /// The number of the first sector in its region.
    pub from: usize,
    /// How many there are.
    pub count: usize,
}

/// Writes the sums of P's equation over these sectors into the region of this place.
pub fn fill_by_p(cells: &[Cell], place: usize, sectors: &mut [u8], rows: SectorRows)
    requires cells { length cells.now ≤ MOST }
    requires place { place < length cells.now }
    requires sectors { rows.stride * length cells.now ≤ length sectors.old }
    requires fits { 512 * (rows.from + rows.count) ≤ rows.stride }
    ensures columns { (j : ℕ) → AreColumns cells.now (region_column (length cells.now) rows.stride sectors.old j) }
    ensures sums { HoldSums in_p cells.now rows.stride rows.from rows.count place sectors.old sectors.new }
    ensures others { KeepOthers rows.stride rows.from rows.count place sectors.old sectors.new }
{
    for row in 0..rows.count {
        fill_row_by_p(cells, place, sectors, rows.stride, rows.from + row);
    }
}

/// Writes those over the sectors number `j`.
fn fill_row_by_p(cells: &[Cell], place: usize, sectors: &mut [u8], stride: usize, j: usize)
    requires cells { length cells.now ≤ MOST }
    requires place { place < length cells.now }
    requires sectors { stride * length cells.now ≤ length sectors.old }
    requires j { 512 * j + 512 ≤ stride }
    ensures sums { (x : ℕ) → x < 512 → slice_index sectors.new (stride * place + (512 * j + x))
        ≡ sum_at in_p cells.now (region_column (length cells.now) stride sectors.old j) x }
    ensures others { (p : ℕ) → ((x : ℕ) → x < 512 → p ≢ stride * place + (512 * j + x)) → slice_index sectors.new p ≡ slice_index sectors.old p }
{
    for strip in 0..STRIPS {
        let at = SECTOR * j + STRIP * strip;
        let p = p_sum(cells, sectors, stride, at);
        store(sectors, stride * place + at, p);
    }
}

/// Writes the sums of Q's equation over the same.
pub fn fill_by_q(cells: &[Cell], place: usize, sectors: &mut [u8], rows: SectorRows)
    requires cells { IsRow cells.now }
    requires q { has_q cells.now ≡ true }
    requires place { place < length cells.now }
    requires sectors { rows.stride * length cells.now ≤ length sectors.old }
    requires fits { 512 * (rows.from + rows.count) ≤ rows.stride }
    ensures sums { HoldSums in_q cells.now rows.stride rows.from rows.count place sectors.old sectors.new }
    ensures others { KeepOthers rows.stride rows.from rows.count place sectors.old sectors.new }
{
    let known = known_of(cells);
    for row in 0..rows.count {
        fill_row_by_q(cells, &known, place, sectors, rows.stride, rows.from + row);
    }
}

/// Writes those over the sectors number `j`.
fn fill_row_by_q(
    cells: &[Cell],
    known: &Known,
    place: usize,
    sectors: &mut [u8],
    stride: usize,
    j: usize,
)
    requires cells { IsRow cells.now }
    requires q { has_q cells.now ≡ true }
    requires known { ArePlaces cells.now (length cells.now) known.now }
    requires place { place < length cells.now }
    requires sectors { stride * length cells.now ≤ length sectors.old }
    requires j { 512 * j + 512 ≤ stride }
    ensures sums { (x : ℕ) → x < 512 → slice_index sectors.new (stride * place + (512 * j + x))
        ≡ sum_at in_q cells.now (region_column (length cells.now) stride sectors.old j) x }
    ensures others { (p : ℕ) → ((x : ℕ) → x < 512 → p ≢ stride * place + (512 * j + x)) → slice_index sectors.new p ≡ slice_index sectors.old p }
{
    for strip in 0..STRIPS {
        let (_, q) = strip_sums(cells, known, sectors, stride, j, strip);
        store(sectors, stride * place + (SECTOR * j + STRIP * strip), q);
    }
}
