//! The lost sectors of a parity cell, of many sector rows at once.
ghost use Rattle.std.specs.Prelude.{ℕ, List, ◌≡◌, ◌<◌, ◌≤◌, ◌+◌, ◌*◌, IfSome, false, length, slice_get, true};
ghost use Rattle.raid_params.specs.declared.limits.TheConstants.{MOST};
ghost use Rattle.raid_terms.specs.Parity.{is_data, is_q, IsRow};
ghost use Rattle.pq_parity.specs.DataThere.{data_there as data_there_of, parity_lost as parity_lost_of, HoldAllData, HoldLostAt};
ghost use Rattle.row_parity.specs.Regions.{KeepOthers};
ghost use Rattle.row_parity.specs.Syndromes.{AreColumns};

use crate::fills::{SectorRows, fill_by_p, fill_by_q};
use arrayvec::ArrayVec;
use raid_params::{Cell, MOST, Part};

/// Finds `count` lost sectors of the missing parity cell at this place, from number `from` on, and writes them
/// into its region. The regions lie one after the other, each of `stride` bytes.
///
/// The regions of the data cells hold the data, also the lost ones, which [`solve_data`](crate::solve_data)
/// finds. What lies in the region of another parity cell counts for nothing.
pub fn solve_parity(
    cells: &[Cell],
    place: usize,
    sectors: &mut [u8],
    stride: usize,
    from: usize,
    count: usize,
)
    requires cells { IsRow cells.now }
    requires place { place < length cells.now }
    requires missing { IfSome (slice_get cells.now place) (λ cell. cell.missing ≡ true) }
    requires parity { IfSome (slice_get cells.now place) (λ cell. is_data cell.part ≡ false) }
    requires sectors { stride * length cells.now ≤ length sectors.old }
    requires fits { 512 * (from + count) ≤ stride }
    ensures lost { (column : ℕ → ℕ → List ℕ) → ((j : ℕ) → AreColumns cells.now (column j)) →
        HoldAllData cells.now stride from count sectors.old column → HoldLostAt cells.now stride from count place sectors.new column }
    ensures others { KeepOthers stride from count place sectors.old sectors.new }
{
    let by_data = parity_lost(cells);
    let rows = SectorRows {
        stride,
        from,
        count,
    };
    if holds_q(cells[place]) {
        fill_by_q(&by_data, place, sectors, rows);
    } else {
        fill_by_p(&by_data, place, sectors, rows);
    }
}

/// Whether a cell is Q.
fn holds_q(cell: Cell) -> bool
    ensures { result ≡ is_q cell.part }
{
    matches!(cell.part, Part::Q)
}

/// The cells, where the data are there and the parity is missing.
fn parity_lost(cells: &[Cell]) -> ArrayVec<Cell, MOST>
    requires { length cells.now ≤ MOST }
    ensures { result.items ≡ parity_lost_of cells.now }
{
    let mut by_data = ArrayVec::new();
    for place in 0..cells.len() {
        by_data.push(data_there(cells[place]));
    }
    by_data
}

/// A cell, there where it is data and missing where it is parity.
fn data_there(cell: Cell) -> Cell
    ensures { result ≡ data_there_of cell }
{
    Cell {
        part: cell.part,
        missing: !matches!(cell.part, Part::Block(_)),
    }
}
