//! Whether a sector row is sound.
ghost use Rattle.std.specs.Prelude.{ℕ, ◌≡◌, ◌<◌, ◌≤◌, ◌+◌, ◌*◌, length, count_by, not, true};
ghost use Rattle.std.specs.Bool.{Decides};
ghost use Rattle.raid_terms.specs.Parity.{column_of, has_q, in_p, in_q, is_data, is_sound, IsRow};
ghost use Rattle.row_parity.specs.LostBytes.{first_missing};
ghost use Rattle.row_parity.specs.Regions.{region_column};
ghost use Rattle.row_parity.specs.Passes.{Passes};
ghost use Rattle.row_parity.specs.Syndromes.{AllCancel, Cancel, sum_at};

use crate::known::known_of;
use crate::strips::{STRIP, STRIPS, Test, is_zero, p_sum, passes};
use crate::syndromes::strip_sums;
use outside::SECTOR;
use raid_params::{Cell, Part};

/// Whether a sector row is sound. `row` holds one sector for each cell, one after the other. What
/// it holds for a missing cell counts for nothing.
pub fn row_holds(cells: &[Cell], row: &[u8]) -> bool
    requires cells { IsRow cells.now }
    requires row { length row.now ≡ 512 * length cells.now }
    ensures { result ≡ is_sound cells.now (column_of (length cells.now) row.now) }
{
    sectors_hold(cells, row, SECTOR, 0)
}

/// Whether the sectors number `j` of the cells' regions are a sound row. The regions lie one after the
/// other, each of `stride` bytes. What they hold for a missing cell counts for nothing.
pub fn sectors_hold(cells: &[Cell], sectors: &[u8], stride: usize, j: usize) -> bool
    requires cells { IsRow cells.now }
    requires sectors { stride * length cells.now ≤ length sectors.now }
    requires j { 512 * j + 512 ≤ stride }
    ensures { result ≡ is_sound cells.now (region_column (length cells.now) stride sectors.now j) }
{
    if missing_count(cells) == parity_count(cells) {
        return true;
    }
    match missing_part(cells) {
        None => all_cancel(cells, sectors, stride, j),
        Some(Part::P) => cancels(Test::Q, cells, sectors, stride, j),
        Some(Part::Q) => p_cancels(cells, sectors, stride, j),
        Some(Part::Block(k)) => cancels(Test::QByP(k), cells, sectors, stride, j),
    }
}

/// How many cells are missing.
pub fn missing_count(cells: &[Cell]) -> usize
    ensures { result ≡ count_by (λ c. c.missing) cells.now }
{
    cells.iter().filter(|cell| cell.missing).count()
}

/// How many cells hold parity.
fn parity_count(cells: &[Cell]) -> usize
    ensures { result ≡ count_by (λ c. not (is_data c.part)) cells.now }
{
    cells
        .iter()
        .filter(|cell| !matches!(cell.part, Part::Block(_)))
        .count()
}

/// What the first missing cell holds.
pub fn missing_part(cells: &[Cell]) -> Option<Part>
    ensures { result ≡ first_missing cells.now }
{
    cells.iter().find(|cell| cell.missing).map(|cell| cell.part)
}

/// Whether one of the cells is Q.
pub fn has_syndrome(cells: &[Cell]) -> bool
    ensures { result ≡ has_q cells.now }
{
    cells.iter().any(|cell| matches!(cell.part, Part::Q))
}

/// Whether in each column of the known cells P's equation holds, and Q's where the row has a Q.
fn all_cancel(cells: &[Cell], sectors: &[u8], stride: usize, j: usize) -> bool
    requires cells { IsRow cells.now }
    requires sectors { stride * length cells.now ≤ length sectors.now }
    requires j { 512 * j + 512 ≤ stride }
    ensures { Decides result (AllCancel cells.now (region_column (length cells.now) stride sectors.now j)) }
{
    if has_syndrome(cells) {
        cancels(Test::Both, cells, sectors, stride, j)
    } else {
        p_cancels(cells, sectors, stride, j)
    }
}

/// Whether P's equation holds in each column of the known cells. It stops at the first strip of columns
/// where it does not.
fn p_cancels(cells: &[Cell], sectors: &[u8], stride: usize, j: usize) -> bool
    requires cells { IsRow cells.now }
    requires sectors { stride * length cells.now ≤ length sectors.now }
    requires j { 512 * j + 512 ≤ stride }
    ensures { Decides result (Cancel in_p cells.now (region_column (length cells.now) stride sectors.now j)) }
{
    for strip in 0..STRIPS {
        if !is_zero(p_sum(cells, sectors, stride, SECTOR * j + STRIP * strip)) {
            return false;
        }
    }
    true
}

/// Whether in each column the sums of both equations over the known cells pass the test. It stops at the
/// first strip of columns where they do not.
fn cancels(test: Test, cells: &[Cell], sectors: &[u8], stride: usize, j: usize) -> bool
    requires cells { IsRow cells.now }
    requires q { has_q cells.now ≡ true }
    requires sectors { stride * length cells.now ≤ length sectors.now }
    requires j { 512 * j + 512 ≤ stride }
    ensures { Decides result ((x : ℕ) → x < 512 → Passes test
        (sum_at in_p cells.now (region_column (length cells.now) stride sectors.now j) x)
        (sum_at in_q cells.now (region_column (length cells.now) stride sectors.now j) x)) }
{
    let known = known_of(cells);
    for strip in 0..STRIPS {
        let (p, q) = strip_sums(cells, &known, sectors, stride, j, strip);
        if !passes(test, p, q) {
            return false;
        }
    }
    true
}
