//! The sectors of missing cells.
ghost use Rattle.std.specs.Prelude.{ℕ, List, ◌≡◌, ◌≢◌, ◌<◌, ◌≤◌, ◌+◌, ◌*◌, IfSome, length, slice_get, slice_index, take, drop, true, bit_xor, None};
ghost use Rattle.std.specs.Option.{option_or};
ghost use Rattle.gf256.specs.Field.{product};
ghost use Rattle.raid_terms.specs.Parity.{column_of, in_p, in_q, IsRow};
ghost use Rattle.raid_terms.specs.Solving.{is_q_lost, lost_byte};
ghost use Rattle.row_parity.specs.LostBytes.{asks_q, first_missing};
ghost use Rattle.row_parity.specs.Regions.{region_column};
ghost use Rattle.row_parity.specs.Syndromes.{AreColumns, IsSyndrome};

use crate::weights::weights_of;
use lane_kernels::scale_xor;
use outside::SECTOR;
use raid_params::{Cell, Part};
use row_parity::{Sums, missing_count, missing_part, p_sums, sums_of};

/// Writes the lost sector of the missing cell at this place. `row` holds one sector for each cell,
/// one after the other, and what it holds for a missing cell counts for nothing. `to` holds one
/// sector.
///
/// A byte that is lost alone is found by Q's equation where it is Q's own, and by P's elsewhere,
/// also where the other equation does not hold. Two are found by both equations.
pub fn solve(cells: &[Cell], row: &[u8], place: usize, to: &mut [u8])
    requires cells { IsRow cells.now }
    requires row { length row.now ≡ 512 * length cells.now }
    requires place { place < length cells.now }
    requires missing { IfSome (slice_get cells.now place) (λ cell. cell.missing ≡ true) }
    requires to { length to.old ≡ 512 }
    ensures length { length to.new ≡ 512 }
    ensures lost { (x : ℕ) → x < 512 →
        slice_index to.new x ≡ lost_byte cells.now (column_of (length cells.now) row.now x) place }
{
    let sums = sums_for(cells, row, SECTOR, 0);
    find_sector(cells, place, &sums.p, &sums.q, to);
}

/// The sums by which the missing cells are found: those of both equations, or those of P's alone where one
/// cell that is not Q is missing.
fn sums_for(cells: &[Cell], sectors: &[u8], stride: usize, j: usize) -> Sums
    requires cells { IsRow cells.now }
    requires missing { first_missing cells.now ≢ None }
    requires sectors { stride * length cells.now ≤ length sectors.now }
    requires j { 512 * j + 512 ≤ stride }
    ensures columns { AreColumns cells.now (region_column (length cells.now) stride sectors.now j) }
    ensures p { IsSyndrome in_p cells.now (region_column (length cells.now) stride sectors.now j) result.p }
    ensures q { asks_q cells.now ≡ true → IsSyndrome in_q cells.now (region_column (length cells.now) stride sectors.now j) result.q }
{
    if asks_both(cells) {
        return sums_of(cells, sectors, stride, j);
    }
    Sums {
        p: p_sums(cells, sectors, stride, j),
        q: [0; SECTOR],
    }
}

/// Whether the missing cells are found by Q's equation too.
fn asks_both(cells: &[Cell]) -> bool
    ensures { result ≡ asks_q cells.now }
{
    missing_count(cells) != 1 || is_q_missing(cells)
}

/// Whether Q is missing.
fn is_q_missing(cells: &[Cell]) -> bool
    ensures { result ≡ is_q_lost cells.now }
{
    cells
        .iter()
        .any(|cell| cell.missing && matches!(cell.part, Part::Q))
}

/// Finds the lost sector of the missing cell at this place by the sums of both equations.
fn find_sector(cells: &[Cell], place: usize, by_p: &[u8], by_q: &[u8], to: &mut [u8])
    requires cells { IsRow cells.now }
    requires place { place < length cells.now }
    requires missing { IfSome (slice_get cells.now place) (λ cell. cell.missing ≡ true) }
    requires by_p { length by_p.now ≡ 512 }
    requires by_q { length by_q.now ≡ 512 }
    requires to { length to.old ≡ 512 }
    ensures length { length to.new ≡ 512 }
    ensures lost { (column : ℕ → List ℕ) → AreColumns cells.now column →
        IsSyndrome in_p cells.now column by_p.now → (asks_q cells.now ≡ true → IsSyndrome in_q cells.now column by_q.now) →
        (x : ℕ) → x < 512 → slice_index to.new x ≡ lost_byte cells.now (column x) place }
{
    let weights = weights_of(cells[place].part, other_missing(cells, place));
    to.fill(0);
    add_weighed(to, by_p, weights.p);
    add_weighed(to, by_q, weights.q);
}

/// What the first other missing cell holds.
pub fn other_missing(cells: &[Cell], place: usize) -> Option<Part>
    requires { place < length cells.now }
    ensures { result ≡ option_or (first_missing (take place cells.now)) (first_missing (drop (place + 1) cells.now)) }
{
    missing_part(&cells[..place]).or(missing_part(&cells[place + 1..]))
}

/// Adds sums times a weight.
#[tactic(auto, using(crate::proofs::Pairs::no_weight))]
fn add_weighed(to: &mut [u8], sums: &[u8], weight: u8)
    requires to { length to.old ≡ 512 }
    requires sums { length sums.now ≡ 512 }
    ensures length { length to.new ≡ 512 }
    ensures bytes { (x : ℕ) → x < 512 →
        slice_index to.new x ≡ bit_xor (slice_index to.old x) (product weight (slice_index sums.now x)) }
{
    if weight != 0 {
        scale_xor(to, sums, weight);
    }
}
