//! The sums of a sector row over the cells that are there, a byte for each column.
ghost use Rattle.std.specs.Prelude.{ℕ, ◌≡◌, ◌<◌, ◌≤◌, ◌+◌, ◌*◌, length, slice_index, true};
ghost use Rattle.std.specs.Simd.Lanes.{Each1};
ghost use Rattle.raid_params.specs.declared.limits.TheConstants.{MOST};
ghost use Rattle.raid_terms.specs.Parity.{has_q, in_p, in_q, IsRow};
ghost use Rattle.row_parity.specs.declared.strips.TheConstants.{STRIPS};
ghost use Rattle.row_parity.specs.Known.{ArePlaces};
ghost use Rattle.row_parity.specs.Regions.{region_column};
ghost use Rattle.row_parity.specs.Syndromes.{AreColumns, IsSyndrome, sum_at};

use crate::known::{Known, known_of};
use crate::strips::{STRIP, STRIPS, both_sums, p_sum, store};
use outside::SECTOR;
use raid_params::Cell;
use std::simd::prelude::*;

/// The sums of the equations, a byte for each column.
#[derive(Drop)]
pub struct Sums {
    /// Those of P's equation.
    pub p: [u8; SECTOR],
    /// Those of Q's equation.
    pub q: [u8; SECTOR],
}

/// The sums that P's equation asks to be 0, over the sectors number `j` of the cells' regions.
pub fn p_sums(cells: &[Cell], sectors: &[u8], stride: usize, j: usize) -> [u8; SECTOR]
    requires cells { length cells.now ≤ MOST }
    requires sectors { stride * length cells.now ≤ length sectors.now }
    requires j { 512 * j + 512 ≤ stride }
    ensures columns { AreColumns cells.now (region_column (length cells.now) stride sectors.now j) }
    ensures p { IsSyndrome in_p cells.now (region_column (length cells.now) stride sectors.now j) result }
{
    let mut sums = [0u8; SECTOR];
    for strip in 0..STRIPS {
        let at = STRIP * strip;
        store(
            &mut sums,
            at,
            p_sum(cells, sectors, stride, SECTOR * j + at),
        );
    }
    sums
}

/// The sums that both equations ask to be 0, over the same.
pub fn sums_of(cells: &[Cell], sectors: &[u8], stride: usize, j: usize) -> Sums
    requires cells { IsRow cells.now }
    requires q { has_q cells.now ≡ true }
    requires sectors { stride * length cells.now ≤ length sectors.now }
    requires j { 512 * j + 512 ≤ stride }
    ensures columns { AreColumns cells.now (region_column (length cells.now) stride sectors.now j) }
    ensures p { IsSyndrome in_p cells.now (region_column (length cells.now) stride sectors.now j) result.p }
    ensures q { IsSyndrome in_q cells.now (region_column (length cells.now) stride sectors.now j) result.q }
{
    sums_by(cells, &known_of(cells), sectors, stride, j)
}

/// The sums of both equations over the cells of a sector row that are there, by where these stand.
pub fn sums_by(cells: &[Cell], known: &Known, sectors: &[u8], stride: usize, j: usize) -> Sums
    requires cells { IsRow cells.now }
    requires q { has_q cells.now ≡ true }
    requires known { ArePlaces cells.now (length cells.now) known.now }
    requires sectors { stride * length cells.now ≤ length sectors.now }
    requires j { 512 * j + 512 ≤ stride }
    ensures columns { AreColumns cells.now (region_column (length cells.now) stride sectors.now j) }
    ensures p { IsSyndrome in_p cells.now (region_column (length cells.now) stride sectors.now j) result.p }
    ensures q { IsSyndrome in_q cells.now (region_column (length cells.now) stride sectors.now j) result.q }
{
    let mut sums = Sums {
        p: [0; SECTOR],
        q: [0; SECTOR],
    };
    for strip in 0..STRIPS {
        let (p, q) = strip_sums(cells, known, sectors, stride, j, strip);
        store(&mut sums.p, STRIP * strip, p);
        store(&mut sums.q, STRIP * strip, q);
    }
    sums
}

/// The sums of both equations over a strip of columns.
#[tactic(auto, using(crate::proofs::Apart::are_placed))]
pub fn strip_sums(
    cells: &[Cell],
    known: &Known,
    sectors: &[u8],
    stride: usize,
    j: usize,
    strip: usize,
) -> (u8x64, u8x64)
    requires cells { IsRow cells.now }
    requires q { has_q cells.now ≡ true }
    requires known { ArePlaces cells.now (length cells.now) known.now }
    requires sectors { stride * length cells.now ≤ length sectors.now }
    requires j { 512 * j + 512 ≤ stride }
    requires strip { strip < STRIPS }
    ensures p_long { length result.0 ≡ 64 }
    ensures p_fits { Each1 (λ k. k < 256) result.0 }
    ensures q_long { length result.1 ≡ 64 }
    ensures q_fits { Each1 (λ k. k < 256) result.1 }
    ensures p { (lane : ℕ) → lane < 64 → slice_index result.0 lane
        ≡ sum_at in_p cells.now (region_column (length cells.now) stride sectors.now j) (64 * strip + lane) }
    ensures q { (lane : ℕ) → lane < 64 → slice_index result.1 lane
        ≡ sum_at in_q cells.now (region_column (length cells.now) stride sectors.now j) (64 * strip + lane) }
{
    let at = SECTOR * j + STRIP * strip;
    both_sums(known, sectors, stride, at, cells.len())
}
