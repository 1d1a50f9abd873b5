//! What finds the missing data cells of a row. It is made once, for all sectors of the row.
ghost use Rattle.std.specs.Prelude.{ℕ, ◌≡◌, ◌<◌, ◌≤◌, ◌&&◌, ◌||◌, MatchOption, false, length, nat_le, true};
ghost use Rattle.raid_params.specs.declared.types.Part.TheVariants.{Q};
ghost use Rattle.raid_terms.specs.Parity.{is_data, IsRow};
ghost use Rattle.pq_parity.specs.Finding.{is_lost_at, IsFinder};
ghost use Rattle.pq_parity.specs.Needs.{is_p_lost, lost_data, needs};

use crate::solving::other_missing;
use crate::weights::weights_of;
use lane_kernels::Multiplier;
use raid_params::{Cell, Part};

/// What finds the bytes of a missing data cell: a byte is `by_p` times the sum of P's equation plus `by_q`
/// times that of Q's.
#[derive(Drop)]
pub struct Finder {
    /// The place of the cell.
    pub place: usize,
    /// The factor of the sum of P's equation.
    pub by_p: Multiplier,
    /// The factor of the sum of Q's equation.
    pub by_q: Multiplier,
}

/// The finder of the missing data cell at this place.
pub fn finder_at(cells: &[Cell], place: usize) -> Finder
    requires cells { IsRow cells.now }
    requires lost { is_lost_at cells.now place ≡ true }
    ensures place { result.place ≡ place }
    ensures finds { IsFinder cells.now result }
{
    let weights = weights_of(cells[place].part, other_missing(cells, place));
    Finder {
        place,
        by_p: Multiplier::new(weights.p),
        by_q: Multiplier::new(weights.q),
    }
}

/// The finder of the next missing data cell after this place.
pub fn finder_after(cells: &[Cell], place: usize) -> Option<Finder>
    requires cells { IsRow cells.now }
    requires place { place < length cells.now }
    ensures { MatchOption result ((i : ℕ) → place < i → is_lost_at cells.now i ≡ false)
        (λ finder. (place < finder.place) × IsFinder cells.now finder × ((i : ℕ) → place < i → i < finder.place → is_lost_at cells.now i ≡ false)) }
{
    match lost_data_from(cells, place + 1) {
        Some(next) => Some(finder_at(cells, next)),
        None => None,
    }
}

/// The first missing data cell from this place on.
pub fn lost_data_from(cells: &[Cell], start: usize) -> Option<usize>
    requires { start ≤ length cells.now }
    ensures { MatchOption result ((i : ℕ) → start ≤ i → is_lost_at cells.now i ≡ false)
        (λ place. (start ≤ place) × (is_lost_at cells.now place ≡ true) × ((i : ℕ) → start ≤ i → i < place → is_lost_at cells.now i ≡ false)) }
{
    for place in start..cells.len() {
        if is_lost_data(cells[place]) {
            return Some(place);
        }
    }
    None
}

/// Whether the missing data are found by Q too.
pub fn needs_q(cells: &[Cell]) -> bool
    ensures { result ≡ needs cells.now Q }
{
    let lost = lost_data_count(cells);
    lost >= 2 || (lost >= 1 && is_p_missing(cells))
}

/// How many data cells are missing.
fn lost_data_count(cells: &[Cell]) -> usize
    ensures { result ≡ lost_data cells.now }
{
    cells.iter().filter(|cell| is_lost_data(**cell)).count()
}

/// Whether a cell is missing and holds data.
fn is_lost_data(cell: Cell) -> bool
    ensures { result ≡ (cell.missing && is_data cell.part) }
{
    cell.missing && matches!(cell.part, Part::Block(_))
}

/// Whether P is missing.
fn is_p_missing(cells: &[Cell]) -> bool
    ensures { result ≡ is_p_lost cells.now }
{
    cells
        .iter()
        .any(|cell| cell.missing && matches!(cell.part, Part::P))
}
