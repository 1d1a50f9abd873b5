//! The one equation that decides whether a row is sound, where there is one.
ghost use Rattle.std.specs.Prelude.{ℕ, ◌≡◌, ◌<◌, ◌↔◌, bit_xor, count_by, false, length, map, not, IfSome, IsTrue};
ghost use Rattle.gf256.specs.Field.{product};
ghost use Rattle.raid_params.specs.declared.limits.TheConstants.{MOST};
ghost use Rattle.raid_terms.specs.Parity.{has_q as has_q_of, in_p, in_q, is_data, IsRow};
ghost use Rattle.row_parity.specs.Syndromes.{known_in};
ghost use Rattle.parity_scan.specs.Equations.{DecideRow, factor_sum, MixDecides, mixed_sum};
ghost use Rattle.parity_scan.specs.ImageSums.{held_byte};

use gf256::{add, inverse, mul, power};
use raid_params::{Cell, MOST, Part};
use row_parity::{missing_count, missing_part};

/// What an equation multiplies the bytes of each image by: 0 where it asks nothing of the image.
pub type Factors = [u8; MOST];

/// What P's and Q's equation are multiplied by before they are added up.
#[derive(Clone, Copy)]
pub struct Mix {
    /// What P's is multiplied by.
    pub p: u8,
    /// What Q's is multiplied by.
    pub q: u8,
}

/// The factors of the one equation that decides whether a row is sound. The first that is not 0 is 1, so that equations that
/// say the same have the same factors. None where no equation decides it alone, or the slots hold an image beyond the first
/// [`MOST`].
pub fn row_factors(cells: &[Cell], slots: &[Option<u8>]) -> Option<Factors>
    requires cells { IsRow cells.now }
    requires slots { length cells.now ≡ length slots.now }
    ensures { IfSome result (DecideRow cells.now slots.now) }
{
    let mix = one_equation(cells)?;
    let factors = image_factors(mix, cells, slots)?;
    Some(normal(&factors))
}

/// Of which sum of both equations it is decided whether a row is sound. None where both decide, or none does.
fn one_equation(cells: &[Cell]) -> Option<Mix>
    requires { IsRow cells.now }
    ensures { IfSome result (MixDecides cells.now) }
{
    if missing_count(cells) == parity_count(cells) {
        return None;
    }
    match missing_part(cells) {
        None => equation_of_all(cells),
        Some(Part::P) => Some(Mix { p: 0, q: 1 }),
        Some(Part::Q) => Some(Mix { p: 1, q: 0 }),
        Some(Part::Block(k)) => Some(Mix { p: power(k), q: 1 }),
    }
}

/// Of which equation it is decided, where no cell is missing: P's, unless there is a Q.
fn equation_of_all(cells: &[Cell]) -> Option<Mix>
    ensures { IfSome result (λ mix. (mix ≡ record { p = 1; q = 0 }) × (has_q_of cells.now ≡ false)) }
{
    if has_q(cells) {
        return None;
    }
    Some(Mix { p: 1, q: 0 })
}

/// Whether a row has a Q.
pub fn has_q(cells: &[Cell]) -> bool
    ensures { result ≡ has_q_of cells.now }
{
    cells.iter().any(|cell| matches!(cell.part, Part::Q))
}

/// How many cells hold parity.
fn parity_count(cells: &[Cell]) -> usize
    ensures { result ≡ count_by (λ c. not (is_data c.part)) cells.now }
{
    cells
        .iter()
        .filter(|cell| !matches!(cell.part, Part::Block(_)))
        .count()
}

/// What the sum of both equations multiplies the bytes of each image by. None where a slot holds an image beyond the first
/// [`MOST`].
fn image_factors(mix: Mix, cells: &[Cell], slots: &[Option<u8>]) -> Option<Factors>
    requires p { mix.p < 256 }
    requires q { mix.q < 256 }
    requires slots { length cells.now ≡ length slots.now }
    ensures { IfSome result (λ factors. (f : ℕ → ℕ) → factor_sum f factors MOST ≡ mixed_sum mix cells.now (map (held_byte f) slots.now)) }
{
    let mut factors = [0; MOST];
    for place in 0..cells.len() {
        if !add_factor(&mut factors, slots[place], cell_factor(mix, cells[place])) {
            return None;
        }
    }
    Some(factors)
}

/// What the sum of both equations multiplies the byte of a cell by.
fn cell_factor(mix: Mix, cell: Cell) -> u8
    requires p { mix.p < 256 }
    requires q { mix.q < 256 }
    ensures { (byte : ℕ) → product result byte ≡ bit_xor (product mix.p (known_in in_p cell byte)) (product mix.q (known_in in_q cell byte)) }
{
    if cell.missing {
        return 0;
    }
    match cell.part {
        Part::Block(k) => add(mix.p, mul(mix.q, power(k))),
        Part::P => mix.p,
        Part::Q => mix.q,
    }
}

/// Adds to the factor of the image in a slot, where there is one. False where there is no factor for it.
fn add_factor(factors: &mut [u8], held: Option<u8>, factor: u8) -> bool
    requires { length factors.old ≡ MOST }
    ensures added { IsTrue result → (f : ℕ → ℕ) → factor_sum f factors.new MOST ≡ bit_xor (factor_sum f factors.old MOST) (product factor (held_byte f held)) }
    ensures long { length factors.new ≡ MOST }
{
    let Some(image) = held else {
        return true;
    };
    let image = image as usize;
    if MOST <= image {
        return false;
    }
    factors[image] = add(factors[image], factor);
    true
}

/// The factors of the same equation of which the first that is not 0 is 1.
fn normal(factors: &Factors) -> Factors
    ensures { (f : ℕ → ℕ) → (factor_sum f factors.now MOST ≡ 0) ↔ (factor_sum f result MOST ≡ 0) }
{
    for image in 0..MOST {
        if factors[image] != 0 {
            return scaled(factors, inverse(factors[image]));
        }
    }
    *factors
}

/// Each factor multiplied by the same.
fn scaled(factors: &Factors, by: u8) -> Factors
    ensures { (f : ℕ → ℕ) → factor_sum f result MOST ≡ product by (factor_sum f factors.now MOST) }
{
    let mut scaled = *factors;
    for image in 0..MOST {
        scaled[image] = mul(by, factors[image]);
    }
    scaled
}
