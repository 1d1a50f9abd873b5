//! The sums of a row over a strip of columns, one a lane.
ghost use Rattle.std.specs.Prelude.{ℕ, ◌≡◌, ◌<◌, ◌≤◌, ◌+◌, ◌*◌, IfSome, bit_xor, length, map, slice_index};
ghost use Rattle.std.specs.Simd.Lanes.{Each1};
ghost use Rattle.std.specs.Bool.{Decides};
ghost use Rattle.std.specs.List.{range_with_len};
ghost use Rattle.gf256.specs.Field.{double, power_of, product};
ghost use Rattle.raid_params.specs.declared.limits.TheConstants.{MOST};
ghost use Rattle.raid_terms.specs.Parity.{in_p};
ghost use Rattle.row_parity.specs.Passes.{Passes};
ghost use Rattle.row_parity.specs.Syndromes.{known_in, known_sum};
ghost use Rattle.row_parity.specs.Known.{ArePlaced, byte_of, falling, same};
ghost use Rattle.row_parity.specs.Regions.{region_byte};

use crate::known::Known;
use raid_params::{Cell, Part};
use std::simd::prelude::*;

/// The columns of a strip.
pub const STRIP: usize = 64;

/// The strips of a sector.
pub const STRIPS: usize = 8;

/// The 64 bytes from place `at` on, one a lane.
fn load(bytes: &[u8], at: usize) -> u8x64
    requires { at + 64 ≤ length bytes.now }
    ensures long { length result ≡ 64 }
    ensures fits { Each1 (λ x. x < 256) result }
    ensures lanes { (lane : ℕ) → lane < 64 → slice_index result lane ≡ slice_index bytes.now (at + lane) }
{
    u8x64::from_slice(&bytes[at..])
}

/// Zeros.
fn zeros() -> u8x64
    ensures long { length result ≡ 64 }
    ensures fits { Each1 (λ x. x < 256) result }
    ensures lanes { (lane : ℕ) → slice_index result lane ≡ 0 }
{
    u8x64::splat(0)
}

/// Each lane doubled. A lane of 128 and above loses its top bit and takes 0x1D in its place.
fn twice(x: u8x64) -> u8x64
    requires long { length x ≡ 64 }
    requires fits { Each1 (λ k. k < 256) x }
    ensures value { result ≡ map double x }
    ensures long { length result ≡ 64 }
    ensures fits { Each1 (λ k. k < 256) result }
    ensures lanes { (lane : ℕ) → lane < 64 → slice_index result lane ≡ double (slice_index x lane) }
{
    (x + x) ^ ((u8x64::splat(0) - (x >> u8x64::splat(7))) & u8x64::splat(0x1D))
}

/// Writes the lanes into a list, from place `at` on.
pub fn store(to: &mut [u8], at: usize, lanes: u8x64)
    requires to { at + 64 ≤ length to.old }
    requires lanes { length lanes ≡ 64 }
    ensures long { length to.new ≡ length to.old }
    ensures before { (p : ℕ) → p < at → slice_index to.new p ≡ slice_index to.old p }
    ensures lanes { (lane : ℕ) → lane < 64 → slice_index to.new (at + lane) ≡ slice_index lanes lane }
    ensures after { (p : ℕ) → at + 64 ≤ p → slice_index to.new p ≡ slice_index to.old p }
{
    lanes.copy_to_slice(&mut to[at..]);
}

/// The sum of two, lane by lane.
fn sum(x: u8x64, y: u8x64) -> u8x64
    requires x_long { length x ≡ 64 }
    requires x_fits { Each1 (λ k. k < 256) x }
    requires y_long { length y ≡ 64 }
    requires y_fits { Each1 (λ k. k < 256) y }
    ensures long { length result ≡ 64 }
    ensures fits { Each1 (λ k. k < 256) result }
    ensures lanes { (lane : ℕ) → lane < 64 → slice_index result lane ≡ bit_xor (slice_index x lane) (slice_index y lane) }
{
    x ^ y
}

/// The bytes of the region of a place from byte `at` of it on, and 0 where there is no place.
#[tactic(auto, using(crate::proofs::Regions::region_inside))]
fn load_of(place: Option<u8>, sectors: &[u8], stride: usize, at: usize, members: usize) -> u8x64
    requires place { IfSome place (λ p. p < members) }
    requires sectors { stride * members ≤ length sectors.now }
    requires at { at + 64 ≤ stride }
    ensures long { length result ≡ 64 }
    ensures fits { Each1 (λ x. x < 256) result }
    ensures lanes { (lane : ℕ) → lane < 64 → slice_index result lane ≡ byte_of place (region_byte sectors.now stride (at + lane)) }
{
    let Some(place) = place else {
        return zeros();
    };
    load(sectors, stride * place as usize + at)
}

/// The sums of both equations over the strip from byte `at` of each region on.
pub fn both_sums(
    known: &Known,
    sectors: &[u8],
    stride: usize,
    at: usize,
    members: usize,
) -> (u8x64, u8x64)
    requires known { ArePlaced members known.now }
    requires sectors { stride * members ≤ length sectors.now }
    requires at { at + 64 ≤ stride }
    ensures p_long { length result.0 ≡ 64 }
    ensures p_fits { Each1 (λ k. k < 256) result.0 }
    ensures q_long { length result.1 ≡ 64 }
    ensures q_fits { Each1 (λ k. k < 256) result.1 }
    ensures p { (lane : ℕ) → lane < 64 → slice_index result.0 lane ≡ bit_xor
        (falling same known.now.data_places known.now.end known.now.end (region_byte sectors.now stride (at + lane)))
        (byte_of known.now.p (region_byte sectors.now stride (at + lane))) }
    ensures q { (lane : ℕ) → lane < 64 → slice_index result.1 lane ≡ bit_xor
        (falling double known.now.data_places known.now.end known.now.end (region_byte sectors.now stride (at + lane)))
        (byte_of known.now.q (region_byte sectors.now stride (at + lane))) }
{
    let mut p = zeros();
    let mut q = zeros();
    for step in 0..known.end {
        let place = known.data_places[known.end - 1 - step];
        let bytes = load_of(place, sectors, stride, at, members);
        p = sum(p, bytes);
        q = sum(twice(q), bytes);
    }
    let p_bytes = load_of(known.p, sectors, stride, at, members);
    let q_bytes = load_of(known.q, sectors, stride, at, members);
    (sum(p, p_bytes), sum(q, q_bytes))
}

/// The sum of P's equation over the strip from byte `at` of each region on.
pub fn p_sum(cells: &[Cell], sectors: &[u8], stride: usize, at: usize) -> u8x64
    requires cells { length cells.now ≤ MOST }
    requires sectors { stride * length cells.now ≤ length sectors.now }
    requires at { at + 64 ≤ stride }
    ensures long { length result ≡ 64 }
    ensures lanes { (lane : ℕ) → lane < 64 → slice_index result lane
        ≡ known_sum in_p cells.now (map (region_byte sectors.now stride (at + lane)) (range_with_len 0 (length cells.now))) }
{
    let mut p = zeros();
    for place in 0..cells.len() {
        let bytes = load_of(
            p_place(cells[place], place as u8),
            sectors,
            stride,
            at,
            cells.len(),
        );
        p = sum(p, bytes);
    }
    p
}

/// The place of a cell that P's equation counts.
fn p_place(cell: Cell, place: u8) -> Option<u8>
    ensures here { IfSome result (λ p. p ≡ place) }
    ensures byte { (f : ℕ → ℕ) → byte_of result f ≡ known_in in_p cell (f place) }
{
    if cell.missing {
        return None;
    }
    match cell.part {
        Part::Block(_) | Part::P => Some(place),
        Part::Q => None,
    }
}

/// What the sums of a strip have to be.
#[derive(Clone, Copy)]
pub enum Test {
    /// Both are 0.
    Both,
    /// The sum of Q's equation is 0.
    Q,
    /// The sum of Q's equation is 0, with the lost block of this exponent as P's equation gives it.
    QByP(u8),
}

/// Whether each lane is 0.
pub fn is_zero(x: u8x64) -> bool
    requires { length x ≡ 64 }
    ensures { Decides result ((lane : ℕ) → lane < 64 → slice_index x lane ≡ 0) }
{
    x.simd_ne(u8x64::splat(0)).to_bitmask() == 0
}

/// Each lane times 2 to this power.
fn times_power(x: u8x64, power: u8) -> u8x64
    requires long { length x ≡ 64 }
    requires fits { Each1 (λ k. k < 256) x }
    ensures long { length result ≡ 64 }
    ensures fits { Each1 (λ k. k < 256) result }
    ensures lanes { (lane : ℕ) → lane < 64 → slice_index result lane ≡ product (power_of power) (slice_index x lane) }
{
    let mut product = x;
    for _ in 0..power {
        product = twice(product);
    }
    product
}

/// Whether the sums of a strip are what they have to be.
pub fn passes(test: Test, p: u8x64, q: u8x64) -> bool
    requires p_long { length p ≡ 64 }
    requires p_fits { Each1 (λ k. k < 256) p }
    requires q_long { length q ≡ 64 }
    requires q_fits { Each1 (λ k. k < 256) q }
    ensures { Decides result ((lane : ℕ) → lane < 64 → Passes test (slice_index p lane) (slice_index q lane)) }
{
    match test {
        Test::Both => is_zero(p) && is_zero(q),
        Test::Q => is_zero(q),
        Test::QByP(k) => is_zero(sum(q, times_power(p, k))),
    }
}
