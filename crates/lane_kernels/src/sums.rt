//! Sums of two lists, place by place.

ghost use Rattle.std.specs.Prelude.{◌≡◌, ◌+◌, ◌≤◌, length, bit_xor};
ghost use Rattle.std.specs.Simd.Lanes.{zip2, put_chunk, chunk};
ghost use Rattle.lane_kernels.specs.Formulas.{double_sum};

use crate::LANES;
use crate::blocks::load;
use std::simd::prelude::*;

/// Adds a block of 32 bytes to another one.
fn xor_block(a: &mut [u8], b: &[u8], at: usize)
    requires a { at + 32 ≤ length a.old }
    requires b { at + 32 ≤ length b.now }
    ensures { a.new ≡ put_chunk at a.old (zip2 bit_xor (chunk at 32 a.old) (chunk at 32 b.now)) }
{
    let sum = u8x32::from_slice(&a[at..]) ^ u8x32::from_slice(&b[at..]);
    sum.copy_to_slice(&mut a[at..]);
}

/// Adds b to a: at each place `a + b`. The two are equally long.
#[tactic(auto, using(crate::proofs::Steps::done_start, crate::proofs::Steps::done_all))]
pub fn xor_into(a: &mut [u8], b: &[u8])
    requires { length a.old ≡ length b.now }
    ensures { a.new ≡ zip2 bit_xor a.old b.now }
{
    let mut at = 0;
    while at + LANES <= a.len() {
        xor_block(a, b, at);
        at += LANES;
    }
    while at < a.len() {
        a[at] ^= b[at];
        at += 1;
    }
}

// A lane of 128 and above loses its top bit in the shift and takes 0x1D in its place.
fn double_block(a: &mut [u8], b: &[u8], at: usize)
    requires a { at + 32 ≤ length a.old }
    requires b { at + 32 ≤ length b.now }
    ensures { a.new ≡ put_chunk at a.old (zip2 double_sum (chunk at 32 a.old) (chunk at 32 b.now)) }
{
    let x = load(a, at);
    let twice = (x + x) ^ ((x >> u8x32::splat(7)) * u8x32::splat(0x1D));
    (twice ^ u8x32::from_slice(&b[at..])).copy_to_slice(&mut a[at..]);
}

#[tactic(auto, using(gf256::proofs::Doubling::by_two))]
/// Twice a byte, plus another one.
fn double_byte(a: u8, b: u8) -> u8
    ensures { result ≡ double_sum a b }
{
    gf256::add(gf256::mul(2, a), b)
}

/// Doubles a and adds b: at each place `2a + b`, the product and the sum of the field. The two are equally long.
#[tactic(auto, using(crate::proofs::Steps::done_start, crate::proofs::Steps::done_all))]
pub fn double_xor(a: &mut [u8], b: &[u8])
    requires { length a.old ≡ length b.now }
    ensures { a.new ≡ zip2 double_sum a.old b.now }
{
    let mut at = 0;
    while at + LANES <= a.len() {
        double_block(a, b, at);
        at += LANES;
    }
    while at < a.len() {
        a[at] = double_byte(a[at], b[at]);
        at += 1;
    }
}
