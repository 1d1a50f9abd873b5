//! Products of lists by factors.

ghost use Rattle.std.specs.Prelude.{ℕ, ◌≡◌, ◌+◌, ◌≤◌, ◌<◌, ◌^◌, length, map};
ghost use Rattle.std.specs.Simd.Lanes.{zip2, put_chunk, chunk, Each1};
ghost use Rattle.gf256.specs.Field.{product};
ghost use Rattle.lane_kernels.specs.Formulas.{scaled_sum, weighed_sum};
ghost use Rattle.lane_kernels.specs.Tables.{IsTable};

use crate::LANES;
use crate::blocks::load;
use std::simd::prelude::*;

/// A factor with its products by 0 to 15 and by 16 times those: a product of a byte is the sum of two look-ups, one a half
/// of the byte. A look-up reads within 16 lanes, so each table stands twice.
#[derive(Drop)]
pub struct Multiplier {
    /// The factor.
    pub factor: u8,
    low: u8x32,
    high: u8x32,
    ghost in_range: { factor < 2 ^ 8 },
    ghost low_products: { IsTable factor 1 low },
    ghost high_products: { IsTable factor 16 high },
}

/// The products of a factor with the 16 values of a nibble times `unit`, twice.
fn table(factor: u8, unit: u8) -> [u8; 32]
    requires { unit ≤ 16 }
    ensures { IsTable factor unit result }
{
    let mut products = [0u8; 32];
    for half in 0..16u8 {
        let product = gf256::mul(factor, unit * half);
        products[half as usize] = product;
        products[half as usize + 16] = product;
    }
    products
}

impl Multiplier {
    /// The multiplier of a factor. To make one takes 32 products.
    pub fn new(factor: u8) -> Multiplier
        ensures { result.factor ≡ factor }
    {
        Multiplier {
            factor,
            low: u8x32::from_array(table(factor, 1)),
            high: u8x32::from_array(table(factor, 16)),
        }
    }

    /// The products of the factor with 32 bytes.
    fn times(&self, x: u8x32) -> u8x32
        requires long { length x ≡ 32 }
        requires fits { Each1 (λ k. k < 256) x }
        ensures { result ≡ map (product self.now.factor) x }
    {
        let low = self.low.swizzle_dyn_within::<16>(x & u8x32::splat(15));
        let high = self.high.swizzle_dyn_within::<16>(x >> u8x32::splat(4));
        low ^ high
    }
}

/// Adds a block of 32 bytes times a factor.
fn scale_xor_block(a: &mut [u8], b: &[u8], at: usize, by: &Multiplier)
    requires a { at + 32 ≤ length a.old }
    requires b { at + 32 ≤ length b.now }
    ensures { a.new ≡ put_chunk at a.old (zip2 (scaled_sum by.now.factor) (chunk at 32 a.old) (chunk at 32 b.now)) }
{
    let part = by.times(load(b, at));
    (u8x32::from_slice(&a[at..]) ^ part).copy_to_slice(&mut a[at..]);
}

/// A byte plus another one times a factor.
fn scale_xor_byte(a: u8, b: u8, factor: u8) -> u8
    ensures { result ≡ scaled_sum factor a b }
{
    gf256::add(a, gf256::mul(factor, b))
}

/// Adds factor times b to a: at each place `a + factor * b`, the product of the field. The two are equally long.
#[tactic(auto, using(crate::proofs::Steps::done_start, crate::proofs::Steps::done_all))]
pub fn scale_xor(a: &mut [u8], b: &[u8], factor: u8)
    requires { length a.old ≡ length b.now }
    ensures { a.new ≡ zip2 (scaled_sum factor) a.old b.now }
{
    let by = Multiplier::new(factor);
    let mut at = 0;
    while at + LANES <= a.len() {
        scale_xor_block(a, b, at, &by);
        at += LANES;
    }
    while at < a.len() {
        a[at] = scale_xor_byte(a[at], b[at], factor);
        at += 1;
    }
}

/// Multiplies a block of 32 bytes by a factor.
fn scale_block(a: &mut [u8], at: usize, by: &Multiplier)
    requires { at + 32 ≤ length a.old }
    ensures { a.new ≡ put_chunk at a.old (map (product by.now.factor) (chunk at 32 a.old)) }
{
    by.times(load(a, at)).copy_to_slice(&mut a[at..]);
}

/// Multiplies a by factor: at each place `factor * a`, the product of the field.
#[tactic(auto, using(crate::proofs::Steps::done_start_alone, crate::proofs::Steps::done_all_alone))]
pub fn scale(a: &mut [u8], factor: u8)
    ensures { a.new ≡ map (product factor) a.old }
{
    let by = Multiplier::new(factor);
    let mut at = 0;
    while at + LANES <= a.len() {
        scale_block(a, at, &by);
        at += LANES;
    }
    while at < a.len() {
        a[at] = gf256::mul(factor, a[at]);
        at += 1;
    }
}

/// Fills a block of 32 bytes with the sum of two blocks, each times a factor.
fn weigh_block(to: &mut [u8], p: &[u8], by_p: &Multiplier, q: &[u8], by_q: &Multiplier, at: usize)
    requires to { at + 32 ≤ length to.old }
    requires p { at + 32 ≤ length p.now }
    requires q { at + 32 ≤ length q.now }
    ensures { to.new ≡ put_chunk at to.old (zip2 (weighed_sum by_p.now.factor by_q.now.factor) (chunk at 32 p.now) (chunk at 32 q.now)) }
{
    let part = by_p.times(load(p, at));
    (part ^ by_q.times(load(q, at))).copy_to_slice(&mut to[at..]);
}

/// The sum of two bytes, each times a factor.
fn weigh_byte(p: u8, by_p: u8, q: u8, by_q: u8) -> u8
    ensures { result ≡ weighed_sum by_p by_q p q }
{
    gf256::add(gf256::mul(by_p, p), gf256::mul(by_q, q))
}

/// Writes the sum of two lists, each times a factor: at each place `by_p * p + by_q * q`, the products and the sum of the
/// field. The three are equally long.
#[tactic(auto, using(crate::proofs::Steps::written_none, crate::proofs::Steps::written_all))]
pub fn weigh(to: &mut [u8], p: &[u8], by_p: &Multiplier, q: &[u8], by_q: &Multiplier)
    requires p { length to.old ≡ length p.now }
    requires q { length to.old ≡ length q.now }
    ensures { to.new ≡ zip2 (weighed_sum by_p.now.factor by_q.now.factor) p.now q.now }
{
    let mut at = 0;
    while at + LANES <= to.len() {
        weigh_block(to, p, by_p, q, by_q, at);
        at += LANES;
    }
    while at < to.len() {
        to[at] = weigh_byte(p[at], by_p.factor, q[at], by_q.factor);
        at += 1;
    }
}
