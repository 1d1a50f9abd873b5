//! The first byte that is not 0.

ghost use Rattle.std.specs.Prelude.{ℕ, ◌≡◌, ◌≢◌, ◌+◌, ◌≤◌, ◌<◌, length, slice_index, All, MatchOption, IsTrue, false};

use crate::LANES;
use std::simd::prelude::*;

/// Whether a block of 32 bytes is zeros.
fn is_zero_block(a: &[u8], at: usize) -> bool
    requires { at + 32 ≤ length a.now }
    ensures zeros { IsTrue result → (k : ℕ) → at ≤ k → k < at + 32 → slice_index a.now k ≡ 0 }
    ensures other { result ≡ false → (k : ℕ) × (at ≤ k) × (k < at + 32) × (slice_index a.now k ≢ 0) }
{
    let lanes = u8x32::from_slice(&a[at..]);
    lanes.simd_ne(u8x32::splat(0)).to_bitmask() == 0
}

/// The first place whose byte is not 0, or None where all bytes are 0.
pub fn first_nonzero(a: &[u8]) -> Option<usize>
    ensures { MatchOption result (All (λ x. x ≡ 0) a.now)
        (λ i. (i < length a.now) × (slice_index a.now i ≢ 0) × ((k : ℕ) → k < i → slice_index a.now k ≡ 0)) }
{
    let mut at = 0;
    while at + LANES <= a.len() {
        if !is_zero_block(a, at) {
            break;
        }
        at += LANES;
    }
    while at < a.len() {
        if a[at] != 0 {
            return Some(at);
        }
        at += 1;
    }
    None
}
