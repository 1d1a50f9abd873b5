//! The five operations.

ghost use Rattle.std.specs.Prelude.{ℕ, ◌≡◌, ◌≢◌, ◌<◌, ◌^◌, bit_xor};
ghost use Rattle.gf256.specs.Field.{product, power_of};

use crate::tables::{LOGARITHMS, PERIOD, POWERS};

/// The sum of two bytes, which is their difference too.
pub fn add(a: u8, b: u8) -> u8
    ensures { result ≡ bit_xor a b }
{
    a ^ b
}

/// The product of two bytes.
#[tactic(auto, using(crate::proofs::Products::product_zero_left, crate::proofs::Products::product_zero, crate::proofs::Powers::by_logarithms))]
pub fn mul(a: u8, b: u8) -> u8
    ensures { result ≡ product a b }
{
    if a == 0 || b == 0 {
        0
    } else {
        let sum = LOGARITHMS[a as usize] as usize + LOGARITHMS[b as usize] as usize;
        POWERS[sum % PERIOD]
    }
}

/// 2 multiplied k times: 1 at 0, 2 at 1, and 1 again at 255.
#[tactic(auto, using(crate::proofs::Powers::power_small))]
pub fn power(k: u8) -> u8
    ensures { result ≡ power_of k }
{
    POWERS[k as usize % PERIOD]
}

/// The one byte whose product with a is 1. 0 has none, so a is not 0.
#[tactic(auto, using(crate::proofs::Powers::by_logarithm_inverse, crate::proofs::Undoing::only_inverse))]
pub fn inverse(a: u8) -> u8
    requires { a ≢ 0 }
    ensures inverse { product a result ≡ 1 }
    ensures only { (x : ℕ) → x < 2 ^ 8 → product a x ≡ 1 → x ≡ result }
{
    let logarithm = LOGARITHMS[a as usize] as usize;
    POWERS[(PERIOD - logarithm) % PERIOD]
}

/// The one byte whose product with b is a. b is not 0.
#[tactic(auto, using(crate::proofs::Undoing::undoes, crate::proofs::Undoing::only_quotient))]
pub fn divide(a: u8, b: u8) -> u8
    requires { b ≢ 0 }
    ensures quotient { product result b ≡ a }
    ensures only { (x : ℕ) → x < 2 ^ 8 → product x b ≡ a → x ≡ result }
{
    mul(a, inverse(b))
}
