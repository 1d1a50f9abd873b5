//! One linear equation in the weights of the ties of a row.
ghost use Rattle.std.specs.Prelude.{ℕ, ◌≡◌, ◌<◌, bit_xor, length, slice_index};
ghost use Rattle.gf256.specs.Field.{product};
ghost use Rattle.row_relations.specs.Rows.{AreBytes};

use gf256::{add, mul};

/// The most ties of a row that prefixes are tested by.
pub const MOST_TIES: usize = 8;

/// What the weights of the ties have to meet: their sum, each times its coefficient, is the value.
#[derive(Clone, Copy)]
pub struct Condition {
    /// The coefficient of each tie.
    pub coefficients: [u8; MOST_TIES],
    /// The value of the sum.
    pub value: u8,
}

/// Adds a list times a factor.
fn add_times(to: &mut [u8; MOST_TIES], other: &[u8; MOST_TIES], factor: u8)
    ensures long { length to.new ≡ 8 }
    ensures bytes { AreBytes to.new }
    ensures sums { (t : ℕ) → t < 8 → slice_index to.new t ≡ bit_xor (slice_index to.old t) (product factor (slice_index other.now t)) }
{
    for at in 0..MOST_TIES {
        to[at] = add(to[at], mul(factor, other[at]));
    }
}

/// Multiplies a list by a factor.
fn times(to: &mut [u8; MOST_TIES], factor: u8)
    ensures long { length to.new ≡ 8 }
    ensures bytes { AreBytes to.new }
    ensures products { (t : ℕ) → t < 8 → slice_index to.new t ≡ product factor (slice_index to.old t) }
{
    for at in 0..MOST_TIES {
        to[at] = mul(factor, to[at]);
    }
}

impl Condition {
    /// Adds another one times a factor.
    pub(crate) fn add(&mut self, other: &Condition, factor: u8)
        ensures long { length self.new.coefficients ≡ 8 }
        ensures bytes { AreBytes self.new.coefficients }
        ensures sums { (t : ℕ) → t < 8 → slice_index self.new.coefficients t
            ≡ bit_xor (slice_index self.old.coefficients t) (product factor (slice_index other.now.coefficients t)) }
        ensures value { self.new.value ≡ bit_xor self.old.value (product factor other.now.value) }
        ensures fits { factor < 256 }
    {
        add_times(&mut self.coefficients, &other.coefficients, factor);
        self.value = add(self.value, mul(factor, other.value));
    }

    /// Multiplies it by a factor.
    pub(crate) fn scale(&mut self, factor: u8)
        ensures long { length self.new.coefficients ≡ 8 }
        ensures bytes { AreBytes self.new.coefficients }
        ensures products { (t : ℕ) → t < 8 → slice_index self.new.coefficients t ≡ product factor (slice_index self.old.coefficients t) }
        ensures value { self.new.value ≡ product factor self.old.value }
        ensures fits { factor < 256 }
    {
        times(&mut self.coefficients, factor);
        self.value = mul(factor, self.value);
    }
}
