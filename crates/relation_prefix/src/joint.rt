//! Linear equations in the weights of the ties of a row, each with a value by P's weights and one by Q's.
ghost use Rattle.std.specs.Prelude.{ℕ, ◌≡◌, ◌<◌, ◌≤◌, IfSome, bit_xor, slice_index};
ghost use Rattle.gf256.specs.Field.{product};
ghost use Rattle.row_relations.specs.Rows.{AreBytes};
ghost use Rattle.relation_prefix.specs.Joint.{AreSteps, AsksOf, IsJointSum, MeetsSum, MeetSums};
ghost use Rattle.relation_prefix.specs.Ties.{FitTies, HasWeight};

use crate::condition::MOST_TIES;
use crate::row_ties::RowTies;
use gf256::{add, mul};

/// What the weights of the ties have to meet in each sum of multiples of both equations: their sum, each times its coefficient, is that
/// of the values.
#[derive(Clone, Copy)]
pub struct JointCondition {
    /// The coefficient of each tie.
    pub coefficients: [u8; MOST_TIES],
    /// The value by P's weights.
    pub p: u8,
    /// The value by Q's.
    pub q: u8,
}

/// The sum of two bytes, each times a factor.
fn weighed(f: u8, one: u8, g: u8, other: u8) -> u8
    ensures { result ≡ bit_xor (product f one) (product g other) }
{
    add(mul(f, one), mul(g, other))
}

/// The sum of two lists over the first `count` ties, each times a factor.
fn weighed_lists(
    f: u8,
    one: &[u8; MOST_TIES],
    g: u8,
    other: &[u8; MOST_TIES],
    count: usize,
) -> [u8; MOST_TIES]
    requires count { count ≤ MOST_TIES }
    requires one { (t : ℕ) → count ≤ t → slice_index one.now t ≡ 0 }
    requires other { (t : ℕ) → count ≤ t → slice_index other.now t ≡ 0 }
    ensures bytes { AreBytes result }
    ensures sums { (t : ℕ) → slice_index result t ≡ bit_xor (product f (slice_index one.now t)) (product g (slice_index other.now t)) }
{
    let mut sums = [0u8; MOST_TIES];
    for t in 0..count {
        sums[t] = weighed(f, one[t], g, other[t]);
    }
    sums
}

impl JointCondition {
    /// What an image asks that is to have these weights. One of zeros asks nothing.
    pub(crate) fn of(ties: &RowTies, image: usize, p: u8, q: u8) -> Option<JointCondition>
        requires ties { FitTies ties.now }
        requires image { image < ties.now.images }
        ensures asks { IfSome result (AsksOf ties.now.count) }
        ensures met { (x : ℕ → ℕ) (a b : ℕ) → HasWeight ties.now x image (bit_xor (product a q) (product b p)) → IfSome result (MeetsSum x a b) }
    {
        if ties.zeros[image] {
            return None;
        }
        let coefficients = ties.coefficients[image];
        Some(JointCondition { coefficients, p, q })
    }

    /// The sum of it and another one, each times a factor.
    fn plus(&self, f: u8, other: &JointCondition, g: u8, count: usize) -> JointCondition
        requires count { count ≤ MOST_TIES }
        requires own { AsksOf count self.now }
        requires other { AsksOf count other.now }
        ensures asks { AsksOf count result }
        ensures sum { IsJointSum f self.now g other.now result }
    {
        JointCondition {
            coefficients: weighed_lists(f, &self.coefficients, g, &other.coefficients, count),
            p: weighed(f, self.p, g, other.p),
            q: weighed(f, self.q, g, other.q),
        }
    }

    /// Takes from it what is known of the ties, so that it asks of one tie after the other no more. Where nothing is known of the first one
    /// that is left it is known from now on; else what is left asks of no tie, but of the values alone.
    pub(crate) fn reduced(
        &self,
        known: &mut [Option<JointCondition>; MOST_TIES],
        count: usize,
    ) -> Option<JointCondition>
        requires count { count ≤ MOST_TIES }
        requires own { AsksOf count self.now }
        requires known { AreSteps count known.old }
        ensures known { AreSteps count known.new }
        ensures kept { (x : ℕ → ℕ) (a b : ℕ) → a < 256 → b < 256 → MeetSums x a b known.old → MeetsSum x a b self.now → MeetSums x a b known.new }
        ensures values { (x : ℕ → ℕ) (a b : ℕ) → a < 256 → b < 256 → MeetSums x a b known.old → MeetsSum x a b self.now →
            IfSome result (λ left. bit_xor (product a left.q) (product b left.p) ≡ 0) }
    {
        let mut rest = *self;
        for at in 0..count {
            let own = rest.coefficients[at];
            if own != 0 {
                let Some(first) = known[at] else {
                    known[at] = Some(rest);
                    return None;
                };
                rest = rest.plus(first.coefficients[at], &first, own, count);
            }
        }
        Some(rest)
    }
}
