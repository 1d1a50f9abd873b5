//! Whether some relation of a row has the weights of a whole slot list.
ghost use Rattle.std.specs.Prelude.{ℕ, ◌≡◌, ◌<◌, ◌≤◌, false, length, slice_index, true};
ghost use Rattle.std.specs.Bool.{Decides};
ghost use Rattle.row_relations.specs.Rows.{AreBytes};
ghost use Rattle.relation_prefix.specs.Prefixes.{Holds, IsForeign};
ghost use Rattle.relation_prefix.specs.Systems.{sum_at};
ghost use Rattle.relation_prefix.specs.Ties.{coefficients_of, AreThere, CanHaveAll, FitTies, ForeignHaveNone, HasWeight, HaveAll, HaveWeights};

use crate::condition::MOST_TIES;
use crate::row_ties::RowTies;
use gf256::mul;

/// The weight of an image at a whole list: that of a slot that holds it, and 0 where none does.
#[inline]
fn image_weight(weights: &[u8], slots: &[Option<u8>], image: u8) -> u8
    requires weights { length slots.now ≤ length weights.now }
    ensures { (ties : RowTies) (x : ℕ → ℕ) → HaveAll ties weights.now (length slots.now) slots.now x → image < ties.images → HasWeight ties x image result }
{
    for slot in 0..slots.len() {
        if slots[slot] == Some(image) {
            return weights[slot];
        }
    }
    0
}

/// The values that the ties have at a whole list if they have some: the weights of their dependent images.
#[inline]
fn values_at(ties: &RowTies, weights: &[u8], slots: &[Option<u8>]) -> [u8; MOST_TIES]
    requires ties { FitTies ties.now }
    requires weights { length slots.now ≤ length weights.now }
    ensures bytes { AreBytes result }
    ensures values { (x : ℕ → ℕ) → HaveAll ties.now weights.now (length slots.now) slots.now x → (t : ℕ) → t < ties.now.count → x t ≡ slice_index result t }
{
    let mut values = [0u8; MOST_TIES];
    for t in 0..ties.count {
        values[t] = image_weight(weights, slots, ties.dependents[t]);
    }
    values
}

/// The sum of the values, each times the coefficient of an image.
#[inline]
fn weighed(ties: &RowTies, values: &[u8; MOST_TIES], image: usize) -> u8
    requires ties { FitTies ties.now }
    requires image { image < ties.now.images }
    ensures { result ≡ sum_at (coefficients_of ties.now image) (slice_index values.now) }
{
    let mut sum = 0;
    for t in 0..ties.count {
        sum ^= mul(ties.coefficients[image][t], values[t]);
    }
    sum
}

/// Whether an image has a weight by these values. An image of zeros has any.
#[inline]
fn has_weight(ties: &RowTies, values: &[u8; MOST_TIES], image: usize, weight: u8) -> bool
    requires ties { FitTies ties.now }
    requires image { image < ties.now.images }
    ensures { Decides result (HasWeight ties.now (slice_index values.now) image weight) }
{
    ties.zeros[image] || weighed(ties, values, image) == weight
}

/// Whether each image in a slot has the weight of its slot.
#[inline]
fn slots_fit(ties: &RowTies, values: &[u8; MOST_TIES], weights: &[u8], slots: &[Option<u8>]) -> bool
    requires ties { FitTies ties.now }
    requires weights { length slots.now ≤ length weights.now }
    requires slots { AreThere ties.now.images slots.now }
    ensures { Decides result (HaveWeights ties.now (slice_index values.now) weights.now slots.now (length slots.now)) }
{
    for slot in 0..slots.len() {
        if let Some(image) = slots[slot] {
            if !has_weight(ties, values, image as usize, weights[slot]) {
                return false;
            }
        }
    }
    true
}

/// Whether some slot holds an image.
fn is_held(slots: &[Option<u8>], image: usize) -> bool
    ensures held { result ≡ true → (slot : ℕ) × Holds slots.now slot image }
    ensures foreign { result ≡ false → IsForeign slots.now image }
{
    for slot in 0..slots.len() {
        if let Some(held) = slots[slot] {
            if held as usize == image {
                return true;
            }
        }
    }
    false
}

/// Whether each image in no slot has the weight 0.
fn foreign_fit(ties: &RowTies, values: &[u8; MOST_TIES], slots: &[Option<u8>]) -> bool
    requires ties { FitTies ties.now }
    ensures { Decides result (ForeignHaveNone ties.now (slice_index values.now) slots.now ties.now.images) }
{
    for image in 0..ties.images {
        if !is_held(slots, image) && !has_weight(ties, values, image, 0) {
            return false;
        }
    }
    true
}

/// Whether the ties have values with which each image in a slot has the weight of its slot, and each other image 0.
pub(crate) fn whole_fits(ties: &RowTies, weights: &[u8], slots: &[Option<u8>]) -> bool
    requires ties { FitTies ties.now }
    requires weights { length slots.now ≤ length weights.now }
    requires slots { AreThere ties.now.images slots.now }
    ensures { Decides result (CanHaveAll ties.now weights.now (length slots.now) slots.now) }
{
    let values = values_at(ties, weights, slots);
    slots_fit(ties, &values, weights, slots) && foreign_fit(ties, &values, slots)
}
