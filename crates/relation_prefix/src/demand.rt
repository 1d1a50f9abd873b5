//! What the images of a prefix ask of the first tie of a row alone.
ghost use Rattle.std.specs.Prelude.{ℕ, ◌≡◌, ◌<◌, ◌≤◌, IfSome, false, length, slice_index, true};
ghost use Rattle.relation_prefix.specs.Systems.{AreValues, AsksFirst};
ghost use Rattle.relation_prefix.specs.Ties.{AreThere, FitTies, HasWeight, HaveWeights};

use crate::condition::MOST_TIES;
use crate::row_ties::RowTies;
use gf256::mul;

/// What is asked of the weight of the first tie: this, times the coefficient, is the value.
#[derive(Clone, Copy)]
pub struct Demand {
    /// The coefficient.
    pub coefficient: u8,
    /// The value.
    pub value: u8,
}

/// Whether all coefficients but the first are 0.
fn is_first_alone(coefficients: &[u8; MOST_TIES]) -> bool
    ensures { result ≡ true → (t : ℕ) → t < 8 → 0 < t → slice_index coefficients.now t ≡ 0 }
{
    for t in 1..MOST_TIES {
        if coefficients[t] != 0 {
            return false;
        }
    }
    true
}

/// What an image that is to have a weight asks, if it is in the first tie and no other.
fn demand_of(ties: &RowTies, image: usize, weight: u8) -> Option<Demand>
    requires ties { FitTies ties.now }
    requires image { image < ties.now.images }
    ensures { (x : ℕ → ℕ) → HasWeight ties.now x image weight → IfSome result (AsksFirst x) }
{
    if ties.zeros[image] {
        return None;
    }
    let coefficients = ties.coefficients[image];
    if !is_first_alone(&coefficients) {
        return None;
    }
    Some(Demand {
        coefficient: coefficients[0],
        value: weight,
    })
}

/// What the image in a slot asks, if there is one.
fn demand_at(ties: &RowTies, weights: &[u8], slots: &[Option<u8>], slot: usize) -> Option<Demand>
    requires ties { FitTies ties.now }
    requires weights { length slots.now ≤ length weights.now }
    requires slots { AreThere ties.now.images slots.now }
    requires slot { slot < length slots.now }
    ensures { (x : ℕ → ℕ) → HaveWeights ties.now x weights.now slots.now (length slots.now) → IfSome result (AsksFirst x) }
{
    let Some(image) = slots[slot] else {
        return None;
    };
    demand_of(ties, image as usize, weights[slot])
}

/// Whether some weight may meet two demands.
fn agree(one: &Demand, other: &Demand) -> bool
    ensures { result ≡ false → (x : ℕ → ℕ) → AreValues x → AsksFirst x one.now → AsksFirst x other.now → ⊥ }
{
    mul(one.coefficient, other.value) == mul(other.coefficient, one.value)
}

/// Whether a demand, if there is one, can be met with the first, which it is where there was none.
fn agrees(first: &mut Option<Demand>, demand: Option<Demand>) -> bool
    ensures clash { result ≡ false → (x : ℕ → ℕ) → AreValues x → IfSome first.old (AsksFirst x) → IfSome demand (AsksFirst x) → ⊥ }
    ensures first { (x : ℕ → ℕ) → IfSome first.old (AsksFirst x) → IfSome demand (AsksFirst x) → IfSome first.new (AsksFirst x) }
{
    let Some(own) = demand else {
        return true;
    };
    if let Some(known) = *first {
        return agree(&known, &own);
    }
    *first = Some(own);
    true
}

/// Whether two images of a prefix ask of the first tie what no weight of it meets. Where rows have one tie, as rows of a RAID 6 with one
/// lost do, this tells nearly all that refuse, sooner than a system does.
pub(crate) fn clashes(ties: &RowTies, weights: &[u8], slots: &[Option<u8>]) -> bool
    requires ties { FitTies ties.now }
    requires weights { length slots.now ≤ length weights.now }
    requires slots { AreThere ties.now.images slots.now }
    ensures { result ≡ true → (x : ℕ → ℕ) → AreValues x → HaveWeights ties.now x weights.now slots.now (length slots.now) → ⊥ }
{
    let mut first: Option<Demand> = None;
    for slot in 0..slots.len() {
        let demand = demand_at(ties, weights, slots, slot);
        if !agrees(&mut first, demand) {
            return true;
        }
    }
    false
}
