//! Whether some relation of a row has given weights.
ghost use Rattle.std.specs.Prelude.{ℕ, ◌≡◌, ◌<◌, ◌≤◌, ◌↔◌, List, false, length, true};
ghost use Rattle.std.specs.Bool.{Decides};
ghost use Rattle.raid_params.specs.declared.types.Head.{Head};
ghost use Rattle.row_relations.specs.Tables.{Table, IsTable};
ghost use Rattle.relation_prefix.specs.declared.equation.Equation.{Equation};
ghost use Rattle.relation_prefix.specs.Prefixes.{Allows};
ghost use Rattle.relation_prefix.specs.Systems.{AreValues, IsTriangular, Solves};
ghost use Rattle.relation_prefix.specs.Sampled.{allows_by};
ghost use Rattle.relation_prefix.specs.Ties.{AreSlots, AreThere, AreTiesOf, AreWeightsOf, CanHaveAll, FitTies, HasWeight, HaveWeights};

use crate::condition::Condition;
use crate::demand::clashes;
use crate::row_ties::RowTies;
use crate::system::System;
use crate::whole::whole_fits;

/// Asks that an image has a weight. Images of zeros have any.
fn pin(ties: &RowTies, system: &mut System, image: usize, weight: u8) -> bool
    requires ties { FitTies ties.now }
    requires image { image < ties.now.images }
    requires triangular { IsTriangular system.old.conditions }
    ensures triangular { IsTriangular system.new.conditions }
    ensures pinned { result ≡ true → (x : ℕ → ℕ) → AreValues x →
        (Solves x system.new.conditions ↔ (Solves x system.old.conditions × HasWeight ties.now x image weight)) }
    ensures contradiction { result ≡ false → (x : ℕ → ℕ) → AreValues x → Solves x system.old.conditions → HasWeight ties.now x image weight → ⊥ }
{
    if ties.zeros[image] {
        return true;
    }
    let coefficients = ties.coefficients[image];
    let condition = Condition {
        coefficients,
        value: weight,
    };
    system.add(&condition)
}

/// Asks that each image in a slot has the weight of its slot.
fn pin_slots(ties: &RowTies, system: &mut System, weights: &[u8], slots: &[Option<u8>]) -> bool
    requires ties { FitTies ties.now }
    requires weights { length slots.now ≤ length weights.now }
    requires slots { AreThere ties.now.images slots.now }
    requires triangular { IsTriangular system.old.conditions }
    ensures triangular { IsTriangular system.new.conditions }
    ensures pinned { result ≡ true → (x : ℕ → ℕ) → AreValues x →
        (Solves x system.new.conditions ↔ (Solves x system.old.conditions × HaveWeights ties.now x weights.now slots.now (length slots.now))) }
    ensures contradiction { result ≡ false → (x : ℕ → ℕ) → AreValues x → Solves x system.old.conditions →
        HaveWeights ties.now x weights.now slots.now (length slots.now) → ⊥ }
{
    for slot in 0..slots.len() {
        if let Some(image) = slots[slot] {
            if !pin(ties, system, image as usize, weights[slot]) {
                return false;
            }
        }
    }
    true
}

/// Whether the ties have values with which each image in a slot has the weight of its slot, and once there are all slots each
/// other image 0.
fn can_have_all(ties: &RowTies, members: usize, weights: &[u8], slots: &[Option<u8>]) -> bool
    requires ties { FitTies ties.now }
    requires weights { length slots.now ≤ length weights.now }
    requires members { length slots.now ≤ members }
    requires slots { AreThere ties.now.images slots.now }
    ensures { Decides result (CanHaveAll ties.now weights.now members slots.now) }
{
    if slots.len() >= members {
        return whole_fits(ties, weights, slots);
    }
    if clashes(ties, weights, slots) {
        return false;
    }
    let mut system = System::new();
    pin_slots(ties, &mut system, weights, slots)
}

/// Whether some relation of the row may be an equation, where the slots of a set of so many members begin so. `weights` are the
/// weights of these slots in this equation.
pub(crate) fn allows(ties: &RowTies, members: usize, weights: &[u8], slots: &[Option<u8>]) -> bool
    requires ties { FitTies ties.now }
    requires weights { length slots.now ≤ length weights.now }
    requires members { length slots.now ≤ members }
    requires slots { AreThere ties.now.images slots.now }
    ensures of_table { (sectors : List ℕ) (table : Table) (head : Head) (row : ℕ) (equation : Equation) → AreTiesOf table ties.now → IsTable ties.now.images sectors table →
        AreSlots ties.now.images slots.now → head.members ≡ members → AreWeightsOf head row equation (length slots.now) weights.now →
        Decides result (Allows ties.now.images table head row slots.now equation) }
    ensures by_ties { (head : Head) (row : ℕ) (equation : Equation) → head.members ≡ members → AreWeightsOf head row equation (length slots.now) weights.now →
        result ≡ allows_by ties.now head row slots.now equation }
{
    can_have_all(ties, members, weights, slots)
}
