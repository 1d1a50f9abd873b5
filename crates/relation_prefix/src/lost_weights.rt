//! What a row says of the lost slot, whichever it is, where the slots of a set begin so.
ghost use Rattle.std.specs.Prelude.{ℕ, ◌≡◌, ◌<◌, ◌≤◌, IfSome, bit_xor, length};
ghost use Rattle.gf256.specs.Field.{product};
ghost use Rattle.raid_params.specs.declared.types.Part.{Part};
ghost use Rattle.relation_prefix.specs.Equations.{weight_in_p, weight_in_q};
ghost use Rattle.relation_prefix.specs.Joint.{AsksOf, HaveSums, MeetsSum, TellsLost};
ghost use Rattle.relation_prefix.specs.Ties.{AreThere, FitTies};

use crate::condition::MOST_TIES;
use crate::joint::JointCondition;
use crate::row_ties::RowTies;
use crate::weights::RowWeights;
use gf256::divide;

/// The weights of the lost slot in P's equation and in Q's.
#[derive(Clone, Copy)]
pub struct LostWeights {
    /// In P's.
    pub p: u8,
    /// In Q's.
    pub q: u8,
}

/// The weights of the one block without which values come to 0, unless they are 0 with each.
fn told(left: &JointCondition) -> Option<LostWeights>
    ensures some { IfSome result (λ lost. left.now.p ≡ 0 → left.now.q ≡ 0 → ⊥) }
    ensures lost { IfSome result (λ lost. (part : Part) → bit_xor (product (weight_in_p part) left.now.q) (product (weight_in_q part) left.now.p) ≡ 0 →
        (weight_in_p part ≡ lost.p) × (weight_in_q part ≡ lost.q)) }
{
    if left.p != 0 {
        return Some(LostWeights {
            p: 1,
            q: divide(left.q, left.p),
        });
    }
    if left.q != 0 {
        return Some(LostWeights { p: 0, q: 1 });
    }
    None
}

/// What the image in a slot asks, if there is one.
fn asked_at(
    ties: &RowTies,
    weights: &RowWeights,
    slots: &[Option<u8>],
    slot: usize,
) -> Option<JointCondition>
    requires ties { FitTies ties.now }
    requires slots { AreThere ties.now.images slots.now }
    requires short { length slots.now ≤ 24 }
    requires slot { slot < length slots.now }
    ensures asks { IfSome result (AsksOf ties.now.count) }
    ensures met { (x : ℕ → ℕ) (a b : ℕ) → HaveSums ties.now weights.now slots.now x a b → IfSome result (MeetsSum x a b) }
{
    let Some(image) = slots[slot] else {
        return None;
    };
    JointCondition::of(ties, image as usize, weights.p[slot], weights.q[slot])
}

/// The weights that the lost slot has in the equations of a row if one is lost and the slots of a set begin so, where the images in them
/// tell. Both equations are taken from one another at once, image by image: what one of them then asks of the ties no more it asks of the
/// lost slot.
pub(crate) fn lost_weights(
    ties: &RowTies,
    weights: &RowWeights,
    slots: &[Option<u8>],
) -> Option<LostWeights>
    requires ties { FitTies ties.now }
    requires slots { AreThere ties.now.images slots.now }
    requires short { length slots.now ≤ 24 }
    ensures { IfSome result (TellsLost ties.now weights.now slots.now) }
{
    let mut known: [Option<JointCondition>; MOST_TIES] = [None; MOST_TIES];
    for slot in 0..slots.len() {
        if let Some(asked) = asked_at(ties, weights, slots, slot) {
            if let Some(left) = asked.reduced(&mut known, ties.count) {
                if let Some(lost) = told(&left) {
                    return Some(lost);
                }
            }
        }
    }
    None
}
