//! Conditions on the weights of the ties of a row, one after the other.
ghost use Rattle.std.specs.Prelude.{ℕ, ◌≡◌, ◌<◌, ◌↔◌, List, false, slice_index_or, true, None};
ghost use Rattle.row_relations.specs.Rows.{AreBytes};
ghost use Rattle.relation_prefix.specs.Systems.{AreValues, IsSolvable, IsTriangular, Meets, Solves};

use crate::condition::{Condition, MOST_TIES};
use gf256::inverse;

/// Conditions that some weights of the ties meet together. That at place t begins with a 1 at tie t.
#[derive(Clone, Copy)]
pub struct System {
    conditions: [Option<Condition>; MOST_TIES],
}

impl System {
    /// No condition.
    pub fn new() -> System
        ensures none { (t : ℕ) → slice_index_or result.conditions t None ≡ None }
        ensures triangular { IsTriangular result.conditions }
    {
        System {
            conditions: [None; MOST_TIES],
        }
    }

    /// Adds a condition, unless it contradicts those that are there.
    pub fn add(&mut self, condition: &Condition) -> bool
        requires triangular { IsTriangular self.old.conditions }
        requires bytes { AreBytes condition.now.coefficients }
        requires value { condition.now.value < 256 }
        ensures triangular { IsTriangular self.new.conditions }
        ensures added { result ≡ true → (x : ℕ → ℕ) → AreValues x → (Solves x self.new.conditions ↔ (Solves x self.old.conditions × Meets x condition.now)) }
        ensures contradiction { result ≡ false → (x : ℕ → ℕ) → AreValues x → Solves x self.old.conditions → Meets x condition.now → ⊥ }
        ensures same { result ≡ false → self.new.conditions ≡ self.old.conditions }
        ensures solvable { IsSolvable self.new.conditions }
    {
        let mut rest = *condition;
        for at in 0..MOST_TIES {
            let factor = rest.coefficients[at];
            if factor != 0 {
                let known = self.conditions[at];
                if let Some(known) = known {
                    rest.add(&known, factor);
                } else {
                    rest.scale(inverse(factor));
                    self.conditions[at] = Some(rest);
                    return true;
                }
            }
        }
        rest.value == 0
    }
}
