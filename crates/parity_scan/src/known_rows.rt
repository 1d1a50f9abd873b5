//! Rows of a run whose verdicts are known.
ghost use Rattle.std.specs.Prelude.{◌≡◌, IfSome, IsTrue};
ghost use Rattle.std.specs.Bool.{Decides};
ghost use Rattle.member_regions.specs.Regions.{Room};
ghost use Rattle.parity_scan.specs.Equations.{AreKnown, IsMet};

use crate::equations::Factors;
use member_regions::BLOCK;

/// An equation, and whether the sectors at a place meet it.
#[derive(Clone, Copy)]
pub struct KnownRow {
    /// The factors of the equation.
    pub factors: Factors,
    /// Whether it is met.
    pub is_sound: bool,
}

/// What is known of the rows at the places of a run: of each place the equation that was tested last. Sets that are alike have
/// the same equations, so that a row is tested for one of them alone.
#[derive(Drop)]
pub struct KnownRows {
    /// Whether equations are asked for at all.
    pub are_kept: bool,
    /// The equation of each place.
    pub rows: [Option<KnownRow>; BLOCK],
}

impl KnownRows {
    /// Rows of which none is known.
    pub fn none(are_kept: bool) -> KnownRows
        ensures { (room : Room) → AreKnown room result }
    {
        KnownRows {
            are_kept,
            rows: [None; BLOCK],
        }
    }

    /// Whether the sectors at a place meet an equation, where that is known.
    pub fn told(&self, factors: &Factors, place: usize) -> Option<bool>
        ensures { (room : Room) → AreKnown room self.now → IfSome result (λ met. Decides met (IsMet room place factors.now)) }
    {
        let row = (*self.rows.get(place)?)?;
        if row.factors != *factors {
            return None;
        }
        Some(row.is_sound)
    }

    /// Notes whether the sectors at a place meet an equation.
    pub fn note(&mut self, factors: &Factors, place: usize, is_sound: bool)
        ensures { (room : Room) → AreKnown room self.old → Decides is_sound (IsMet room place factors.now) → AreKnown room self.new }
    {
        if place < BLOCK {
            self.rows[place] = Some(KnownRow {
                factors: *factors,
                is_sound,
            });
        }
    }
}
