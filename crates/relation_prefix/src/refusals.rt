//! How many rows refuse a prefix, whichever slot is lost: all slots are asked of a row together.
ghost use Rattle.std.specs.Prelude.{ℕ, ◌≡◌, ◌+◌, ◌<◌, ◌≤◌, ◌^◌, All, IfSome, false, length, slice_index, true, List};
ghost use Rattle.std.specs.declared.option.Option.{Option as OptionOf};
ghost use Rattle.relation_prefix.specs.declared.sampled.SampledRow.{SampledRow as Row};
ghost use Rattle.relation_prefix.specs.Joint.{AreRefusals};
ghost use Rattle.relation_prefix.specs.Sampled.{few_refuse, is_raid6, CanTest};
ghost use Rattle.relation_prefix.specs.Ties.{AreThere};

use crate::lost_weights::{LostWeights, lost_weights};
use crate::sampled::{PrefixTest, SampledRow};
use crate::weights::RowWeights;
use raid_params::MOST;

/// How many rows at least refuse that the slots of a set begin so: with no slot lost, and with each one alone.
#[derive(Clone, Copy)]
pub struct Refusals {
    /// With none lost.
    pub whole: u64,
    /// With this one alone.
    pub lost: [u64; MOST],
}

impl Refusals {
    /// No row is known to.
    const NONE: Refusals = Refusals {
        whole: 0,
        lost: [0; MOST],
    };

    /// Counts a row that tells the weights of the lost slot, for the slots from `first` on. Says whether no more than `most` refuse with
    /// some one of them, or with none.
    fn count(
        &mut self,
        weights: &RowWeights,
        lost: &LostWeights,
        first: usize,
        members: usize,
        most: u64,
    ) -> bool
        requires members { members ≤ 24 }
        requires whole { self.old.whole < 2 ^ 63 }
        requires lost { (slot : ℕ) → slice_index self.old.lost slot < 2 ^ 63 }
        ensures whole { self.new.whole ≡ self.old.whole + 1 }
        ensures lost { (slot : ℕ) → slice_index self.new.lost slot ≤ slice_index self.old.lost slot + 1 }
        ensures same { (slot : ℕ) → slice_index weights.now.p slot ≡ lost.now.p → slice_index weights.now.q slot ≡ lost.now.q →
            slice_index self.new.lost slot ≡ slice_index self.old.lost slot }
        ensures all { result ≡ false → (most < self.new.whole) × ((slot : ℕ) → first ≤ slot → slot < members → most < slice_index self.new.lost slot) }
    {
        self.whole += 1;
        let mut stands = self.whole <= most;
        for slot in first..members {
            if weights.p[slot] != lost.p || weights.q[slot] != lost.q {
                self.lost[slot] += 1;
            }
            if self.lost[slot] <= most {
                stands = true;
            }
        }
        stands
    }

    /// Those of some rows, as far as they tell the weights of a lost slot that is still to come. No more rows are asked once more refuse
    /// than may with each.
    pub(crate) fn of(
        rows: &[SampledRow],
        weights: &[RowWeights],
        test: &PrefixTest,
        slots: &[Option<u8>],
    ) -> Refusals
        requires can { CanTest test.now.head rows.now weights.now }
        requires slots { All (λ sampled. AreThere sampled.ties.images slots.now) rows.now }
        requires short { length slots.now ≤ test.now.head.members }
        requires level { is_raid6 test.now.head.level ≡ true }
        ensures { AreRefusals rows.now test.now slots.now result }
    {
        let mut refusals = Refusals::NONE;
        let members = test.head.members as usize;
        for number in 0..rows.len() {
            if rows[number].row < test.tested {
                let own = &weights[number];
                if let Some(lost) = lost_weights(&rows[number].ties, own, slots) {
                    if !refusals.count(own, &lost, slots.len(), members, test.badrows) {
                        return refusals;
                    }
                }
            }
        }
        refusals
    }

    /// Whether more rows are known to refuse than may be unsound, with this slot alone lost, or none.
    pub(crate) fn are_many(&self, test: &PrefixTest, lost: Option<u8>) -> bool
        requires few { test.now.head.members ≤ 24 }
        requires lost { IfSome lost (λ slot. slot < test.now.head.members) }
        ensures { result ≡ true → (rows : List Row) (slots : List (OptionOf ℕ)) → AreRefusals rows test.now slots self.now → few_refuse rows test.now slots lost ≡ false }
    {
        match lost {
            Some(slot) => self.lost[slot as usize] > test.badrows,
            None => self.whole > test.badrows,
        }
    }
}
