//! The weights of the slots of a head in the equations of a row.
ghost use Rattle.std.specs.Prelude.{ℕ, ◌≡◌, ◌<◌, ◌≤◌, IsTrue, length};
ghost use Rattle.raid_params.specs.Validity.{is_valid_head};
ghost use Rattle.raid_params.specs.declared.types.Head.{Head as HeadOf};
ghost use Rattle.raid_params.specs.declared.types.Part.{Part as PartOf};
ghost use Rattle.raid_terms.specs.Cells.{part_of};
ghost use Rattle.relation_prefix.specs.Equations.{left_without, weight_in, weight_in_p, weight_in_q};
ghost use Rattle.relation_prefix.specs.Sampled.{AreRowWeights};
ghost use Rattle.relation_prefix.specs.Ties.{AreWeightsOf};

use gf256::{add, mul, power};
use raid_layouts::row_cells;
use raid_params::{Geometry, Head, MOST, Part, Slots};

/// The weights of the slots in both equations of a row of chunks.
#[derive(Clone, Copy)]
pub struct RowWeights {
    /// In P's.
    pub p: [u8; MOST],
    /// In Q's.
    pub q: [u8; MOST],
}

/// The weight of a block in P's equation.
fn p_weight(part: Part) -> u8
    ensures { result ≡ weight_in_p part }
{
    match part {
        Part::Block(_) | Part::P => 1,
        Part::Q => 0,
    }
}

/// Its weight in Q's.
fn q_weight(part: Part) -> u8
    ensures { result ≡ weight_in_q part }
{
    match part {
        Part::Block(k) => power(k),
        Part::P => 0,
        Part::Q => 1,
    }
}

/// The weight of a block in the equation that is left where another one is lost, by the weights of both.
fn left_weight(p: u8, q: u8, lost_p: u8, lost_q: u8) -> u8
    ensures { (part lost : PartOf) → p ≡ weight_in_p part → q ≡ weight_in_q part → lost_p ≡ weight_in_p lost → lost_q ≡ weight_in_q lost →
        result ≡ weight_in (left_without lost) part }
{
    if lost_p == 0 {
        p
    } else {
        add(q, mul(lost_q, p))
    }
}

/// The set of a head with all slots empty.
fn empty_set(head: &Head) -> Geometry
    requires { head.now.members ≤ MOST }
    ensures head { result.head ≡ head.now }
    ensures slots { length result.slots.items ≡ head.now.members }
{
    let mut slots = Slots::new();
    for _ in 0..head.members {
        slots.push(None);
    }
    Geometry { head: *head, slots }
}

impl RowWeights {
    /// No weights.
    pub const NONE: RowWeights = RowWeights {
        p: [0; MOST],
        q: [0; MOST],
    };

    /// Those of a row of chunks.
    pub fn of(head: &Head, row: u64) -> RowWeights
        requires { IsTrue (is_valid_head head.now) }
        ensures { AreRowWeights head.now row result }
    {
        let geo = empty_set(head);
        let cells = row_cells(&geo, row);
        let mut weights = RowWeights::NONE;
        for slot in 0..cells.len() {
            weights.p[slot] = p_weight(cells[slot].part);
            weights.q[slot] = q_weight(cells[slot].part);
        }
        weights
    }

    /// The weights of the first `count` slots in the equation that is left where one slot alone is lost.
    pub(crate) fn left_without(&self, lost: usize, count: usize) -> [u8; MOST]
        requires lost { lost < MOST }
        requires count { count ≤ MOST }
        ensures long { length result ≡ MOST }
        ensures weights { (head : HeadOf) (row : ℕ) → AreRowWeights head row self.now → lost < head.members → count ≤ head.members →
            AreWeightsOf head row (left_without (part_of head row lost)) count result }
    {
        let mut left = [0u8; MOST];
        for slot in 0..count {
            left[slot] = left_weight(self.p[slot], self.q[slot], self.p[lost], self.q[lost]);
        }
        left
    }
}
