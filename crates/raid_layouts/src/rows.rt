//! The cells of a row.
ghost use Rattle.std.specs.Prelude.{◌≡◌, ◌<◌, length, IsTrue};
ghost use Rattle.raid_terms.specs.Cells.{part_of as part_of_slot, row_cells as row_cells_of, weight_at};
ghost use Rattle.raid_terms.specs.Exponent.{HoldsData};
ghost use Rattle.raid_params.specs.Validity.{is_valid_head};

use crate::exponents::exponent;
use crate::roles::{SlotRole, role};
use arrayvec::ArrayVec;
use raid_params::{Cell, Geometry, Head, Level, MOST, Part};

/// The exponent of the power of 2 by which Q weighs a data block, and 0 below level 6, where there is
/// no Q.
fn weight(head: &Head, row: u64, slot: u8) -> u8
    requires head { IsTrue (is_valid_head head.now) }
    requires slot { slot < head.now.members }
    requires holds { HoldsData head.now row slot }
    ensures { result ≡ weight_at head.now.level head.now row slot }
{
    match head.level {
        Level::Raid0 | Level::Raid5 => 0,
        Level::Raid6 => exponent(head, row, slot),
    }
}

/// What the block of a slot is in a row.
#[tactic(auto, using(crate::proofs::Parts::part_p, crate::proofs::Parts::part_q, crate::proofs::Parts::part_data))]
fn part_of(head: &Head, row: u64, slot: u8) -> Part
    requires head { IsTrue (is_valid_head head.now) }
    requires slot { slot < head.now.members }
    ensures { result ≡ part_of_slot head.now row slot }
{
    match role(head, row, slot) {
        SlotRole::Block(_) => Part::Block(weight(head, row, slot)),
        SlotRole::P => Part::P,
        SlotRole::Q => Part::Q,
    }
}

/// The cells of a row: for each slot, what its block is, and whether its member is missing. Below
/// level 6 all exponents are 0.
pub fn row_cells(geo: &Geometry, row: u64) -> ArrayVec<Cell, MOST>
    requires head { IsTrue (is_valid_head geo.now.head) }
    requires slots { length geo.now.slots.items ≡ geo.now.head.members }
    ensures { result.items ≡ row_cells_of geo.now row }
{
    let mut cells = ArrayVec::new();
    for (slot, held) in geo.slots.iter().enumerate() {
        cells.push(Cell {
            part: part_of(&geo.head, row, slot as u8),
            missing: held.is_none(),
        });
    }
    cells
}
