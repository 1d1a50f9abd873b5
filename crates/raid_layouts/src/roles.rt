//! The roles of slots.
ghost use Rattle.std.specs.Prelude.{◌≡◌, ◌≢◌, ◌<◌, IsTrue};
ghost use Rattle.raid_layouts.specs.Roles.{meant};
ghost use Rattle.raid_params.specs.Validity.{is_valid_head};
ghost use Rattle.raid_terms.specs.Role.{HasRole, item_of, p_of, q_of, turn as turn_of};
ghost use Rattle.raid_params.specs.Size.{data_blocks};

use crate::items::{double_item_at, single_item_at};
use crate::parity::{double_item, double_p, double_q, single_item, single_p};
use raid_params::{Head, Level};

/// What a slot is for in a row.
#[derive(Clone, Copy, Debug, PartialEq, Eq)]
pub enum SlotRole {
    /// It holds this data item of the row, counted from 0.
    Block(u8),
    /// It holds the parity P.
    P,
    /// It holds the syndrome Q.
    Q,
}

/// The turn of a row, by which its layout goes: parity stays for some rows before it moves on.
pub fn turn(head: &Head, row: u64) -> u64
    requires { IsTrue (is_valid_head head.now) }
    ensures { result ≡ turn_of head.now row }
{
    row / head.delay
}

/// The slot of P in a row, None exactly at level 0.
#[tactic(auto, using(crate::proofs::Levels::enough, crate::proofs::Levels::at_most))]
pub fn p_slot(head: &Head, row: u64) -> Option<u8>
    requires { IsTrue (is_valid_head head.now) }
    ensures { result ≡ p_of head.now row }
{
    match head.level {
        Level::Raid0 => None,
        Level::Raid5 => Some(single_p(head.pattern, head.members, turn(head, row))),
        Level::Raid6 => Some(double_p(head.pattern, head.members, turn(head, row))),
    }
}

/// The slot of Q in a row, None exactly below level 6.
#[tactic(auto, using(crate::proofs::Levels::enough, crate::proofs::Levels::at_most))]
pub fn q_slot(head: &Head, row: u64) -> Option<u8>
    requires { IsTrue (is_valid_head head.now) }
    ensures { result ≡ q_of head.now row }
{
    match head.level {
        Level::Raid0 | Level::Raid5 => None,
        Level::Raid6 => Some(double_q(head.pattern, head.members, turn(head, row))),
    }
}

/// The slot of a data item in a row.
#[tactic(auto, using(crate::proofs::Levels::enough, crate::proofs::Levels::at_most, crate::proofs::Levels::item_below))]
pub fn slot_of_item(head: &Head, row: u64, item: u8) -> u8
    requires head { IsTrue (is_valid_head head.now) }
    requires item { item < data_blocks head.now }
    ensures there { result ≡ item_of head.now row item }
    ensures below { result < head.now.members }
{
    match head.level {
        Level::Raid0 => item,
        Level::Raid5 => single_item(head.pattern, head.members, turn(head, row), item),
        Level::Raid6 => double_item(head.pattern, head.members, turn(head, row), item),
    }
}

/// The data item of a slot that holds no parity.
#[tactic(auto, using(crate::proofs::Levels::enough, crate::proofs::Levels::at_most))]
pub(crate) fn item_of_slot(head: &Head, row: u64, slot: u8) -> u8
    requires head { IsTrue (is_valid_head head.now) }
    requires slot { slot < head.now.members }
    requires not_p { p_of head.now row ≢ Some slot }
    requires not_q { q_of head.now row ≢ Some slot }
    ensures below { result < data_blocks head.now }
    ensures there { slot ≡ item_of head.now row result }
{
    match head.level {
        Level::Raid0 => slot,
        Level::Raid5 => single_item_at(head.pattern, head.members, turn(head, row), slot),
        Level::Raid6 => double_item_at(head.pattern, head.members, turn(head, row), slot),
    }
}

/// What a slot is for in a row: P, Q, or a data item by its number.
pub fn role(head: &Head, row: u64, slot: u8) -> SlotRole
    requires head { IsTrue (is_valid_head head.now) }
    requires slot { slot < head.now.members }
    ensures { HasRole head.now row slot (meant result) }
{
    if p_slot(head, row) == Some(slot) {
        SlotRole::P
    } else if q_slot(head, row) == Some(slot) {
        SlotRole::Q
    } else {
        SlotRole::Block(item_of_slot(head, row, slot))
    }
}
