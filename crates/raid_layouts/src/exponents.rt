//! The exponents of the data blocks of a row.
ghost use Rattle.std.specs.Prelude.{◌≡◌, ◌≢◌, ◌<◌, ◌≤◌, IsTrue};
ghost use Rattle.raid_params.specs.declared.types.Level.TheVariants.{Raid6};
ghost use Rattle.raid_terms.specs.Exponent.{HoldsData, exponent_of, number_after_q as number_after_q_of};
ghost use Rattle.raid_params.specs.Validity.{is_valid_head};
ghost use Rattle.raid_terms.specs.Role.{p_of, q_of, double_p as double_p_of, double_q as double_q_of};

use crate::items::slots_between;
use crate::parity::{double_p, double_q};
use crate::roles::{item_of_slot, turn};
use raid_params::{Head, MOST, Syndrome};

/// How many data slots the walk from the slot after Q meets before a slot.
#[tactic(auto, using(crate::proofs::Walks::number_past_p, crate::proofs::Walks::number_up_to_p))]
fn number_after_q(slots: u8, p: u8, q: u8, slot: u8) -> u8
    requires most { slots ≤ MOST }
    requires slot { slot < slots }
    requires p { p < slots }
    requires q { q < slots }
    requires not_p { slot ≢ p }
    requires not_q { slot ≢ q }
    requires apart { p ≢ q }
    ensures { result ≡ number_after_q_of slots p q slot }
{
    let steps = slots_between(slots, q, slot);
    if slots_between(slots, q, p) < steps {
        steps - 1
    } else {
        steps
    }
}

/// The exponent of a slot that holds data, at level 6: Q weighs its block by 2 to this power.
#[tactic(auto, using(crate::proofs::Powers::data_off_p, crate::proofs::Powers::data_off_q, crate::proofs::Powers::data_not_p, crate::proofs::Powers::data_not_q, crate::proofs::Powers::four_members, crate::proofs::Powers::parity_apart, crate::proofs::Powers::item_is, crate::proofs::Levels::at_most))]
pub fn exponent(head: &Head, row: u64, slot: u8) -> u8
    requires head { IsTrue (is_valid_head head.now) }
    requires level { head.now.level ≡ Raid6 }
    requires slot { slot < head.now.members }
    requires holds { HoldsData head.now row slot }
    ensures { result ≡ exponent_of head.now row slot }
{
    match head.syndrome {
        Syndrome::AfterQ => {
            let turn = turn(head, row);
            let p = double_p(head.pattern, head.members, turn);
            let q = double_q(head.pattern, head.members, turn);
            number_after_q(head.members, p, q, slot)
        }
        Syndrome::ByData => item_of_slot(head, row, slot),
        Syndrome::BySlot => slot,
        Syndrome::NoQ => 0,
    }
}
