//! The data item of a slot, by pattern: the way back.
ghost use Rattle.std.specs.Prelude.{◌≡◌, ◌≢◌, ◌<◌, ◌≤◌, ◌-◌, ◌+◌, ◌%◌};
ghost use Rattle.raid_terms.specs.Role.{after, double_item as double_item_of, double_p as double_p_of, double_q as double_q_of, over_p, over_p_and_q, single_item as single_item_of, single_p as single_p_of};

use crate::parity::{double_p, single_p};
use raid_params::{MOST, Pattern};

/// The item of a slot where the items pass over P.
#[tactic(auto, using(crate::proofs::Single::over_p_before, crate::proofs::Single::over_p_behind))]
fn item_beside_p(slots: u8, p: u8, slot: u8) -> u8
    requires slot { slot < slots }
    requires p { p < slots }
    requires other { slot ≢ p }
    ensures there { slot ≡ over_p p result }
    ensures below { result < slots - 1 }
{
    if slot < p { slot } else { slot - 1 }
}

/// How many slots lie between P and a slot, going round from P.
#[tactic(auto, using(crate::proofs::Single::round_before, crate::proofs::Single::round_behind))]
pub(crate) fn slots_between(slots: u8, p: u8, slot: u8) -> u8
    requires most { slots ≤ MOST }
    requires slot { slot < slots }
    requires p { p < slots }
    requires other { slot ≢ p }
    ensures there { slot ≡ (p + 1 + result) % slots }
    ensures below { result < slots - 1 }
{
    if slot < p {
        slot + slots - p - 1
    } else {
        slot - p - 1
    }
}

/// The item of a slot where the items pass over P and Q.
#[tactic(auto, using(crate::proofs::Double::over_before, crate::proofs::Double::over_behind, crate::proofs::Double::over_apart, crate::proofs::Double::not_first, crate::proofs::Double::two_behind))]
fn item_beside_p_and_q(slots: u8, p: u8, slot: u8) -> u8
    requires few { 2 < slots }
    requires slot { slot < slots }
    requires p { p < slots }
    requires other { slot ≢ p }
    requires another { slot ≢ after slots p }
    ensures there { slot ≡ over_p_and_q slots p result }
    ensures below { result < slots - 2 }
{
    if p == slots - 1 {
        slot - 1
    } else if slot < p {
        slot
    } else {
        slot - 2
    }
}

/// As `slots_between`, where Q stands right after P.
#[tactic(auto, using(crate::proofs::Steps::second_before, crate::proofs::Steps::second_behind, crate::proofs::Double::two_on, crate::proofs::Double::two_round))]
fn slots_past_q(slots: u8, p: u8, slot: u8) -> u8
    requires few { 2 < slots }
    requires most { slots ≤ MOST }
    requires slot { slot < slots }
    requires p { p < slots }
    requires other { slot ≢ p }
    requires another { slot ≢ (p + 1) % slots }
    ensures there { slot ≡ (p + 2 + result) % slots }
    ensures below { result < slots - 2 }
{
    if slot < p {
        slot + slots - p - 1 - 1
    } else {
        slot - p - 1 - 1
    }
}

/// As `slots_between`, where Q stands right before P.
#[tactic(auto, using(crate::proofs::Single::round_before, crate::proofs::Single::round_behind, crate::proofs::Double::one_before, crate::proofs::Double::last_before))]
fn slots_up_to_q(slots: u8, p: u8, slot: u8) -> u8
    requires few { 2 < slots }
    requires most { slots ≤ MOST }
    requires slot { slot < slots }
    requires p { p < slots }
    requires other { slot ≢ p }
    requires another { slot ≢ (p + slots - 1) % slots }
    ensures there { slot ≡ (p + 1 + result) % slots }
    ensures below { result < slots - 2 }
{
    if slot < p {
        slot + slots - p - 1
    } else {
        slot - p - 1
    }
}

/// The item of a slot at level 5.
pub(crate) fn single_item_at(pattern: Pattern, slots: u8, row: u64, slot: u8) -> u8
    requires few { 1 < slots }
    requires most { slots ≤ MOST }
    requires slot { slot < slots }
    requires other { slot ≢ single_p_of pattern slots row }
    ensures there { slot ≡ single_item_of pattern slots row result }
    ensures below { result < slots - 1 }
{
    let p = single_p(pattern, slots, row);
    match pattern {
        Pattern::La | Pattern::Ra => item_beside_p(slots, p, slot),
        Pattern::Ls | Pattern::Rs => slots_between(slots, p, slot),
        Pattern::ParityFirst => slot - 1,
        _ => slot,
    }
}

/// The item of a slot at level 6.
pub(crate) fn double_item_at(pattern: Pattern, slots: u8, row: u64, slot: u8) -> u8
    requires few { 2 < slots }
    requires most { slots ≤ MOST }
    requires slot { slot < slots }
    requires other { slot ≢ double_p_of pattern slots row }
    requires another { slot ≢ double_q_of pattern slots row }
    ensures there { slot ≡ double_item_of pattern slots row result }
    ensures below { result < slots - 2 }
{
    let p = double_p(pattern, slots, row);
    match pattern {
        Pattern::La | Pattern::Ra | Pattern::NRestart => item_beside_p_and_q(slots, p, slot),
        Pattern::Ls | Pattern::Rs => slots_past_q(slots, p, slot),
        Pattern::NContinue => slots_up_to_q(slots, p, slot),
        Pattern::ParityFirst => slot - 2,
        Pattern::ParityLast | Pattern::Plain => slot,
        Pattern::La6 => single_item_at(Pattern::La, slots - 1, row, slot),
        Pattern::Ra6 => single_item_at(Pattern::Ra, slots - 1, row, slot),
        Pattern::Ls6 => single_item_at(Pattern::Ls, slots - 1, row, slot),
        Pattern::Rs6 => single_item_at(Pattern::Rs, slots - 1, row, slot),
        Pattern::ParityFirst6 => single_item_at(Pattern::ParityFirst, slots - 1, row, slot),
    }
}
