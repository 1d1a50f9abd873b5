//! The slots of P, of Q and of a data item, by pattern, in a row of `slots` slots.
ghost use Rattle.std.specs.Prelude.{◌≡◌, ◌≢◌, ◌<◌, ◌≤◌, ◌-◌, ◌+◌};
ghost use Rattle.raid_terms.specs.Role.{after as after_of, double_item as double_item_of, double_p as double_p_of, double_q as double_q_of, leftward as leftward_of, over_p as over_p_of, over_p_and_q as over_p_and_q_of, rightward as rightward_of, single_item as single_item_of, single_p as single_p_of};

use raid_params::{MOST, Pattern};

/// From the last slot, one to the left each row.
fn leftward(slots: u8, row: u64) -> u8
    requires { 0 < slots }
    ensures { result ≡ leftward_of slots row }
{
    slots - 1 - (row % slots as u64) as u8
}

/// From the first slot, one to the right each row.
fn rightward(slots: u8, row: u64) -> u8
    requires { 0 < slots }
    ensures { result ≡ rightward_of slots row }
{
    (row % slots as u64) as u8
}

/// As `leftward`, a row further on.
#[tactic(auto, using(crate::proofs::Steps::next_turn))]
fn leftward_next(slots: u8, row: u64) -> u8
    requires { 0 < slots }
    ensures { result ≡ leftward_of slots (row + 1) }
{
    leftward(slots, row % slots as u64 + 1)
}

/// The slot after a slot, round the slots.
fn after(slots: u8, slot: u8) -> u8
    requires { slot < slots }
    ensures { result ≡ after_of slots slot }
{
    if slot == slots - 1 { 0 } else { slot + 1 }
}

/// The slot of an item where the items pass over P.
fn over_p(p: u8, item: u8) -> u8
    requires { item < 255 }
    ensures { result ≡ over_p_of p item }
{
    if p <= item { item + 1 } else { item }
}

/// The slot of an item where the items pass over P and Q.
fn over_p_and_q(slots: u8, p: u8, item: u8) -> u8
    requires slots { 0 < slots }
    requires item { item < 254 }
    ensures { result ≡ over_p_and_q_of slots p item }
{
    if p == slots - 1 {
        item + 1
    } else if p <= item {
        item + 2
    } else {
        item
    }
}

/// The slot of P at level 5.
pub(crate) fn single_p(pattern: Pattern, slots: u8, row: u64) -> u8
    requires { 0 < slots }
    ensures { result ≡ single_p_of pattern slots row }
{
    match pattern {
        Pattern::La | Pattern::Ls => leftward(slots, row),
        Pattern::Ra | Pattern::Rs => rightward(slots, row),
        Pattern::ParityFirst => 0,
        _ => slots - 1,
    }
}

/// The slot of a data item at level 5.
pub(crate) fn single_item(pattern: Pattern, slots: u8, row: u64, item: u8) -> u8
    requires few { 0 < slots }
    requires most { slots ≤ MOST }
    requires item { item < slots }
    ensures { result ≡ single_item_of pattern slots row item }
{
    let p = single_p(pattern, slots, row);
    match pattern {
        Pattern::La | Pattern::Ra => over_p(p, item),
        Pattern::Ls | Pattern::Rs => (p + 1 + item) % slots,
        Pattern::ParityFirst => item + 1,
        _ => item,
    }
}

/// The slot of P at level 6.
pub(crate) fn double_p(pattern: Pattern, slots: u8, row: u64) -> u8
    requires { 2 < slots }
    ensures { result ≡ double_p_of pattern slots row }
{
    match pattern {
        Pattern::La | Pattern::Ls | Pattern::NContinue => leftward(slots, row),
        Pattern::Ra | Pattern::Rs => rightward(slots, row),
        Pattern::NRestart => leftward_next(slots, row),
        Pattern::ParityFirst | Pattern::ParityFirst6 => 0,
        Pattern::ParityLast | Pattern::Plain => slots - 2,
        Pattern::La6 | Pattern::Ls6 => leftward(slots - 1, row),
        Pattern::Ra6 | Pattern::Rs6 => rightward(slots - 1, row),
    }
}

/// The slot of Q at level 6.
pub(crate) fn double_q(pattern: Pattern, slots: u8, row: u64) -> u8
    requires few { 2 < slots }
    requires most { slots ≤ MOST }
    ensures { result ≡ double_q_of pattern slots row }
{
    let p = double_p(pattern, slots, row);
    match pattern {
        Pattern::La | Pattern::Ra | Pattern::NRestart => after(slots, p),
        Pattern::Ls | Pattern::Rs => (p + 1) % slots,
        Pattern::NContinue => (p + slots - 1) % slots,
        Pattern::ParityFirst => 1,
        _ => slots - 1,
    }
}

/// The slot of a data item at level 6.
pub(crate) fn double_item(pattern: Pattern, slots: u8, row: u64, item: u8) -> u8
    requires few { 2 < slots }
    requires most { slots ≤ MOST }
    requires item { item < slots - 2 }
    ensures { result ≡ double_item_of pattern slots row item }
{
    let p = double_p(pattern, slots, row);
    match pattern {
        Pattern::La | Pattern::Ra | Pattern::NRestart => over_p_and_q(slots, p, item),
        Pattern::Ls | Pattern::Rs => (p + 2 + item) % slots,
        Pattern::NContinue => (p + 1 + item) % slots,
        Pattern::ParityFirst => item + 2,
        Pattern::ParityLast | Pattern::Plain => item,
        Pattern::La6 => single_item(Pattern::La, slots - 1, row, item),
        Pattern::Ra6 => single_item(Pattern::Ra, slots - 1, row, item),
        Pattern::Ls6 => single_item(Pattern::Ls, slots - 1, row, item),
        Pattern::Rs6 => single_item(Pattern::Rs, slots - 1, row, item),
        Pattern::ParityFirst6 => single_item(Pattern::ParityFirst, slots - 1, row, item),
    }
}
