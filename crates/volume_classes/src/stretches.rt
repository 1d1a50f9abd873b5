//! Stretches of rows over which neither of two heads turns: what holds of the first row of one holds of all its rows.
ghost use Rattle.std.specs.Prelude.{◌≡◌, ◌≤◌, ◌<◌, ◌^◌, IsTrue};
ghost use Rattle.raid_params.specs.Validity.{is_valid_head};
ghost use Rattle.volume_classes.specs.Coefficients.{common_period as common_period_of, told_rows as told_rows_of};
ghost use Rattle.volume_classes.specs.Stretches.{stretch_end as stretch_end_of, turn_end as turn_end_of};

use crate::coefficients::turns;
use address_map::rows;
use raid_layouts::turn;
use raid_params::Head;

/// How many rows tell two sets apart: those before both layouts begin anew together, as far as there are rows.
pub(crate) fn told_rows(one: &Head, other: &Head, end: u64) -> u64
    requires one { IsTrue (is_valid_head one.now) }
    requires other { IsTrue (is_valid_head other.now) }
    ensures told { result ≡ told_rows_of one.now other.now end }
    ensures few { result ≤ 2 ^ 30 }
{
    rows(one, end).min(common_period(one, other))
}

/// After how many rows two layouts begin anew together.
fn common_period(one: &Head, other: &Head) -> u64
    requires one { IsTrue (is_valid_head one.now) }
    requires other { IsTrue (is_valid_head other.now) }
    ensures period { result ≡ common_period_of one.now other.now }
    ensures few { result ≤ 2 ^ 30 }
{
    let (one_turns, other_turns) = (u64::from(turns(one)), u64::from(turns(other)));
    if one.delay == other.delay {
        one.delay * (one_turns * other_turns)
    } else {
        one.delay * one_turns * (other.delay * other_turns)
    }
}

/// The first row behind this one where one of two heads has another turn.
pub(crate) fn stretch_end(one: &Head, other: &Head, row: u64) -> u64
    requires one { IsTrue (is_valid_head one.now) }
    requires other { IsTrue (is_valid_head other.now) }
    requires row { row < 2 ^ 30 }
    ensures { result ≡ stretch_end_of one.now other.now row }
{
    turn_end(one, row).min(turn_end(other, row))
}

/// The first row behind this one with another turn.
fn turn_end(head: &Head, row: u64) -> u64
    requires head { IsTrue (is_valid_head head.now) }
    requires row { row < 2 ^ 30 }
    ensures { result ≡ turn_end_of head.now row }
{
    (turn(head, row) + 1) * head.delay
}
