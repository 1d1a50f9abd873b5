//! Whether the tested rows may still hold.
ghost use Rattle.std.specs.Prelude.{◌≡◌, List, ℕ, IsSome, IsTrue, length, true};
ghost use Rattle.std.specs.Option.{option_map};
ghost use Rattle.raid_params.specs.Validity.{is_valid_head};
ghost use Rattle.search_plan.specs.Plans.{IsPlan};
ghost use Rattle.slot_math.specs.Ways.{IsPrefixOf};
ghost use Rattle.xor_tables.specs.Rows.{holds_every as every_list_holds, needs_samples as head_needs_samples, needs_table as head_needs_table, rows_decide as head_rows_decide, rows_may_hold as rows_of_may_hold};
ghost use Rattle.xor_tables.specs.Xors.{rows_hold_by, HasXorTable};

use crate::xor_table::XorTable;
use raid_params::{Head, Level};
use search_plan::Plan;

/// Whether a prefix is asked of the rows in which the images of a plan differ: every slot list of the head holds
/// every image, and the head has parity.
pub fn needs_table(plan: &Plan, head: &Head) -> bool
    ensures { result ≡ head_needs_table plan.now head.now }
{
    holds_every(plan, head) && head.level.redundancy() >= 1
}

/// Whether the rows in which the images of a plan differ decide the parity test of each set of a head: the head
/// needs a table of them, and is of level 5. There the exclusive or of all members is the same in every order.
pub fn rows_decide(plan: &Plan, head: &Head) -> bool
    ensures { result ≡ head_rows_decide plan.now head.now }
{
    needs_table(plan, head) && matches!(head.level, Level::Raid5)
}

/// Whether samples of the rows are asked for a head: some slot list of it has fewer empty places than the level has
/// parity, so that it can break a row, and the rows in which the images differ do not decide.
pub fn needs_samples(plan: &Plan, head: &Head) -> bool
    ensures { result ≡ head_needs_samples plan.now head.now }
{
    let empty = (head.members as usize).saturating_sub(plan.lengths.len());
    empty < head.level.redundancy() as usize && !rows_decide(plan, head)
}

/// Whether every slot list of a head holds every image of a plan.
fn holds_every(plan: &Plan, head: &Head) -> bool
    ensures { result ≡ every_list_holds plan.now head.now }
{
    let empty = plan.bounds.missing.min(head.level.redundancy());
    plan.lengths.len() == head.members as usize && (plan.bounds.foreign == 0 || empty == 0)
}

/// Whether no more of the tested rows are known to break the equation of P, if the slots begin with a prefix, than
/// may be. The table is that of the head's pace and offset; it is looked at only where the head needs one.
pub fn rows_may_hold(
    xors: Option<&XorTable>,
    plan: &Plan,
    head: &Head,
    prefix: &[Option<u8>],
) -> bool
    requires plan { IsPlan plan.now }
    requires head { IsTrue (is_valid_head head.now) }
    requires prefix { IsPrefixOf (length plan.now.lengths.items) head.now.members prefix.now }
    requires xors { head_needs_table plan.now head.now ≡ true → IsSome xors }
    ensures tables { result ≡ rows_hold_by (option_map (λ table. table.now) xors.entry) plan.now head.now prefix.now }
    ensures bytes { (bytes : List (List ℕ)) → HasXorTable bytes plan.now head.now (option_map (λ table. table.now) xors.entry) →
        result ≡ rows_of_may_hold bytes plan.now head.now prefix.now }
{
    if !needs_table(plan, head) {
        return true;
    }
    match xors {
        Some(table) => table.rows.broken_rows(head, prefix) <= plan.limits.badrows,
        None => unreachable!(),
    }
}
