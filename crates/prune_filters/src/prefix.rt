//! The test of a prefix.
ghost use Rattle.std.specs.Prelude.{◌≡◌, List, ℕ, Contains, IsSome, IsTrue, true};
ghost use Rattle.std.specs.Option.{option_map};
ghost use Rattle.raid_params.specs.Validity.{is_valid_head};
ghost use Rattle.search_plan.specs.Plans.{IsPlan};
ghost use Rattle.xor_tables.specs.Early.{HasEarlyTable};
ghost use Rattle.prune_filters.specs.Hopeful.{is_hopeful, is_hopeful_by, IsPrefix};
ghost use Rattle.xor_tables.specs.Rows.{needs_table};
ghost use Rattle.mark_tables.specs.Tables.{IsMarkTable};
ghost use Rattle.xor_tables.specs.Xors.{HasXorTable};

use address_map::rows;
use mark_tables::{MarkTable, groups_may_hold};
use raid_params::{Head, Slots};
use search_plan::Plan;
use xor_tables::{HeadRows, XorTable, rows_may_hold};

/// Whether a parameter set of the head whose slots begin with the prefix may still pass: where it may not, none
/// does. `marks` is the table of this plan and head. `xors` is that of the plan and the head's pace and offset,
/// over the images' bytes; it is looked at only where the head needs one. It takes no memory.
pub fn prefix_may_pass(
    marks: &MarkTable,
    xors: Option<&XorTable>,
    plan: &Plan,
    head: &Head,
    prefix: &Slots,
) -> bool
    requires plan { IsPlan plan.now }
    requires head { IsTrue (is_valid_head head.now) }
    requires marks { IsMarkTable plan.now head.now marks.now }
    requires xors { needs_table plan.now head.now ≡ true → IsSome xors }
    requires prefix { IsPrefix plan.now head.now prefix.now.items }
    ensures tables { result ≡ is_hopeful_by (option_map (λ table. table.now) xors.entry) plan.now head.now prefix.now.items }
    ensures bytes { (bytes : List (List ℕ)) → HasXorTable bytes plan.now head.now (option_map (λ table. table.now) xors.entry) →
        result ≡ is_hopeful bytes plan.now head.now prefix.now.items }
{
    rows(head, plan.end) >= 1
        && groups_may_hold(marks, plan, head, prefix)
        && rows_may_hold(xors, plan, head, prefix)
}

/// Whether a parameter set of a head whose slots begin with the prefix may still pass, by what breaks of the head's rows
/// ([`HeadRows`]). `marks` is the table of its plan and head. It takes no memory.
pub fn early_may_pass(marks: &MarkTable, rows: &HeadRows, prefix: &Slots) -> bool
    requires marks { IsMarkTable rows.now.plan rows.now.head marks.now }
    requires prefix { IsPrefix rows.now.plan rows.now.head prefix.now.items }
    ensures tables { result ≡ is_hopeful_by rows.now.xors rows.now.plan rows.now.head prefix.now.items }
    ensures bytes { (bytes : List (List ℕ)) → Contains rows.now.plan.bounds.levels.items rows.now.head.level →
        HasEarlyTable bytes rows.now.plan rows.now.head rows.now.xors →
        result ≡ is_hopeful bytes rows.now.plan rows.now.head prefix.now.items }
{
    let (plan, head) = (rows.plan(), rows.head());
    rows.may_hold(prefix) && groups_may_hold(marks, plan, head, prefix)
}
