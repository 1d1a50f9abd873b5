//! How many rows the images of a prefix break, by head.
ghost use Rattle.std.specs.Prelude.{◌≡◌, ◌&&◌, IsSome, IsTrue, length, nat_le, true};
ghost use Rattle.std.specs.Option.{option_map};
ghost use Rattle.raid_params.specs.Size.{rows as rows_of};
ghost use Rattle.raid_params.specs.Validity.{is_valid_head};
ghost use Rattle.search_plan.specs.Plans.{IsPlan};
ghost use Rattle.slot_math.specs.Ways.{IsPrefixOf};
ghost use Rattle.xor_tables.specs.Rows.{needs_table as head_needs_table};
ghost use Rattle.xor_tables.specs.Xors.{rows_hold_by};

use crate::breaks::{Broken, broken_rows, count_broken, first_broken};
use crate::early_table::EarlyTable;
use address_map::rows;
use raid_params::Head;
use search_plan::Plan;
use std::marker::Model;

/// How many rows are known to break for a head, by the images that its slots hold. It is made once for a head, so that
/// a prefix takes a sum over its places.
///
/// Contracts see it as the table of rows that it was made from, with the plan and the head.
#[derive(Drop)]
pub struct HeadRows<'a> {
    plan: &'a Plan,
    head: Head,
    table: Option<&'a EarlyTable>,
    /// Whether the head has a whole row.
    whole: bool,
    /// What breaks.
    broken: Broken,
    /// The first slot in which an image breaks a row.
    first: usize,
}

impl<'a> Model for HeadRows<'a> {
    ghost use Rattle.std.specs.Option.{option_map};
    ghost use Rattle.xor_tables.specs.Heads.{AreHeadRows, HeadTable};

    ghost Value = { HeadTable };

    ghost view = { λ s. record { plan = s.plan.now; head = s.head; xors = option_map (λ table. table.now) s.table } };

    ghost invariant = { λ s. AreHeadRows (record { plan = s.plan.now; head = s.head; xors = option_map (λ table. table.now) s.table })
        s.whole s.broken.always s.broken.placed s.first };
}

impl<'a> HeadRows<'a> {
    /// Those of a head of a plan, by the table of the head's pace and offset, where it needs one.
    pub fn new(plan: &'a Plan, head: &Head, table: Option<&'a EarlyTable>) -> HeadRows<'a>
        requires plan { IsPlan plan.now }
        requires head { IsTrue (is_valid_head head.now) }
        requires table { head_needs_table plan.now head.now ≡ true → IsSome table }
        ensures { result ≡ record { plan = plan.now; head = head.now; xors = option_map (λ table. table.now) table.entry } }
    {
        let broken = broken_rows(plan, head, table);
        let first = first_broken(&broken.placed);
        HeadRows {
            plan,
            head: *head,
            table,
            whole: rows(head, plan.end) >= 1,
            broken,
            first,
        }
    }

    /// The plan.
    pub fn plan(&self) -> &'a Plan
        ensures is { result.now ≡ self.now.plan }
        ensures plan { IsPlan result.now }
    {
        self.plan
    }

    /// The head.
    pub fn head(&self) -> &Head
        ensures is { result.now ≡ self.now.head }
        ensures valid { IsTrue (is_valid_head result.now) }
    {
        &self.head
    }

    /// Whether the head has a whole row, and no more of the tested rows are known to break the equation of P, if the slots
    /// begin with a prefix, than may be.
    pub fn may_hold(&self, prefix: &[Option<u8>]) -> bool
        requires prefix { IsPrefixOf (length self.now.plan.lengths.items) self.now.head.members prefix.now }
        ensures { result ≡ (nat_le 1 (rows_of self.now.head self.now.plan.end) && rows_hold_by self.now.xors self.now.plan self.now.head prefix.now) }
    {
        let (always, placed) = (self.broken.always, &self.broken.placed);
        self.whole && count_broken(always, placed, self.first, prefix) <= self.plan.limits.badrows
    }
}
