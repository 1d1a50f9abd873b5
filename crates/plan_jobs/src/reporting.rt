//! What `check` prints.
ghost use Rattle.std.specs.Prelude.{◌≡◌, ◌<◌, ◌+◌, ◌++◌, ◌^◌, length, IfOk, OnOk, IsTrue, ℕ, Option};
ghost use Rattle.landmark_rules.specs.Groups.{held_origin as first_origin};
ghost use Rattle.plan_jobs.specs.Checking.{group_line, group_lines, held_text, rank_line, report as report_of, tests_hold, verdict_line};
ghost use Rattle.raid_params.specs.Validity.{is_shaped};
ghost use Rattle.search_plan.specs.Plans.{IsPlan};
ghost use Rattle.plan_jobs.specs.Reporting.{IsReported};

use landmark_rules::{Group, groups_hold, held_origin, tally};
use outside::Memory;
use plan_text::{Text, add_number, group_name};
use raid_params::Geometry;
use run_ends::{add_or_dash, add_share};
use search_plan::{Plan, tested_rows};
use std::alloc::Global;

/// The text of `check` over a set of this rank, of which `unsound` tested rows are unsound.
#[tactic(auto, unfolding(crate::specs::Checking::report))]
pub(crate) fn report(
    alloc: Global,
    set: &Geometry,
    plan: &Plan,
    rank: Option<u64>,
    unsound: u64,
) -> Result<Text, Memory>
    requires plan { IsPlan plan.now }
    requires set { IsReported set.now plan.now }
    ensures { IfOk result (λ text. text ≡ report_of rank plan.now set.now unsound) }
{
    let mut text = Text::new(alloc);
    add_rank(&mut text, rank)?;
    let tested = tested_rows(plan, set.head.chunk, set.head.offset);
    add_share(&mut text, b"unsound ", unsound, tested)?;
    add_groups(&mut text, set, plan, 0, plan.groups.as_slice())?;
    add_verdict(&mut text, holds(set, plan, unsound))?;
    Ok(text)
}

/// Appends the line of the rank.
#[tactic(auto, unfolding(crate::specs::Checking::rank_line))]
fn add_rank(text: &mut Text, rank: Option<u64>) -> Result<(), Memory>
    ensures { OnOk result (text.new ≡ text.old ++ rank_line rank) }
{
    text.extend_from_slice(b"rank ")?;
    add_or_dash(text, rank)?;
    text.extend_from_slice(b"\n")
}

/// Appends the lines of groups, the first of which has this number.
#[tactic(auto, unfolding(crate::specs::Checking::group_lines))]
fn add_groups(
    text: &mut Text,
    set: &Geometry,
    plan: &Plan,
    number: u64,
    groups: &[Group],
) -> Result<(), Memory>
    requires set { IsReported set.now plan.now }
    requires few { number + length groups.now < 2 ^ 64 }
    ensures { OnOk result (text.new ≡ text.old ++ group_lines plan.now set.now number groups.now) }
{
    match groups {
        [] => Ok(()),
        [group, rest @ ..] => {
            add_group(text, set, plan, number, group)?;
            add_groups(text, set, plan, number + 1, rest)
        }
    }
}

/// Appends the line of a group.
#[tactic(auto, unfolding(crate::specs::Checking::group_line))]
fn add_group(
    text: &mut Text,
    set: &Geometry,
    plan: &Plan,
    number: u64,
    group: &Group,
) -> Result<(), Memory>
    requires set { IsReported set.now plan.now }
    ensures { OnOk result (text.new ≡ text.old ++ group_line plan.now set.now number group.now) }
{
    text.extend_from_slice(b"group ")?;
    add_number(text, number)?;
    text.extend_from_slice(b" ")?;
    text.extend_from_slice(group_name(group.kind).as_bytes())?;
    let origin = held_origin(set, plan.end, group, &plan.tests);
    add_held(text, set, plan, group, origin)?;
    text.extend_from_slice(b"\n")
}

/// Appends from where a group holds, with its counts, or that it holds nowhere.
fn add_held(
    text: &mut Text,
    set: &Geometry,
    plan: &Plan,
    group: &Group,
    origin: Option<u64>,
) -> Result<(), Memory>
    requires set { IsReported set.now plan.now }
    ensures { OnOk result (text.new ≡ text.old ++ held_text plan.now set.now group.now origin) }
{
    match origin {
        Some(origin) => {
            let count = tally(set, plan.end, &group.marks, origin);
            text.extend_from_slice(b" origin ")?;
            add_number(text, origin)?;
            text.extend_from_slice(b" fits ")?;
            add_number(text, count.fits)?;
            text.extend_from_slice(b" misfits ")?;
            add_number(text, count.misfits)
        }
        None => text.extend_from_slice(b" none"),
    }
}

/// Whether no more rows are unsound than may be, and each group holds.
fn holds(set: &Geometry, plan: &Plan, unsound: u64) -> bool
    requires set { IsReported set.now plan.now }
    ensures { result ≡ tests_hold plan.now set.now unsound }
{
    unsound <= plan.limits.badrows && groups_hold(set, plan.end, &plan.groups, &plan.tests)
}

/// Appends the verdict.
#[tactic(auto, unfolding(crate::specs::Checking::verdict_line))]
fn add_verdict(text: &mut Text, holds: bool) -> Result<(), Memory>
    ensures { OnOk result (text.new ≡ text.old ++ verdict_line holds) }
{
    text.extend_from_slice(if holds { b"pass\n" } else { b"fail\n" })
}
