//! What the heads of a plan ask for.
ghost use Rattle.std.specs.Prelude.{◌≡◌};
ghost use Rattle.std.specs.List.{list_any};
ghost use Rattle.search_plan.specs.Plans.{IsPlan};
ghost use Rattle.head_walk.specs.Counts.{asks_tables as plan_asks_tables, shape_asks as shape_asks_tables};

use prune_filters::needs_table;
use raid_params::{Head, Level, Pattern, Syndrome};
use search_plan::Plan;

/// Whether some head of the plan needs a table of rows. It takes no longer in a plan with more chunks or offsets, on which
/// that does not depend.
pub(crate) fn asks_tables(plan: &Plan) -> bool
    requires { IsPlan plan.now }
    ensures { result ≡ plan_asks_tables plan.now }
{
    levels_ask(plan)
}

/// Whether one of some level of the plan does.
fn levels_ask(plan: &Plan) -> bool
    ensures { result ≡ list_any (λ level. list_any (λ members. list_any (λ pattern. list_any (λ delay.
        list_any (shape_asks_tables plan.now level members pattern delay) plan.now.bounds.syndromes.items) plan.now.bounds.delays.items) plan.now.bounds.patterns.items) plan.now.bounds.members.items) plan.now.bounds.levels.items }
{
    plan.bounds
        .levels
        .iter()
        .any(|level| level_asks(plan, *level))
}

/// Whether one of this level does.
fn level_asks(plan: &Plan, level: Level) -> bool
    ensures { result ≡ list_any (λ members. list_any (λ pattern. list_any (λ delay.
        list_any (shape_asks_tables plan.now level members pattern delay) plan.now.bounds.syndromes.items) plan.now.bounds.delays.items) plan.now.bounds.patterns.items) plan.now.bounds.members.items }
{
    plan.bounds
        .members
        .iter()
        .any(|members| members_ask(plan, level, *members))
}

/// Whether one of this level and so many members does.
fn members_ask(plan: &Plan, level: Level, members: u8) -> bool
    ensures { result ≡ list_any (λ pattern. list_any (λ delay.
        list_any (shape_asks_tables plan.now level members pattern delay) plan.now.bounds.syndromes.items) plan.now.bounds.delays.items) plan.now.bounds.patterns.items }
{
    plan.bounds
        .patterns
        .iter()
        .any(|pattern| pattern_asks(plan, level, members, *pattern))
}

/// Whether one does that has this pattern besides.
fn pattern_asks(plan: &Plan, level: Level, members: u8, pattern: Pattern) -> bool
    ensures { result ≡ list_any (λ delay. list_any (shape_asks_tables plan.now level members pattern delay)
        plan.now.bounds.syndromes.items) plan.now.bounds.delays.items }
{
    plan.bounds
        .delays
        .iter()
        .any(|delay| delay_asks(plan, level, members, pattern, *delay))
}

/// Whether one does that has this delay besides.
fn delay_asks(plan: &Plan, level: Level, members: u8, pattern: Pattern, delay: u64) -> bool
    ensures { result ≡ list_any (shape_asks_tables plan.now level members pattern delay) plan.now.bounds.syndromes.items }
{
    plan.bounds.syndromes.iter().any(|syndrome| shape_asks(
        plan, level, members, pattern, delay, *syndrome,
    ))
}

/// Whether a head with these values makes sense, whatever its chunk and offset, and needs a table.
fn shape_asks(
    plan: &Plan,
    level: Level,
    members: u8,
    pattern: Pattern,
    delay: u64,
    syndrome: Syndrome,
) -> bool
    ensures { result ≡ shape_asks_tables plan.now level members pattern delay syndrome }
{
    let head = Head {
        level,
        members,
        pattern,
        delay,
        syndrome,
        chunk: 1,
        offset: 0,
    };
    head.is_valid() && needs_table(plan, &head)
}
