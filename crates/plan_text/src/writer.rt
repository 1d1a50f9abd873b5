//! The text of a plan.
ghost use Rattle.std.specs.Prelude.{◌≡◌, ◌∷◌, ◌++◌, [], IfOk, OnOk, codes, decimal, map};
ghost use Rattle.std.specs.List.{flat_map};
ghost use Rattle.plan_text.specs.PlanText.{plan_text, version_lines, image_lines, search_lines, arrays_lines, delays_lines, sizes_lines, counts_lines, groups_lines, bounds_lines, mark_line, mark_text, mode_line, rule_text, says_more, some_bounds as some_bounds_of, some_delays as some_delays_of};
ghost use Rattle.value_text.specs.Spelling.{commas, line as line_of, named};
ghost use Rattle.landmark_text.specs.Names.{group_name as group_spelling};

use crate::lines::some_delays;
use crate::version::{Version, mode_name, version_number};
use landmark_rules::{Group, GroupKind, Mark, MarkBounds, MarkTests, Rule};
use landmark_text::group_name;
use outside::Memory;
use raid_params::Bounds;
use search_plan::{Limits, Plan};
use std::alloc::Global;
use value_text::{Field, Text, add_list, add_number};

/// The one text of a plan, from which `read_plan` gives the plan again. It fails only out of memory.
pub fn write_plan(alloc: Global, plan: &Plan) -> Result<Text, Memory>
    ensures { IfOk result (λ text. text ≡ plan_text plan.now) }
{
    let mut text = Text::new(alloc);
    add_version(&mut text, version_of(plan))?;
    add_images(&mut text, &plan.lengths)?;
    add_search(&mut text, plan)?;
    add_groups(&mut text, plan.groups.as_slice())?;
    Ok(text)
}

/// What the version of the text of a plan has to say.
fn version_of(plan: &Plan) -> Version
    ensures each { result.each ≡ plan.now.each }
    ensures third { result.third ≡ says_more (some_delays_of plan.now.bounds.delays.items) plan.now.groups }
{
    let delayed = some_delays(&plan.bounds.delays);
    Version {
        each: plan.each,
        third: delayed || some_bounds(plan.groups.as_slice()),
    }
}

/// Whether some group has bounds of its own.
fn some_bounds(groups: &[Group]) -> bool
    ensures { result ≡ some_bounds_of groups.now }
{
    groups.iter().any(|group| group.bounds.is_some())
}

/// Appends the line of the version, and that of the mode where the version has one.
fn add_version(text: &mut Text, version: Version) -> Result<(), Memory>
    ensures { OnOk result (text.new ≡ text.old ++ flat_map line_of (version_lines version.each version.third)) }
{
    add_number_line(text, b"reraid-plan ", version_number(version))?;
    if version.third {
        add_mode(text, version.each)?;
    }
    Ok(())
}

/// Appends the line of the mode.
fn add_mode(text: &mut Text, each: bool) -> Result<(), Memory>
    ensures { OnOk result (text.new ≡ text.old ++ line_of (mode_line each)) }
{
    text.extend_from_slice(b"mode ")?;
    text.extend_from_slice(mode_name(each))?;
    text.push(b'\n')
}

/// Appends the lines of the images.
fn add_images(text: &mut Text, lengths: &[u64]) -> Result<(), Memory>
    ensures { OnOk result (text.new ≡ text.old ++ flat_map line_of (image_lines lengths.now)) }
{
    add_number_line(text, b"images ", lengths.len() as u64)?;
    for length in lengths {
        add_number_line(text, b"length ", *length)?;
    }
    Ok(())
}

/// Appends the lines between the images and the groups.
fn add_search(text: &mut Text, plan: &Plan) -> Result<(), Memory>
    ensures { OnOk result (text.new ≡ text.old ++ flat_map line_of (search_lines plan.now.end plan.now.bounds plan.now.limits plan.now.tests)) }
{
    add_number_line(text, b"end ", plan.end)?;
    add_arrays(text, &plan.bounds)?;
    add_sizes(text, &plan.bounds, &plan.tests)?;
    add_counts(text, &plan.bounds, &plan.limits, &plan.tests)
}

/// Appends the lines of levels, members, patterns, delays and orders of Q.
fn add_arrays(text: &mut Text, bounds: &Bounds) -> Result<(), Memory>
    ensures { OnOk result (text.new ≡ text.old ++ flat_map line_of (arrays_lines bounds.now)) }
{
    add_list_line(text, b"levels ", &bounds.levels)?;
    add_list_line(text, b"members ", &bounds.members)?;
    add_list_line(text, b"patterns ", &bounds.patterns)?;
    add_delays(text, &bounds.delays)?;
    add_list_line(text, b"syndromes ", &bounds.syndromes)
}

/// Appends the line of delays, where they are others than one alone.
fn add_delays(text: &mut Text, delays: &[u64]) -> Result<(), Memory>
    ensures { OnOk result (text.new ≡ text.old ++ flat_map line_of (delays_lines (some_delays_of delays.now) delays.now)) }
{
    if some_delays(delays) {
        add_list_line(text, b"delays ", delays)?;
    }
    Ok(())
}

/// Appends the lines of chunk sizes, offsets and origins.
fn add_sizes(text: &mut Text, bounds: &Bounds, tests: &MarkTests) -> Result<(), Memory>
    ensures { OnOk result (text.new ≡ text.old ++ flat_map line_of (sizes_lines bounds.now tests.now)) }
{
    add_list_line(text, b"chunks ", &bounds.chunks)?;
    add_list_line(text, b"offsets ", &bounds.offsets)?;
    add_list_line(text, b"origins ", &tests.origins)
}

/// Appends the lines of the numbers after them.
fn add_counts(
    text: &mut Text,
    bounds: &Bounds,
    limits: &Limits,
    tests: &MarkTests,
) -> Result<(), Memory>
    ensures { OnOk result (text.new ≡ text.old ++ flat_map line_of (counts_lines bounds.now limits.now tests.now)) }
{
    add_number_line(text, b"missing ", u64::from(bounds.missing))?;
    add_number_line(text, b"foreign ", u64::from(bounds.foreign))?;
    add_number_line(text, b"badrows ", limits.badrows)?;
    add_number_line(text, b"window ", limits.window)?;
    add_number_line(text, b"misfits ", tests.misfits)?;
    add_number_line(text, b"least ", tests.least)
}

/// Appends the lines of groups, and the last line.
fn add_groups(text: &mut Text, groups: &[Group]) -> Result<(), Memory>
    ensures { OnOk result (text.new ≡ text.old ++ flat_map line_of (groups_lines groups.now)) }
{
    for group in groups {
        add_group_line(text, group.kind)?;
        add_bounds(text, group.bounds)?;
        add_marks(text, group.marks.as_slice())?;
    }
    text.extend_from_slice(b"done\n")
}

/// Appends the line that begins a group.
fn add_group_line(text: &mut Text, kind: GroupKind) -> Result<(), Memory>
    ensures { OnOk result (text.new ≡ text.old ++ line_of (named (codes "group") (group_spelling kind))) }
{
    text.extend_from_slice(b"group ")?;
    text.extend_from_slice(group_name(kind).as_bytes())?;
    text.push(b'\n')
}

/// Appends the line of the bounds that a group has of its own.
fn add_bounds(text: &mut Text, bounds: Option<MarkBounds>) -> Result<(), Memory>
    ensures { OnOk result (text.new ≡ text.old ++ flat_map line_of (bounds_lines bounds)) }
{
    match bounds {
        None => Ok(()),
        Some(own) => {
            text.extend_from_slice(b"bounds ")?;
            add_number(text, own.misfits)?;
            text.push(b' ')?;
            add_number(text, own.least)?;
            text.push(b'\n')
        }
    }
}

/// Appends the lines of marks.
fn add_marks(text: &mut Text, marks: &[Mark]) -> Result<(), Memory>
    ensures { OnOk result (text.new ≡ text.old ++ flat_map line_of (map mark_line marks.now)) }
{
    for mark in marks {
        text.extend_from_slice(b"mark ")?;
        add_mark(text, mark)?;
        text.push(b'\n')?;
    }
    Ok(())
}

/// Appends `KIND IMAGE SECTOR RULE`.
fn add_mark(text: &mut Text, mark: &Mark) -> Result<(), Memory>
    ensures { OnOk result (text.new ≡ text.old ++ mark_text mark.now) }
{
    text.extend_from_slice(mark.kind.name().as_bytes())?;
    text.push(b' ')?;
    mark.image.add_to(text)?;
    text.push(b' ')?;
    mark.sector.add_to(text)?;
    text.push(b' ')?;
    add_rule(text, mark.rule)
}

/// Appends the rule of a mark.
fn add_rule(text: &mut Text, rule: Rule) -> Result<(), Memory>
    ensures { OnOk result (text.new ≡ text.old ++ rule_text rule) }
{
    match rule {
        Rule::At(distance) => {
            text.extend_from_slice(b"at:")?;
            add_number(text, distance)
        }
        Rule::Either(first, second) => {
            text.extend_from_slice(b"either:")?;
            add_number(text, first)?;
            text.push(b':')?;
            add_number(text, second)
        }
        Rule::Every { step, count, plus } => {
            text.extend_from_slice(b"every:")?;
            add_number(text, step)?;
            text.push(b':')?;
            add_number(text, count)?;
            text.push(b':')?;
            add_number(text, plus)
        }
    }
}

/// Appends the line of a number after a word.
fn add_number_line(text: &mut Text, word: &[u8], number: u64) -> Result<(), Memory>
    ensures { OnOk result (text.new ≡ text.old ++ line_of (word.now ++ decimal number)) }
{
    text.extend_from_slice(word)?;
    add_number(text, number)?;
    text.push(b'\n')
}

/// Appends the line of a list after a word.
fn add_list_line<T: Field>(text: &mut Text, word: &[u8], values: &[T]) -> Result<(), Memory>
    ensures { OnOk result (text.new ≡ text.old ++ line_of (word.now ++ commas (map T.name values.now))) }
{
    text.extend_from_slice(word)?;
    add_list(text, values)?;
    text.push(b'\n')
}
