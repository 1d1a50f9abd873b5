//! What the tests of surveys ask for, and how what is found is compared.
ghost use Rattle.std.specs.Prelude.{◌≡◌, false, [], ◌∷◌, ◌+◌, ◌≤◌, ◌<◌, ◌^◌, length, All, IsSomeAnd, IsTrue, slice_get};
ghost use Rattle.image_source.specs.Memory.{seen_of};
ghost use Rattle.survey_engine.specs.Surveys.{IsAsk};

use crate::objects::{Placed, images_of};
use arrayvec::ArrayVec;
use image_source::MemImages;
use landmark_rules::{Group, GroupKind, Kind, Mark, MarkTests, Rule};
use outside::Images;
use raid_params::{Bounds, Level, Pattern, SECTORS_END, Syndrome};
use search_plan::{Kinds, Limits, Plan};
use std::process::Abort;
use std::test::Fail;
use survey_engine::{Ask, SurveyFault, survey};

/// A mark: its kind, image, sector and rule.
pub type Line = (Kind, u8, u64, Rule);

/// A group: its kind, and its marks.
pub type Lines = (GroupKind, &'static [Line]);

/// A survey of an image of 400 sectors: the fields that are not zero, the kinds that are asked for, and the groups that are found.
pub type Row = (&'static [Placed], &'static [GroupKind], &'static [Lines]);

fn is_rule(a: &Rule, b: &Rule) -> bool {
    match (a, b) {
        (Rule::At(d), Rule::At(e)) => d == e,
        (Rule::Either(d, e), Rule::Either(f, g)) => d == f && e == g,
        (
            Rule::Every { step, count, plus },
            Rule::Every {
                step: other_step,
                count: other_count,
                plus: other_plus,
            },
        ) => step == other_step && count == other_count && plus == other_plus,
        _ => false,
    }
}

fn is_mark(mark: &Mark, line: &Line) -> bool {
    mark.kind.place() == line.0.place()
        && mark.image == line.1
        && mark.sector == line.2
        && is_rule(&mark.rule, &line.3)
}

fn is_group(group: &Group, lines: &Lines) -> bool {
    let (kind, marks) = *lines;
    group.kind.is_same(kind)
        && group.marks.as_slice().len() == marks.len()
        && group
            .marks
            .as_slice()
            .iter()
            .zip(marks)
            .all(|(mark, line)| is_mark(mark, line))
}

// Whether a plan has just these groups.
fn are_groups(plan: &Plan, groups: &[Lines]) -> bool {
    plan.groups.as_slice().len() == groups.len()
        && plan
            .groups
            .as_slice()
            .iter()
            .zip(groups)
            .all(|(group, lines)| is_group(group, lines))
}

fn one<T: Copy + Default, const N: usize>(value: T) -> ArrayVec<T, N>
    requires { 1 ≤ N }
    ensures { result.items ≡ value ∷ [] }
{
    let mut list = ArrayVec::new();
    list.push(value);
    list
}

// The kinds that are usual, blocks of 512 bytes, one offset, origin 0, no drops.
#[tactic(auto, using(crate::proofs::TestAsks::bounds_are, crate::proofs::TestAsks::tests_are))]
pub fn ask(offset: u64, end: u64) -> Ask
    requires { offset < 2 ^ 55 }
    ensures limits { IsAsk result }
    ensures end { result.end ≡ end }
    ensures drops { result.drops.items ≡ [] }
    ensures each { result.each ≡ false }
{
    let bounds = Bounds {
        levels: one(Level::Raid0),
        members: one(2),
        patterns: one(Pattern::Plain),
        delays: one(1),
        syndromes: one(Syndrome::NoQ),
        chunks: one(8),
        offsets: one(offset),
        missing: 0,
        foreign: 0,
    };
    let tests = MarkTests {
        origins: one(0),
        misfits: 0,
        least: 1,
    };
    Ask {
        bounds,
        end,
        limits: Limits {
            badrows: 0,
            window: 1,
        },
        tests,
        kinds: Kinds::usual(),
        drops: ArrayVec::new(),
        each: false,
        unit: 1,
    }
}

// Whether an image is attached that reaches to the end.
fn is_long(images: &MemImages, image: u32, end: u64) -> bool
    ensures { IsTrue result → IsSomeAnd (slice_get (seen_of images.now).attached image) (λ a. (end ≤ a.sectors) × (a.sectors < 2 ^ 55)) }
{
    match images.length(image) {
        Some(sectors) => end <= sectors && sectors < SECTORS_END,
        None => false,
    }
}

// Whether `count` images are attached, and each reaches to the end.
fn are_long(images: &MemImages, count: u32, end: u64) -> bool
    ensures { IsTrue result → (length (seen_of images.now).attached ≡ count)
        × All (λ image. image.sectors < 2 ^ 55) (seen_of images.now).attached
        × All (λ image. end ≤ image.sectors) (seen_of images.now).attached }
{
    for image in 0..count {
        if !is_long(images, image, end) {
            return false;
        }
    }
    images.length(count).is_none()
}

// Surveys some images, of which the first is one of the shortest.
fn plan_of<R: Abort + AllocGlobal>(
    rt: &R,
    images: &mut MemImages,
    count: usize,
    ask: &Ask,
) -> Result<Plan, SurveyFault>
    requires limits { IsAsk ask.now }
    requires each { ask.now.each ≡ false }
{
    assert!(rt; 1 <= count && count <= 24);
    assert!(rt; are_long(images, count as u32, ask.end));
    survey(rt.alloc(), images, ask)
}

/// Surveys images of these numbers of sectors, zero but for the fields of both lists, and compares the origins and the groups of the plan.
pub fn finds<R: Abort + AllocGlobal>(
    rt: &R,
    lengths: &[usize],
    base: &[Placed],
    placed: &[Placed],
    ask: &Ask,
    origins: &[u64],
    groups: &[Lines],
) -> Result<(), Fail>
    requires limits { IsAsk ask.now }
    requires each { ask.now.each ≡ false }
{
    let mut images = images_of(rt.alloc(), lengths, base, placed)?;
    let plan = plan_of(rt, &mut images, lengths.len(), ask)?;
    assert_eq!(rt; plan.tests.origins.as_slice(), origins);
    assert!(rt; are_groups(&plan, groups));
    Ok(())
}

// Surveys an image with these fields and those of the row.
fn finds_row<R: Abort + AllocGlobal>(rt: &R, base: &[Placed], row: &Row) -> Result<(), Fail> {
    let (placed, kinds, groups) = *row;
    let mut asked = ask(0, 400);
    asked.kinds = Kinds::among(kinds);
    finds(rt, &[400], base, placed, &asked, &[0], groups)
}

/// Surveys an image with these fields and those of each row in turn.
pub fn finds_all<R: Abort + AllocGlobal>(
    rt: &R,
    base: &[Placed],
    rows: &[Row],
) -> Result<(), Fail> {
    for row in rows {
        finds_row(rt, base, row)?;
    }
    Ok(())
}

/// Whether a survey of two images of 64 sectors ends with the images' fault, where that call of theirs fails.
pub fn ends_at<R: Abort + AllocGlobal>(rt: &R, placed: &[Placed], call: u64) -> Result<bool, Fail> {
    let mut images = images_of(rt.alloc(), &[64, 64], placed, &[])?;
    images.fail_call(call)?;
    let found = plan_of(rt, &mut images, 2, &ask(0, 64));
    Ok(matches!(found, Err(SurveyFault::ReadFault)))
}
