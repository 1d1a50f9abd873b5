//! The plan of padded images.
ghost use Rattle.std.specs.Prelude.{◌≡◌, ◌≤◌, ◌<◌, ◌^◌, All, IfOk, List, length, map};
ghost use Rattle.landmark_rules.specs.Groups.{mark_place};
ghost use Rattle.outside.specs.Seen.{Image};
ghost use Rattle.image_padding.specs.Padded.{greatest_base, padded_images, padding as padding_of};
ghost use Rattle.padded_images.specs.Plans.{lengths_to, padded_group, padded_mark, padded_marks as padded_marks_of, padded_plan};
ghost use Rattle.std.specs.List.Sorted.{IsStrictlyIncreasing};
ghost use Rattle.search_plan.specs.Plans.{AgreeWith, IsPlan};

use arrayvec::ArrayVec;
use image_padding::{BASES_END, greatest_of};
use landmark_rules::{Group, Groups, Mark, MarkTests, Marks};
use outside::Memory;
use raid_params::{Bounds, MOST};
use search_plan::Plan;
use std::alloc::Global;

/// The plan of the images once they are padded by their bases, in sectors, one for each image of the plan: each
/// length grows by the padding of its image, each mark is padded with its image, and the marks of a group come in
/// their order again. All else is as in the plan.
pub fn pad_plan(alloc: Global, plan: &Plan, bases: &[u64]) -> Result<Plan, Memory>
    requires plan { IsPlan plan.now }
    requires each { length bases.now ≡ length plan.now.lengths.items }
    requires near { All (λ base. base < BASES_END) bases.now }
    requires short { All (λ n. n < BASES_END) plan.now.lengths.items }
    ensures padded { IfOk result (λ padded. padded ≡ padded_plan bases.now plan.now) }
    ensures plan { IfOk result (λ padded. IsPlan padded) }
    ensures agree { IfOk result (λ padded. (attached : List Image) → AgreeWith plan.now attached →
        AgreeWith padded (padded_images bases.now attached)) }
{
    let greatest = greatest_of(bases);
    let groups = padded_groups(alloc, &plan.groups, bases, greatest)?;
    Ok(Plan {
        lengths: padded_lengths(&plan.lengths, bases, greatest),
        end: plan.end,
        bounds: copy_bounds(&plan.bounds),
        limits: plan.limits,
        tests: copy_tests(&plan.tests),
        groups,
        each: false,
    })
}

/// The lengths of padded images.
fn padded_lengths(
    lengths: &ArrayVec<u64, MOST>,
    bases: &[u64],
    greatest: u64,
) -> ArrayVec<u64, MOST>
    requires greatest { greatest ≡ greatest_base bases.now }
    requires near { greatest < BASES_END }
    requires short { All (λ n. n < BASES_END) lengths.now.items }
    ensures { result.items ≡ lengths_to (greatest_base bases.now) bases.now lengths.now.items }
{
    let mut padded = ArrayVec::new();
    for (image, length) in lengths.as_slice().iter().enumerate() {
        padded.push(padding(bases, greatest, image) + *length);
    }
    padded
}

/// The groups, each mark padded with its image.
fn padded_groups(
    alloc: Global,
    groups: &Groups,
    bases: &[u64],
    greatest: u64,
) -> Result<Groups, Memory>
    requires greatest { greatest ≡ greatest_base bases.now }
    requires near { greatest < BASES_END }
    requires few { All (λ group. All (λ mark. mark.image < MOST) group.marks) groups.now }
    requires short { All (λ group. All (λ mark. mark.sector < BASES_END) group.marks) groups.now }
    requires rising { All (λ group. IsStrictlyIncreasing (map mark_place group.marks)) groups.now }
    ensures { IfOk result (λ padded. padded ≡ map (padded_group bases.now) groups.now) }
{
    let mut padded = Groups::new(alloc);
    for group in groups.as_slice() {
        padded.push(Group {
            kind: group.kind,
            marks: padded_marks(alloc, &group.marks, bases, greatest)?,
            bounds: group.bounds,
        })?;
    }
    Ok(padded)
}

/// The marks of a group, each padded with its image, in their order.
fn padded_marks(alloc: Global, marks: &Marks, bases: &[u64], greatest: u64) -> Result<Marks, Memory>
    requires greatest { greatest ≡ greatest_base bases.now }
    requires near { greatest < BASES_END }
    requires few { All (λ mark. mark.image < MOST) marks.now }
    requires short { All (λ mark. mark.sector < BASES_END) marks.now }
    requires rising { IsStrictlyIncreasing (map mark_place marks.now) }
    ensures { IfOk result (λ padded. padded ≡ padded_marks_of bases.now marks.now) }
{
    let mut unsorted = unsorted_marks(alloc, marks, bases, greatest)?;
    unsorted.sort_unstable_by_key(place_of);
    let mut padded = Marks::new(alloc);
    padded.extend_from_slice(&unsorted)?;
    Ok(padded)
}

/// The marks of a group, each padded with its image, in the order in which they were.
fn unsorted_marks(
    alloc: Global,
    marks: &Marks,
    bases: &[u64],
    greatest: u64,
) -> Result<Vec<Mark>, Memory>
    requires greatest { greatest ≡ greatest_base bases.now }
    requires near { greatest < BASES_END }
    requires short { All (λ mark. mark.sector < BASES_END) marks.now }
    ensures { IfOk result (λ unsorted. unsorted.items ≡ map (padded_mark bases.now) marks.now) }
{
    let mut unsorted = Vec::new(alloc);
    for mark in marks.as_slice() {
        let padding = padding(bases, greatest, mark.image as usize);
        let padded = Mark {
            kind: mark.kind,
            image: mark.image,
            sector: padding + mark.sector,
            rule: mark.rule,
        };
        if unsorted.push(padded).is_err() {
            return Err(Memory);
        }
    }
    Ok(unsorted)
}

/// The place of a mark in its group: by its sector, and on one sector by its image.
fn place_of(mark: &Mark) -> u128
    ensures { result ≡ mark_place mark.now }
{
    u128::from(mark.sector) * MOST as u128 + u128::from(mark.image)
}

/// The sectors of zero before an image.
fn padding(bases: &[u64], greatest: u64, image: usize) -> u64
    requires { greatest ≡ greatest_base bases.now }
    ensures { result ≡ padding_of bases.now image }
{
    match bases.get(image) {
        Some(&base) => greatest.saturating_sub(base),
        None => 0,
    }
}

/// A copy of the bounds, list by list.
fn copy_bounds(bounds: &Bounds) -> Bounds
    ensures { result ≡ bounds.now }
{
    Bounds {
        levels: copy(&bounds.levels),
        members: copy(&bounds.members),
        patterns: copy(&bounds.patterns),
        delays: copy(&bounds.delays),
        syndromes: copy(&bounds.syndromes),
        chunks: copy(&bounds.chunks),
        offsets: copy(&bounds.offsets),
        missing: bounds.missing,
        foreign: bounds.foreign,
    }
}

/// A copy of what is asked of groups.
fn copy_tests(tests: &MarkTests) -> MarkTests
    ensures { result ≡ tests.now }
{
    MarkTests {
        origins: copy(&tests.origins),
        misfits: tests.misfits,
        least: tests.least,
    }
}

/// A copy of a list.
fn copy<T: Copy + Default, const N: usize>(list: &ArrayVec<T, N>) -> ArrayVec<T, N>
    ensures { result ≡ list.now }
{
    let mut copy = ArrayVec::new();
    copy.try_extend_from_slice(list.as_slice()).unwrap();
    copy
}
