//! The command `check`.
ghost use Rattle.std.specs.Prelude.{◌≡◌, ◌<◌, ◌≤◌, ◌^◌, IfNone, length, min};
ghost use Rattle.run_ends.specs.Agreement.{plan_fault as plan_fault_of};
ghost use Rattle.run_ends.specs.Jobs.{Does, around, named, stream};
ghost use Rattle.run_ends.specs.Stops.{first_of};
ghost use Rattle.plan_jobs.specs.Checking.{check_job, check_over, check_reads, check_refusals, check_text, long_refusal, tested_reads, tests_text};
ghost use Rattle.plan_jobs.specs.Plans.{AnswersOver};
ghost use Rattle.plan_jobs.specs.Testing.{IsTestedBy, Tests};
ghost use Rattle.outside.specs.Attached.{told_all};
ghost use Rattle.search_plan.specs.Plans.{IsPlan};
ghost use Rattle.value_text.specs.SetText.{HasWord};
ghost use Rattle.raid_params.specs.Wide.{wide_fault};
ghost use Rattle.parity_scan.specs.Scan.{IsScannable};
ghost use Rattle.padded_images.specs.Plans.{padded_plan};
ghost use Rattle.wide_product.specs.Sets.{padded_bytes, wide_total};

use crate::preparing::prepare;
use crate::reporting::report;
use outside::{Images, MOST_ATTACHED, Sink, Source};
use padded_images::{Padded, pad_plan};
use plan_text::Text;
use raid_params::{Geometry, MOST, Wide, WideFault};
use row_scan::{ScanFault, unsound};
use run_ends::{Refusal, Stop, long_fault, print};
use search_plan::Plan;
use std::alloc::Global;
use wide_product::{product_rank, product_total};

/// Prints the tests of one set against a plan: its rank, how many tested rows are unsound, where each group
/// of landmarks holds, and the verdict. A set with bases is tested over the padded images and their plan. `names` is the
/// number of images.
#[inline(never)]
pub fn check<S: Source, I: Images, K: Sink>(
    alloc: Global,
    source: &mut S,
    images: &mut I,
    names: usize,
    set: &Wide,
    out: &mut K,
) -> Result<(), Stop>
    requires attached { length (I.seen images.old).attached ≡ min names MOST_ATTACHED }
    requires set { HasWord set.now }
    ensures does { Does (check_job set.now) (named names (I.seen images.old).attached)
        (around (I.seen images.old) (stream (S.left source.old) (S.faults source.old)))
        (around (I.seen images.new) (stream (S.left source.new) (S.faults source.new)))
        (stream (K.gained out.old) (K.faults out.old)) (stream (K.gained out.new) (K.faults out.new)) result }
    ensures kept { (I.seen images.new).attached ≡ (I.seen images.old).attached }
{
    match prepare(alloc, source, images, names) {
        Ok(plan) => print(out, text_over(alloc, images, names, set, &plan)),
        Err(stop) => Err(stop),
    }
}

/// The text of `check` over a plan that the images agree with.
#[tactic(auto, using(crate::proofs::Prepared::names_agree))]
fn text_over<I: Images>(
    alloc: Global,
    images: &mut I,
    names: usize,
    set: &Wide,
    plan: &Plan,
) -> Result<Text, Stop>
    requires attached { length (I.seen images.old).attached ≡ min names MOST_ATTACHED }
    requires set { HasWord set.now }
    requires plan { IsPlan plan.now }
    requires agrees { plan_fault_of plan.now.lengths.items names (I.seen images.old).attached ≡ None }
    ensures { AnswersOver (check_over set.now) names plan.now (I.seen images.old) (I.seen images.new) result }
{
    match refused(images, names, set, plan) {
        None => tests(alloc, images, set, plan),
        Some(refusal) => Err(Stop::Refused(refusal)),
    }
}

/// What is refused of the images, a plan and a set before the tests.
#[tactic(auto, using(crate::proofs::Plans::few_lengths, crate::proofs::Checks::long_refused, crate::proofs::Checks::many_refused, crate::proofs::Checks::rule_refused))]
fn refused<I: Images>(images: &I, names: usize, set: &Wide, plan: &Plan) -> Option<Refusal>
    requires plan { IsPlan plan.now }
    requires names { names ≡ length plan.now.lengths.items }
    requires attached { length (I.seen images.now).attached ≡ names }
    ensures first { result ≡ first_of (check_refusals set.now names (I.seen images.now).attached plan.now) }
    ensures short { IfNone result (long_refusal set.now (I.seen images.now).attached ≡ None) }
    ensures few { IfNone result (wide_total plan.now < 2 ^ 64) }
    ensures ruled { IfNone result (wide_fault set.now names plan.now.end ≡ None) }
{
    if let Some(refusal) = too_long(images, names, set) {
        return Some(refusal);
    }
    if product_total(plan).is_none() {
        return Some(Refusal::Many);
    }
    match set.validate(names as u8, plan.end) {
        Ok(()) => None,
        Err(WideFault::Geo(fault)) => Some(Refusal::Set(fault)),
        Err(WideFault::Bases(count)) => Some(Refusal::Bases(count)),
    }
}

/// The first of `count` images that is too long for the bases of the set.
fn too_long<I: Images>(images: &I, count: usize, set: &Wide) -> Option<Refusal>
    requires attached { length (I.seen images.now).attached ≡ count }
    requires few { count ≤ MOST }
    ensures { result ≡ long_refusal set.now (I.seen images.now).attached }
{
    if set.bases.is_empty() {
        return None;
    }
    match long_fault(images, count) {
        Some(fault) => Some(Refusal::Images(fault)),
        None => None,
    }
}

/// The text of `check` over a set that breaks no rule.
fn tests<I: Images>(alloc: Global, images: &mut I, set: &Wide, plan: &Plan) -> Result<Text, Stop>
    requires plan { IsPlan plan.now }
    requires few { wide_total plan.now < 2 ^ 64 }
    requires set { IsTestedBy set.now plan.now (I.seen images.old).attached }
    ensures { Tests (check_reads set.now (I.seen images.old).attached plan.now) (λ bytes. check_text bytes plan.now set.now) (told_all (I.seen images.old).attached)
        (I.seen images.old) (I.seen images.new) result }
{
    let rank = product_rank(plan, set);
    if set.bases.is_empty() {
        tests_over(alloc, images, &set.geo, plan, rank)
    } else {
        padded_tests(alloc, images, set, plan, rank)
    }
}

/// The text of `check` over a set with bases, of this rank in the product: over the padded images and their plan.
fn padded_tests<I: Images>(
    alloc: Global,
    images: &mut I,
    set: &Wide,
    plan: &Plan,
    rank: Option<u64>,
) -> Result<Text, Stop>
    requires plan { IsPlan plan.now }
    requires some { 0 < length set.now.bases.items }
    requires set { IsTestedBy set.now plan.now (I.seen images.old).attached }
    ensures { Tests (check_reads set.now (I.seen images.old).attached plan.now) (λ bytes. tests_text rank (padded_bytes set.now.bases.items bytes) (padded_plan set.now.bases.items plan.now) set.now.geo)
        (told_all (I.seen images.old).attached) (I.seen images.old) (I.seen images.new) result }
{
    let plan = pad_plan(alloc, plan, &set.bases)?;
    let mut padded = Padded::new(images, &set.bases);
    tests_over(alloc, &mut padded, &set.geo, &plan, rank)
}

/// The text of `check` over a set of this rank in the product.
fn tests_over<I: Images>(
    alloc: Global,
    images: &mut I,
    set: &Geometry,
    plan: &Plan,
    rank: Option<u64>,
) -> Result<Text, Stop>
    requires plan { IsPlan plan.now }
    requires set { IsScannable set.now plan.now.end (I.seen images.old).attached }
    ensures { Tests (tested_reads set.now (I.seen images.old).attached plan.now) (λ bytes. tests_text rank bytes plan.now set.now) (told_all (I.seen images.old).attached)
        (I.seen images.old) (I.seen images.new) result }
{
    match unsound(alloc, images, plan, set) {
        Ok(unsound) => Ok(report(alloc, set, plan, rank, unsound)?),
        Err(ScanFault::ReadFault) => Err(Stop::ImageFault),
        Err(ScanFault::Memory) => Err(Stop::OutOfMemory),
    }
}
