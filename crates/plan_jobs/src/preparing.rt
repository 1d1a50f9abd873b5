//! Reading the plan, and comparing the images with it.
ghost use Rattle.std.specs.Prelude.{◌≡◌, ◌≤◌, IfErr, IfOk, IfSome, OnOk, length, min};
ghost use Rattle.std.specs.Io.KnownBytes.{IsAtEnd};
ghost use Rattle.run_ends.specs.Agreement.{plan_fault as plan_fault_of};
ghost use Rattle.run_ends.specs.Counts.{Raises};
ghost use Rattle.run_ends.specs.Source.{TakesFew};
ghost use Rattle.plan_jobs.specs.Preparing.{EndsPreparing, IsPlanless, IsPrepared};
ghost use Rattle.plan_text.specs.PlanText.{ReadsPlan};
ghost use Rattle.search_plan.specs.Plans.{IsPlan};

use outside::{Images, MOST_ATTACHED, Source};
use plan_text::{Plan, PlanFault, read_plan};
use run_ends::{Refusal, Stop, plan_fault, text_left};
use search_plan::PLAN_BYTES;
use std::alloc::Global;

/// Reads the plan to the end of its source, and compares `names` images with it.
#[tactic(auto, using(crate::proofs::Plans::text_ends, crate::proofs::Plans::plan_ends, crate::proofs::Plans::disagrees, crate::proofs::Plans::is_prepared, crate::proofs::Plans::few_lengths))]
pub(crate) fn prepare<S: Source, I: Images>(
    alloc: Global,
    source: &mut S,
    images: &I,
    names: usize,
) -> Result<Plan, Stop>
    requires attached { length (I.seen images.now).attached ≡ min names MOST_ATTACHED }
    ensures plan { IfOk result IsPlan }
    ensures agrees { IfOk result (λ plan. plan_fault_of plan.lengths.items names (I.seen images.now).attached ≡ None) }
    ensures prepared { IfOk result (IsPrepared (S.left source.old) names (I.seen images.now).attached) }
    ensures ends { IfErr result (EndsPreparing (S.left source.old) names (I.seen images.now).attached) }
    ensures takes { TakesFew PLAN_BYTES (S.left source.old) (S.left source.new) }
    ensures end { OnOk result (IsAtEnd (S.left source.new)) }
    ensures faults { Raises Stop.SourceFault (S.faults source.old) (S.faults source.new) result }
{
    let text = text_left(alloc, source, PLAN_BYTES, Refusal::PlanIsLong)?;
    let plan = plan_in(alloc, &text)?;
    match plan_fault(images, names, &plan.lengths) {
        Some(fault) => Err(Stop::Refused(Refusal::Images(fault))),
        None => Ok(plan),
    }
}

/// The plan that a text says.
fn plan_in(alloc: Global, text: &[u8]) -> Result<Plan, Stop>
    ensures reads { IfOk result (λ plan. ReadsPlan text.now (Ok plan)) }
    ensures ends { IfErr result (IsPlanless text.now) }
{
    match read_plan(alloc, text) {
        Ok(plan) => Ok(plan),
        Err(PlanFault::Line(number)) => Err(Stop::Refused(Refusal::PlanLine(number))),
        Err(PlanFault::Memory) => Err(Stop::OutOfMemory),
    }
}
