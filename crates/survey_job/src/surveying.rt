//! The command `survey`.
ghost use Rattle.std.specs.Prelude.{◌≡◌, ◌≤◌, ◌<◌, ◌^◌, All, IfErr, IfOk, IfSome, OnOk, length, min};
ghost use Rattle.outside.specs.Attached.{told_all};
ghost use Rattle.outside.specs.Seen.{OnlyReads};
ghost use Rattle.outside.specs.Streams.{Stream};
ghost use Rattle.command_words.specs.Commands.{AreAsked};
ghost use Rattle.plan_text.specs.PlanText.{plan_text};
ghost use Rattle.run_ends.specs.Cuts.{CutsShort};
ghost use Rattle.run_ends.specs.Jobs.{Answers, Does, around, named, stream};
ghost use Rattle.survey_engine.specs.Surveys.{survey_reads as reads_of, IsSurveyable};
ghost use Rattle.survey_job.specs.Surveying.{ask_of as ask_of_words, survey_fault, survey_job, survey_plan};

use asked_values::{members_for, window_for};
use command_words::SurveyWords;
use outside::{Images, MOST_ATTACHED, Sink};
use plan_text::{Text, write_plan};
use raid_params::{Bounds, MOST};
use run_ends::{Disagreement, Refusal, Stop, end_of, limits_fault, long_fault, print};
use search_plan::Limits;
use std::alloc::Global;
use survey_engine::{Ask, SurveyFault};

/// Prints the plan of a survey of the images. The text is made before any of it is put, so only a fault of the output
/// leaves a part of it. `names` is the number of images.
#[inline(never)]
pub fn survey<I: Images, K: Sink>(
    alloc: Global,
    images: &mut I,
    names: usize,
    asked: SurveyWords,
    out: &mut K,
) -> Result<(), Stop>
    requires attached { length (I.seen images.old).attached ≡ min names MOST_ATTACHED }
    requires small { All (λ image. image.sectors < 2 ^ 55) (I.seen images.old).attached }
    requires asked { AreAsked asked }
    ensures does { (source : Stream) → Does (survey_job asked) (named names (I.seen images.old).attached)
        (around (I.seen images.old) source) (around (I.seen images.new) source)
        (stream (K.gained out.old) (K.faults out.old)) (stream (K.gained out.new) (K.faults out.new)) result }
    ensures kept { (I.seen images.new).attached ≡ (I.seen images.old).attached }
{
    print(out, answer(alloc, images, names, asked))
}

/// The text of `survey`, or why there is none.
fn answer<I: Images>(
    alloc: Global,
    images: &mut I,
    names: usize,
    asked: SurveyWords,
) -> Result<Text, Stop>
    requires attached { length (I.seen images.old).attached ≡ min names MOST_ATTACHED }
    requires small { All (λ image. image.sectors < 2 ^ 55) (I.seen images.old).attached }
    requires asked { AreAsked asked }
    ensures answers { (source : Stream) → Answers (survey_job asked) (named names (I.seen images.old).attached)
        (around (I.seen images.old) source) (around (I.seen images.new) source) result }
    ensures kept { (I.seen images.new).attached ≡ (I.seen images.old).attached }
{
    if let Some(fault) = images_fault(images, names, &asked) {
        return Err(Stop::Refused(Refusal::Images(fault)));
    }
    let end = end_of(images, names, asked.end);
    let ask = ask_of(asked, names, end);
    plan_lines(alloc, images, &ask)
}

/// How the images disagree with what `survey` takes: as with any command over images, and where each is to have
/// an offset of its own, by the first that is too long for that.
#[tactic(auto, using(crate::proofs::Surveyed::all_attached))]
fn images_fault<I: Images>(images: &I, names: usize, asked: &SurveyWords) -> Option<Disagreement>
    requires attached { length (I.seen images.now).attached ≡ min names MOST_ATTACHED }
    ensures { result ≡ survey_fault asked.now names (I.seen images.now).attached }
{
    match limits_fault(images, names, asked.end) {
        Some(fault) => Some(fault),
        None if asked.each => long_fault(images, names),
        None => None,
    }
}

/// The text of the plan of a survey.
fn plan_lines<I: Images>(alloc: Global, images: &mut I, ask: &Ask) -> Result<Text, Stop>
    requires { IsSurveyable ask.now (I.seen images.old).attached }
    ensures text { IfOk result (λ text. IfSome (told_all (I.seen images.old).attached) (λ bytes. text ≡ plan_text (survey_plan ask.now (I.seen images.old).attached bytes))) }
    ensures reads { OnlyReads (I.seen images.old) (I.seen images.new) (reads_of ask.now (I.seen images.old).attached) }
    ensures quiet { OnOk result ((I.seen images.new).faults ≡ (I.seen images.old).faults) }
    ensures ends { IfErr result (CutsShort (I.seen images.old) (I.seen images.new)) }
{
    match survey_engine::survey(alloc, images, ask) {
        Ok(plan) => Ok(write_plan(alloc, &plan)?),
        Err(SurveyFault::ReadFault) => Err(Stop::ImageFault),
        Err(SurveyFault::Memory) => Err(Stop::OutOfMemory),
    }
}

/// What the words ask of a survey of `names` images, whose members end before the image sector `end`.
pub fn ask_of(asked: SurveyWords, names: usize, end: u64) -> Ask
    requires names { names ≤ MOST }
    ensures { result ≡ ask_of_words asked names end }
{
    let members = members_for(asked.bounds.members.as_slice(), names);
    Ask {
        bounds: Bounds {
            members,
            ..asked.bounds
        },
        end,
        limits: Limits {
            badrows: asked.badrows,
            window: window_for(asked.window, end),
        },
        tests: asked.tests,
        kinds: asked.kinds,
        drops: asked.drops,
        each: asked.each,
        unit: asked.unit,
    }
}
