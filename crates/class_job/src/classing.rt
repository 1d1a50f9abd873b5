//! The command `classes`.
ghost use Rattle.outside.specs.Seen.{Seen};
ghost use Rattle.run_ends.specs.Jobs.{Answers, Does, Named, around, stream};
ghost use Rattle.std.specs.Prelude.{MatchResult};
ghost use Rattle.class_job.specs.Classing.{classes_job, IsListless};
ghost use Rattle.volume_classes.specs.Classes.{IsClassed};

use outside::{Sink, Source};
use run_ends::{Refusal, Stop, print, text_left};
use std::alloc::Global;
use value_text::Text;
use volume_classes::ClassFault;

/// The most bytes of a list of sets.
const LIST_BYTES: usize = 4_194_304;

/// Prints the classes of the sets that the source lists, of `images` images whose members end before the image sector `end`.
/// The text is made before any of it is put, so only a fault of the output leaves a part of it.
#[inline(never)]
pub fn classes<S: Source, K: Sink>(
    alloc: Global,
    source: &mut S,
    images: u8,
    end: u64,
    out: &mut K,
) -> Result<(), Stop>
    ensures { (seen : Seen) (given : Named) → Does (classes_job images end) given
        (around seen (stream (S.left source.old) (S.faults source.old)))
        (around seen (stream (S.left source.new) (S.faults source.new)))
        (stream (K.gained out.old) (K.faults out.old)) (stream (K.gained out.new) (K.faults out.new)) result }
{
    print(out, answer(alloc, source, images, end))
}

/// The text of `classes`, or why there is none.
fn answer<S: Source>(alloc: Global, source: &mut S, images: u8, end: u64) -> Result<Text, Stop>
    ensures { (seen : Seen) (given : Named) → Answers (classes_job images end) given
        (around seen (stream (S.left source.old) (S.faults source.old)))
        (around seen (stream (S.left source.new) (S.faults source.new))) result }
{
    match text_left(alloc, source, LIST_BYTES, Refusal::SetsAreLong) {
        Ok(text) => classes_in(alloc, &text, images, end),
        Err(stop) => Err(stop),
    }
}

/// The text of the classes of the sets that a text lists.
fn classes_in(alloc: Global, text: &[u8], images: u8, end: u64) -> Result<Text, Stop>
    ensures { MatchResult result (IsClassed images end text.now) (IsListless images end text.now) }
{
    match volume_classes::classes(alloc, text, images, end) {
        Ok(answer) => Ok(answer),
        Err(ClassFault::Line(number)) => Err(Stop::Refused(Refusal::SetLine(number))),
        Err(ClassFault::Memory) => Err(Stop::OutOfMemory),
    }
}
