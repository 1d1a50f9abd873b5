//! The command `salvage`.
ghost use Rattle.std.specs.Prelude.{◌≡◌, ◌<◌, ◌≤◌, ◌^◌, ◌∷◌, All, Err, IfErr, IfOk, IfSome, IsTrue, MatchResult, None, Ok, OnOk, Some, false, length, min};
ghost use Rattle.std.specs.Io.KnownBytes.{IsAtEnd};
ghost use Rattle.outside.specs.Streams.{Stream};
ghost use Rattle.raid_params.specs.Size.{volume_sectors};
ghost use Rattle.raid_params.specs.Wide.{wide_fault};
ghost use Rattle.rescue_map.specs.Damaged.{IsDamaged};
ghost use Rattle.rescue_map.specs.LostText.{lost_text as lost_text_of};
ghost use Rattle.rescue_map.specs.Salvaged.{IsReadAhead, IsSalvaged};
ghost use Rattle.rescue_text.specs.RescueText.{rescue_sections};
ghost use Rattle.run_ends.specs.Agreement.{end_of as end_of_images};
ghost use Rattle.run_ends.specs.Counts.{Raises};
ghost use Rattle.run_ends.specs.Jobs.{Does, EndsEarly, around, named, stream};
ghost use Rattle.run_ends.specs.Source.{TakesFew};
ghost use Rattle.salvage_job.specs.Salvaging.{IsReady, IsUnreadable, IsUnready, IsUnrescued, rule_refusal, salvage_job};
ghost use Rattle.set_jobs.specs.Mapping.{images_refusal};
ghost use Rattle.set_jobs.specs.Writing.{told_for};

use gates::Gate;
use outside::{Images, MOST_ATTACHED, Sink, Source};
use raid_params::{Wide, WideFault};
use rescue_map::{Rescue, RescueFault, lost_text, read_rescue};
use run_ends::{Refusal, Stop, print, text_left};
use set_jobs::{images_end, stop_of};
use std::alloc::Global;
use std::thread::Threads;
use value_text::Text;

/// The most bytes of a rescue text.
const RESCUE_BYTES: usize = 4_194_304;

/// What the work begins with, once nothing is refused.
#[derive(Drop)]
pub struct Ready {
    /// The image sector after the last one of the members.
    pub end: u64,
    /// What was read of the images.
    pub rescue: Rescue,
}

/// Writes the volume of a set whose images have unreadable areas, by the rescue text of the source, or, where `lost` is set,
/// prints what of it is lost. `names` is the number of images; `end` is the image sector after the last one of the members,
/// or None for the shortest image's.
///
/// The text of what is lost is made before any of it is put, so only a fault of the output leaves a part of it, and no image is
/// read. The volume is put as it is read: a fault of the images leaves whole sectors of it. The images are looked at before
/// the source is read, and the rescue text is let go before the first sector is read.
#[inline(never)]
pub fn salvage<R: Threads + Sync, S: Source, I: Images, K: Sink, G: Gate + Sync>(
    rt: &R,
    alloc: Global,
    source: &mut S,
    images: &mut I,
    names: usize,
    set: &Wide,
    lost: bool,
    end: Option<u64>,
    out: &mut K,
    gate: &G,
) -> Result<(), Stop>
    requires attached { length (I.seen images.old).attached ≡ min names MOST_ATTACHED }
    requires small { All (λ image. image.sectors < 2 ^ 55) (I.seen images.old).attached }
    requires end { IfSome end (λ sector. sector < 2 ^ 55) }
    ensures does { Does (salvage_job set.now lost end) (named names (I.seen images.old).attached)
        (around (I.seen images.old) (stream (S.left source.old) (S.faults source.old)))
        (around (I.seen images.new) (stream (S.left source.new) (S.faults source.new)))
        (stream (K.gained out.old) (K.faults out.old)) (stream (K.gained out.new) (K.faults out.new)) result }

    // No more is read than for what the output gained, and for one block of the volume more, also where it failed.
    ensures ahead { lost ≡ false → IfSome (S.left source.old) (λ text. IfOk (rescue_sections names text) (λ sections. IfSome (told_for set.now (I.seen images.old).attached)
        (λ bytes. IsReadAhead sections set.now (volume_sectors set.now.geo.head (end_of_images end (I.seen images.old).attached))
        (I.seen images.old).sectors_read (I.seen images.new).sectors_read (K.gained out.old) (K.gained out.new)))) }
    ensures untouched { IsTrue lost → I.seen images.new ≡ I.seen images.old }
    ensures kept { (I.seen images.new).attached ≡ (I.seen images.old).attached }
{
    let ready = prepare(alloc, source, images, names, set, end)?;
    if lost {
        return print(out, lost_answer(alloc, set, &ready));
    }
    match rescue_map::salvage(rt, alloc, images, set, ready.end, &ready.rescue, out, gate) {
        Ok(()) => Ok(()),
        Err(fault) => Err(stop_of(fault)),
    }
}

/// The text of what is lost.
fn lost_answer(alloc: Global, set: &Wide, ready: &Ready) -> Result<Text, Stop>
    requires { IsDamaged set.now ready.now.end }
    ensures { MatchResult result (λ text. text ≡ lost_text_of ready.now.rescue set.now ready.now.end) (λ stop. stop ≡ Stop.OutOfMemory) }
{
    match lost_text(alloc, set, ready.end, &ready.rescue) {
        Ok(text) => Ok(text),
        Err(_) => Err(Stop::OutOfMemory),
    }
}

/// What the work begins with: the images are looked at, the rescue text is read, and the set is tested.
pub fn prepare<S: Source, I: Images>(
    alloc: Global,
    source: &mut S,
    images: &I,
    names: usize,
    set: &Wide,
    end: Option<u64>,
) -> Result<Ready, Stop>
    requires attached { length (I.seen images.now).attached ≡ min names MOST_ATTACHED }
    requires small { All (λ image. image.sectors < 2 ^ 55) (I.seen images.now).attached }
    requires end { IfSome end (λ sector. sector < 2 ^ 55) }
    ensures ready { IfOk result (IsReady set.now end names (I.seen images.now).attached (S.left source.old)) }
    ensures unready { IfErr result (IsUnready set.now end names (I.seen images.now).attached (S.left source.old)) }
    ensures early { EndsEarly (images_refusal set.now end names (I.seen images.now).attached)
        (stream (S.left source.old) (S.faults source.old)) (stream (S.left source.new) (S.faults source.new)) result }
    ensures takes { TakesFew 4194304 (S.left source.old) (S.left source.new) }
    ensures end { OnOk result (IsAtEnd (S.left source.new)) }
    ensures faults { Raises Stop.SourceFault (S.faults source.old) (S.faults source.new) result }
{
    match images_end(images, names, set, end) {
        Ok(end) => match rescue_left(alloc, source, names as u8) {
            Ok(rescue) => match set.validate(names as u8, end) {
                Ok(()) => Ok(Ready { end, rescue }),
                Err(fault) => Err(Stop::Refused(refusal_of(fault))),
            },
            Err(stop) => Err(stop),
        },
        Err(refusal) => Err(Stop::Refused(refusal)),
    }
}

/// The refusal of a set that breaks a rule.
fn refusal_of(fault: WideFault) -> Refusal
    ensures { result ≡ rule_refusal fault }
{
    match fault {
        WideFault::Geo(fault) => Refusal::Set(fault),
        WideFault::Bases(count) => Refusal::Bases(count),
    }
}

/// What was read of so many images, by the text that a source has left: 4,194,304 bytes of it at most. The text is let go.
pub fn rescue_left<S: Source>(alloc: Global, source: &mut S, images: u8) -> Result<Rescue, Stop>
    ensures read { IfOk result (λ rescue. IfSome (S.left source.old) (λ text. (length text ≤ 4194304) × (rescue_sections images text ≡ Ok rescue))) }
    ensures unread { IfErr result (IsUnrescued images (S.left source.old)) }
    ensures takes { TakesFew 4194304 (S.left source.old) (S.left source.new) }
    ensures end { OnOk result (IsAtEnd (S.left source.new)) }
    ensures faults { Raises Stop.SourceFault (S.faults source.old) (S.faults source.new) result }
{
    match text_left(alloc, source, RESCUE_BYTES, Refusal::RescueIsLong) {
        Ok(text) => rescue_in(alloc, &text, images),
        Err(stop) => Err(stop),
    }
}

/// What a text says was read of so many images.
fn rescue_in(alloc: Global, text: &[u8], images: u8) -> Result<Rescue, Stop>
    ensures { MatchResult result (λ rescue. rescue_sections images text.now ≡ Ok rescue) (IsUnreadable images text.now) }
{
    match read_rescue(alloc, text, images) {
        Ok(rescue) => Ok(rescue),
        Err(RescueFault::Line(number)) => Err(Stop::Refused(Refusal::RescueLine(number))),
        Err(RescueFault::Memory) => Err(Stop::OutOfMemory),
    }
}
