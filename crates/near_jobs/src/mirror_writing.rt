//! The command `mirrorwrite`.
ghost use Rattle.std.specs.Prelude.{◌≡◌, ◌<◌, ◌^◌, All, IfErr, IfOk, IfSome, None, OnOk, Some, length, min};
ghost use Rattle.outside.specs.Attached.{told_all};
ghost use Rattle.outside.specs.Streams.{Stream};
ghost use Rattle.run_ends.specs.Agreement.{end_of as end_of_images};
ghost use Rattle.run_ends.specs.Jobs.{Does, around, named, stream};
ghost use Rattle.member_regions.specs.declared.regions.TheConstants.{BLOCK};
ghost use Rattle.virtual_volume.specs.Gained.{IsAhead};
ghost use Rattle.near_volume.specs.Mirrored.{IsMirrored};
ghost use Rattle.near_jobs.specs.MirrorWriting.{mirror_refusal, mirrorwrite_job};

use near_mirror::NearSet;
use near_volume::write_near;
use outside::{Images, MOST_ATTACHED, Sink};
use run_ends::{Refusal, Stop, end_of, limits_fault};
use set_jobs::stop_of;
use std::alloc::Global;

/// Writes the volume of a mirror as it is read. `names` is the number of images; `end` is the image sector after the last one of the
/// members, or None for the shortest image's.
#[inline(never)]
pub fn mirrorwrite<I: Images, K: Sink>(
    alloc: Global,
    images: &mut I,
    names: usize,
    set: &NearSet,
    end: Option<u64>,
    out: &mut K,
) -> Result<(), Stop>
    requires attached { length (I.seen images.old).attached ≡ min names MOST_ATTACHED }
    requires small { All (λ image. image.sectors < 2 ^ 55) (I.seen images.old).attached }
    requires end { IfSome end (λ sector. sector < 2 ^ 55) }
    ensures does { (source : Stream) → Does (mirrorwrite_job set.now end) (named names (I.seen images.old).attached)
        (around (I.seen images.old) source) (around (I.seen images.new) source)
        (stream (K.gained out.old) (K.faults out.old)) (stream (K.gained out.new) (K.faults out.new)) result }
    ensures ahead { IfSome (told_all (I.seen images.old).attached)
        (λ bytes. IsAhead BLOCK (I.seen images.old).sectors_read (I.seen images.new).sectors_read (K.gained out.old) (K.gained out.new)) }
    ensures kept { (I.seen images.new).attached ≡ (I.seen images.old).attached }
{
    match mirrored_end(images, names, set, end) {
        Ok(end) => match write_near(alloc, images, set, end, out) {
            Ok(()) => Ok(()),
            Err(fault) => Err(stop_of(fault)),
        },
        Err(refusal) => Err(Stop::Refused(refusal)),
    }
}

/// The end of the members of a mirror whose volume can be written.
#[tactic(auto, using(crate::proofs::Mirrored::images_refused, crate::proofs::Mirrored::rule_refused, crate::proofs::Mirrored::mirror_allowed))]
pub fn mirrored_end<I: Images>(
    images: &I,
    names: usize,
    set: &NearSet,
    end: Option<u64>,
) -> Result<u64, Refusal>
    requires attached { length (I.seen images.now).attached ≡ min names MOST_ATTACHED }
    requires small { All (λ image. image.sectors < 2 ^ 55) (I.seen images.now).attached }
    requires end { IfSome end (λ sector. sector < 2 ^ 55) }
    ensures end { IfOk result (λ e. e ≡ end_of_images end (I.seen images.now).attached) }
    ensures mirrored { IfOk result (λ e. IsMirrored set.now e (I.seen images.now).attached) }
    ensures allowed { OnOk result (mirror_refusal set.now end names (I.seen images.now).attached ≡ None) }
    ensures refused { IfErr result (λ refusal. mirror_refusal set.now end names (I.seen images.now).attached ≡ Some refusal) }
{
    if let Some(fault) = limits_fault(images, names, end) {
        return Err(Refusal::Images(fault));
    }
    let end = end_of(images, names, end);
    match set.validate(names as u8, end) {
        Ok(()) => Ok(end),
        Err(rule) => Err(Refusal::Near(rule)),
    }
}
