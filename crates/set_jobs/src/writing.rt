//! The commands `write` and `rebuild`.
ghost use Rattle.std.specs.Prelude.{◌≡◌, ◌<◌, ◌^◌, ◌&&◌, All, IfErr, IfOk, IfSome, None, OnOk, Some, is_none, length, min, nat_lt, slice_index_or};
ghost use Rattle.outside.specs.Streams.{Stream};
ghost use Rattle.run_ends.specs.Agreement.{end_of};
ghost use Rattle.run_ends.specs.Jobs.{Does, around, named, stream};
ghost use Rattle.set_jobs.specs.Faults.{stop_of_volume};
ghost use Rattle.set_jobs.specs.Mapping.{set_refusal};
ghost use Rattle.set_jobs.specs.Writing.{IsServedBy, Writes, rebuild_job, rebuild_refusal, told_for, volume_reads_to, write_job};
ghost use Rattle.raid_terms.specs.Volume.{member, volume};
ghost use Rattle.value_text.specs.SetText.{HasWord};
ghost use Rattle.raid_params.specs.Size.{data_blocks};
ghost use Rattle.member_regions.specs.declared.regions.TheConstants.{BLOCK};
ghost use Rattle.member_rebuild.specs.Sectors.{IsAheadBy};
ghost use Rattle.virtual_volume.specs.Gained.{IsAhead, most_ahead};

use crate::mapping::{allowed_end, late_fault, suited_end};
use image_padding::Padded;
use outside::{Images, MOST_ATTACHED, Sink};
use raid_params::{Geometry, Wide};
use run_ends::{Refusal, Stop};
use std::alloc::Global;
use virtual_volume::{VolumeFault, write_volume};

/// Writes the volume of a set as it is read. `names` is the number of images; `end` is the image
/// sector after the last one of the members, or None for the shortest image's.
#[inline(never)]
pub fn write<I: Images, K: Sink>(
    alloc: Global,
    images: &mut I,
    names: usize,
    set: &Wide,
    end: Option<u64>,
    out: &mut K,
) -> Result<(), Stop>
    requires attached { length (I.seen images.old).attached ≡ min names MOST_ATTACHED }
    requires small { All (λ image. image.sectors < 2 ^ 55) (I.seen images.old).attached }
    requires set { HasWord set.now }
    requires end { IfSome end (λ sector. sector < 2 ^ 55) }
    ensures does { (source : Stream) → Does (write_job set.now end) (named names (I.seen images.old).attached)
        (around (I.seen images.old) source) (around (I.seen images.new) source)
        (stream (K.gained out.old) (K.faults out.old)) (stream (K.gained out.new) (K.faults out.new)) result }
    ensures ahead { IfSome (told_for set.now (I.seen images.old).attached)
        (λ bytes. IsAhead (most_ahead set.now.geo.head) (I.seen images.old).sectors_read (I.seen images.new).sectors_read (K.gained out.old) (K.gained out.new)) }
    ensures kept { (I.seen images.new).attached ≡ (I.seen images.old).attached }
{
    match served_end(images, names, set, end) {
        Ok(end) => match write_based(alloc, images, set, end, out) {
            Ok(()) => Ok(()),
            Err(fault) => Err(stop_of(fault)),
        },
        Err(refusal) => Err(Stop::Refused(refusal)),
    }
}

/// Writes the member of an empty slot of a set as the others are read. `names` is the number of images; `end` is the
/// image sector after the last one of the members, or None for the shortest image's.
#[inline(never)]
pub fn rebuild<I: Images, K: Sink>(
    alloc: Global,
    images: &mut I,
    names: usize,
    set: &Wide,
    end: Option<u64>,
    slot: u8,
    out: &mut K,
) -> Result<(), Stop>
    requires attached { length (I.seen images.old).attached ≡ min names MOST_ATTACHED }
    requires small { All (λ image. image.sectors < 2 ^ 55) (I.seen images.old).attached }
    requires set { HasWord set.now }
    requires end { IfSome end (λ sector. sector < 2 ^ 55) }
    ensures does { (source : Stream) → Does (rebuild_job set.now end slot) (named names (I.seen images.old).attached)
        (around (I.seen images.old) source) (around (I.seen images.new) source)
        (stream (K.gained out.old) (K.faults out.old)) (stream (K.gained out.new) (K.faults out.new)) result }
    ensures ahead { IfSome (told_for set.now (I.seen images.old).attached)
        (λ bytes. IsAheadBy (data_blocks set.now.geo.head) BLOCK (I.seen images.old).sectors_read (I.seen images.new).sectors_read (K.gained out.old) (K.gained out.new)) }
    ensures kept { (I.seen images.new).attached ≡ (I.seen images.old).attached }
{
    match missing_end(images, names, set, end, slot) {
        Ok(end) => match rebuild_based(alloc, images, set, end, slot, out) {
            Ok(()) => Ok(()),
            Err(fault) => Err(stop_of(fault)),
        },
        Err(refusal) => Err(Stop::Refused(refusal)),
    }
}

/// Writes the volume of a set over its images, which are padded where the set has bases.
fn write_based<I: Images, K: Sink>(
    alloc: Global,
    images: &mut I,
    set: &Wide,
    end: u64,
    sink: &mut K,
) -> Result<(), VolumeFault>
    requires { IsServedBy set.now end (I.seen images.old).attached }
    ensures does { Writes (volume_reads_to set.now end) (λ bytes. volume bytes set.now.geo end) (told_for set.now (I.seen images.old).attached)
        (I.seen images.old) (I.seen images.new) (stream (K.gained sink.old) (K.faults sink.old)) (stream (K.gained sink.new) (K.faults sink.new)) result }
    ensures ahead { IfSome (told_for set.now (I.seen images.old).attached)
        (λ bytes. IsAhead (most_ahead set.now.geo.head) (I.seen images.old).sectors_read (I.seen images.new).sectors_read (K.gained sink.old) (K.gained sink.new)) }
{
    if set.bases.is_empty() {
        write_volume(alloc, images, &set.geo, end, sink)
    } else {
        let mut padded = Padded::new(images, &set.bases);
        write_volume(alloc, &mut padded, &set.geo, end, sink)
    }
}

/// Writes the member of an empty slot of a set over its images, which are padded where the set has bases.
fn rebuild_based<I: Images, K: Sink>(
    alloc: Global,
    images: &mut I,
    set: &Wide,
    end: u64,
    slot: u8,
    sink: &mut K,
) -> Result<(), VolumeFault>
    requires served { IsServedBy set.now end (I.seen images.old).attached }
    requires slot { slot < set.now.geo.head.members }
    requires missing { slice_index_or set.now.geo.slots.items slot None ≡ None }
    ensures does { Writes (volume_reads_to set.now end) (λ bytes. member bytes set.now.geo end slot) (told_for set.now (I.seen images.old).attached)
        (I.seen images.old) (I.seen images.new) (stream (K.gained sink.old) (K.faults sink.old)) (stream (K.gained sink.new) (K.faults sink.new)) result }
    ensures ahead { IfSome (told_for set.now (I.seen images.old).attached)
        (λ bytes. IsAheadBy (data_blocks set.now.geo.head) BLOCK (I.seen images.old).sectors_read (I.seen images.new).sectors_read (K.gained sink.old) (K.gained sink.new)) }
{
    if set.bases.is_empty() {
        member_rebuild::rebuild(alloc, images, &set.geo, end, slot, sink)
    } else {
        let mut padded = Padded::new(images, &set.bases);
        member_rebuild::rebuild(alloc, &mut padded, &set.geo, end, slot, sink)
    }
}

/// Why writing ends at a fault.
pub fn stop_of(fault: VolumeFault) -> Stop
    ensures { result ≡ stop_of_volume fault }
{
    match fault {
        VolumeFault::ReadFault => Stop::ImageFault,
        VolumeFault::WriteFault => Stop::OutFault,
        VolumeFault::Memory => Stop::OutOfMemory,
    }
}

/// The end of the members of a set whose volume can be written, or shown. `names` is the number of images; `end` is the image
/// sector after the last one of the members, or None for the shortest image's.
#[tactic(auto, using(crate::proofs::Written::served))]
pub fn served_end<I: Images>(
    images: &I,
    names: usize,
    set: &Wide,
    end: Option<u64>,
) -> Result<u64, Refusal>
    requires attached { length (I.seen images.now).attached ≡ min names MOST_ATTACHED }
    requires small { All (λ image. image.sectors < 2 ^ 55) (I.seen images.now).attached }
    requires set { HasWord set.now }
    requires end { IfSome end (λ sector. sector < 2 ^ 55) }
    ensures end { IfOk result (λ e. e ≡ end_of end (I.seen images.now).attached) }
    ensures served { IfOk result (λ e. IsServedBy set.now e (I.seen images.now).attached) }
    ensures allowed { OnOk result (set_refusal set.now end names (I.seen images.now).attached ≡ None) }
    ensures refused { IfErr result (λ refusal. set_refusal set.now end names (I.seen images.now).attached ≡ Some refusal) }
{
    suited_end(images, names, set, end)
}

/// The end of the members of a set of which one slot is empty, whose member can be written.
#[tactic(auto, using(crate::proofs::Written::served, crate::proofs::SetRefusals::late_none, crate::proofs::SetRefusals::all_kept, crate::proofs::Written::set_refused, crate::proofs::Written::slot_refused, crate::proofs::Written::slot_allowed))]
fn missing_end<I: Images>(
    images: &I,
    names: usize,
    set: &Wide,
    end: Option<u64>,
    slot: u8,
) -> Result<u64, Refusal>
    requires attached { length (I.seen images.now).attached ≡ min names MOST_ATTACHED }
    requires small { All (λ image. image.sectors < 2 ^ 55) (I.seen images.now).attached }
    requires set { HasWord set.now }
    requires end { IfSome end (λ sector. sector < 2 ^ 55) }
    ensures end { IfOk result (λ e. e ≡ end_of end (I.seen images.now).attached) }
    ensures served { IfOk result (λ e. IsServedBy set.now e (I.seen images.now).attached) }
    ensures slot { OnOk result ((slot < set.now.geo.head.members) × (slice_index_or set.now.geo.slots.items slot None ≡ None)) }
    ensures allowed { OnOk result (rebuild_refusal set.now end slot names (I.seen images.now).attached ≡ None) }
    ensures refused { IfErr result (λ refusal. rebuild_refusal set.now end slot names (I.seen images.now).attached ≡ Some refusal) }
{
    match allowed_end(images, names, set, end) {
        Ok(end) if is_missing(&set.geo, slot) => match late_fault(set, names as u8, end) {
            None => Ok(end),
            Some(refusal) => Err(refusal),
        },
        Ok(_) => Err(Refusal::Slot(slot)),
        Err(refusal) => Err(refusal),
    }
}

/// Whether the slot is one of the set's, and empty.
fn is_missing(set: &Geometry, slot: u8) -> bool
    requires { set.now.head.members ≡ length set.now.slots.items }
    ensures { result ≡ (nat_lt slot set.now.head.members && is_none (slice_index_or set.now.slots.items slot None)) }
{
    slot < set.head.members && set.slots[slot as usize].is_none()
}
