//! Serving a damaged mirror over attached images, by the text of their maps.
ghost use Rattle.std.specs.Prelude.{◌<◌, ◌^◌, IfErr, IfOk, IfSome, None};
ghost use Rattle.outside.specs.Attached.{told_all};
ghost use Rattle.damaged_mirror.specs.Damaged.{mended_cost};
ghost use Rattle.damaged_mirror.specs.Lengths.{mended_told};
ghost use Rattle.near_mirror.specs.Copies.{near_sectors};
ghost use Rattle.near_volume.specs.Mirrored.{IsMirrored};
ghost use Rattle.run_ends.specs.Counts.{Raises};
ghost use Rattle.run_ends.specs.Jobs.{EndsEarly, named, stream};
ghost use Rattle.run_ends.specs.Source.{TakesFew};
ghost use Rattle.reraid_nbd_cli.specs.Mapped.{CannotBegin, IsMendable, ShowsMapped, damaged_mirror as damaged_mirror_of, limits_refusal};
ghost use Rattle.reraid_nbd_cli.specs.Runs.{AreImages, Shows, place_of};

use crate::ends::{NbdEnd, ended};
use crate::mapping::end_of_stop;
use crate::showing::SECTORS_END;
use block_device::BlockDevice;
use damaged_mirror::{DamagedMirror, MirrorDamage};
use nbd_server::serve;
use near_jobs::mirrored_end;
use near_mirror::NearSet;
use outside::{Images, Sink, Source};
use run_ends::{Refusal, Stop, limits_fault};
use salvage_job::{Ready, rescue_left};
use std::alloc::Global;

/// What the work begins with: the images are looked at, the text of their maps is read, and the set is tested.
fn prepare_mirror<M: Source, I: Images>(
    alloc: Global,
    maps: &mut M,
    images: &I,
    names: usize,
    set: &NearSet,
    end: Option<u64>,
) -> Result<Ready, Stop>
    requires given { AreImages names (I.seen images.now).attached }
    requires end { IfSome end (λ sector. sector < 2 ^ 55) }
    ensures ready { IfOk result (IsMendable set.now end (named names (I.seen images.now).attached) (M.left maps.old)) }
    ensures unready { IfErr result (CannotBegin (damaged_mirror_of set.now end (named names (I.seen images.now).attached)) (M.left maps.old)) }
    ensures early { EndsEarly (limits_refusal end (named names (I.seen images.now).attached))
        (stream (M.left maps.old) (M.faults maps.old)) (stream (M.left maps.new) (M.faults maps.new)) result }
    ensures takes { TakesFew 4194304 (M.left maps.old) (M.left maps.new) }
    ensures faults { Raises Stop.SourceFault (M.faults maps.old) (M.faults maps.new) result }
{
    if let Some(fault) = limits_fault(images, names, end) {
        return Err(Stop::Refused(Refusal::Images(fault)));
    }
    match rescue_left(alloc, maps, names as u8) {
        Ok(rescue) => match mirrored_end(images, names, set, end) {
            Ok(end) => Ok(Ready { end, rescue }),
            Err(refusal) => Err(Stop::Refused(refusal)),
        },
        Err(stop) => Err(stop),
    }
}

/// Serves the volume of a mirror whose images have unreadable areas over attached images, by the text that the maps have left. `names` is
/// the number of images; `end` is the image sector after the last one of the members, or None for the shortest image's.
pub(crate) fn show_mended<I: Images, M: Source, S: Source, K: Sink>(
    alloc: Global,
    images: &mut I,
    names: usize,
    set: &NearSet,
    end: Option<u64>,
    maps: &mut M,
    source: &mut S,
    out: &mut K,
) -> Result<(), NbdEnd>
    requires given { AreImages names (I.seen images.old).attached }
    requires end { IfSome end (λ sector. sector < 2 ^ 55) }
    ensures { ShowsMapped (damaged_mirror_of set.now end (named names (I.seen images.old).attached))
        (place_of I.seen S.left S.faults K.gained K.faults images.old source.old out.old)
        (place_of I.seen S.left S.faults K.gained K.faults images.new source.new out.new)
        (stream (M.left maps.old) (M.faults maps.old)) (stream (M.left maps.new) (M.faults maps.new)) result }
{
    match prepare_mirror(alloc, maps, images, names, set, end) {
        Ok(ready) => {
            let damage = MirrorDamage {
                set,
                end: ready.end,
                rescue: &ready.rescue,
            };
            show_good_copies(alloc, images, &damage, source, out)
        }
        Err(stop) => Err(end_of_stop(stop)),
    }
}

/// Serves the volume of a damaged mirror up to an image sector.
fn show_good_copies<I: Images, S: Source, K: Sink>(
    alloc: Global,
    images: &mut I,
    damage: &MirrorDamage,
    source: &mut S,
    out: &mut K,
) -> Result<(), NbdEnd>
    requires { IsMirrored damage.now.set.now damage.now.end (I.seen images.old).attached }
    ensures { Shows None (near_sectors damage.now.set.now.head damage.now.end)
        (mended_told (told_all (I.seen images.old).attached) damage.now.rescue.now damage.now.set.now damage.now.end) (mended_cost damage.now.rescue.now damage.now.set.now damage.now.end)
        (place_of I.seen S.left S.faults K.gained K.faults images.old source.old out.old)
        (place_of I.seen S.left S.faults K.gained K.faults images.new source.new out.new) result }
{
    let mut device = DamagedMirror::new(images, damage);
    let sectors = device.sectors();
    if sectors >= SECTORS_END {
        return Err(NbdEnd::Long(sectors));
    }
    ended(serve(alloc, &mut device, source, out))
}
