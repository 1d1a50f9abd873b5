//! Serving a damaged volume over attached images, by the text of their maps.
ghost use Rattle.std.specs.Prelude.{◌≡◌, ◌*◌, ◌<◌, ◌^◌, IfSome, None, length};
ghost use Rattle.outside.specs.Attached.{told_all};
ghost use Rattle.damaged_device.specs.Cost.{damaged_cost};
ghost use Rattle.damaged_device.specs.Lengths.{salvaged_told};
ghost use Rattle.raid_params.specs.Size.{volume_sectors as volume_sectors_of};
ghost use Rattle.rescue_map.specs.Salvaged.{IsSalvaged};
ghost use Rattle.run_ends.specs.Jobs.{named, stream};
ghost use Rattle.set_jobs.specs.Writing.{told_for};
ghost use Rattle.virtual_volume.specs.Served.{IsServed};
ghost use Rattle.reraid_nbd_cli.specs.Ends.{end_of_stop as end_of};
ghost use Rattle.reraid_nbd_cli.specs.Mapped.{ShowsMapped, damaged_set};
ghost use Rattle.reraid_nbd_cli.specs.Runs.{AreImages, Shows, place_of};

use crate::ends::{NbdEnd, ended};
use crate::showing::SECTORS_END;
use address_map::volume_sectors;
use damaged_device::DamagedDevice;
use image_padding::Padded;
use member_regions::zeros;
use nbd_server::{NbdStop, serve};
use outside::{Images, SECTOR, Sink, Source};
use raid_params::Wide;
use rescue_map::Damage;
use run_ends::Stop;
use salvage_job::{Ready, prepare};
use std::alloc::Global;
use volume_device::Kept;

/// How a run ends where the work for a damaged volume does not begin.
pub(crate) fn end_of_stop(stop: Stop) -> NbdEnd
    ensures { result ≡ end_of stop }
{
    match stop {
        Stop::Refused(refusal) => NbdEnd::Refused(refusal),
        Stop::SourceFault => NbdEnd::MapsFault,
        _ => NbdEnd::Stopped(NbdStop::OutOfMemory),
    }
}

/// Serves the volume of a set whose images have unreadable areas over attached images, by the text that the maps have left. `names` is the
/// number of images; `end` is the image sector after the last one of the members, or None for the shortest image's.
pub(crate) fn show_damaged<I: Images, M: Source, S: Source, K: Sink>(
    alloc: Global,
    images: &mut I,
    names: usize,
    set: &Wide,
    end: Option<u64>,
    maps: &mut M,
    source: &mut S,
    out: &mut K,
) -> Result<(), NbdEnd>
    requires given { AreImages names (I.seen images.old).attached }
    requires end { IfSome end (λ sector. sector < 2 ^ 55) }
    ensures { ShowsMapped (damaged_set set.now end (named names (I.seen images.old).attached))
        (place_of I.seen S.left S.faults K.gained K.faults images.old source.old out.old)
        (place_of I.seen S.left S.faults K.gained K.faults images.new source.new out.new)
        (stream (M.left maps.old) (M.faults maps.old)) (stream (M.left maps.new) (M.faults maps.new)) result }
{
    match prepare(alloc, maps, images, names, set, end) {
        Ok(ready) => show_ready(alloc, images, set, &ready, source, out),
        Err(stop) => Err(end_of_stop(stop)),
    }
}

/// Serves the damaged volume of a set over its images, which are padded where the set has bases.
fn show_ready<I: Images, S: Source, K: Sink>(
    alloc: Global,
    images: &mut I,
    set: &Wide,
    ready: &Ready,
    source: &mut S,
    out: &mut K,
) -> Result<(), NbdEnd>
    requires { IsSalvaged set.now ready.now.end (I.seen images.old).attached }
    ensures { Shows None (volume_sectors_of set.now.geo.head ready.now.end) (salvaged_told (told_for set.now (I.seen images.old).attached) ready.now.rescue set.now ready.now.end)
        (damaged_cost ready.now.rescue set.now)
        (place_of I.seen S.left S.faults K.gained K.faults images.old source.old out.old)
        (place_of I.seen S.left S.faults K.gained K.faults images.new source.new out.new) result }
{
    let damage = Damage {
        set,
        end: ready.end,
        rescue: &ready.rescue,
    };
    if set.bases.is_empty() {
        show_damage(alloc, images, &damage, source, out)
    } else {
        let mut padded = Padded::new(images, &set.bases);
        show_damage(alloc, &mut padded, &damage, source, out)
    }
}

/// Serves the damaged volume of a set whose data begin at one sector of all images.
fn show_damage<I: Images, S: Source, K: Sink>(
    alloc: Global,
    images: &mut I,
    damage: &Damage,
    source: &mut S,
    out: &mut K,
) -> Result<(), NbdEnd>
    requires { IsServed damage.now.set.now.geo damage.now.end (I.seen images.old).attached }
    ensures { Shows None (volume_sectors_of damage.now.set.now.geo.head damage.now.end)
        (salvaged_told (told_all (I.seen images.old).attached) damage.now.rescue.now damage.now.set.now damage.now.end) (damaged_cost damage.now.rescue.now damage.now.set.now)
        (place_of I.seen S.left S.faults K.gained K.faults images.old source.old out.old)
        (place_of I.seen S.left S.faults K.gained K.faults images.new source.new out.new) result }
{
    let geo = &damage.set.geo;
    let sectors = volume_sectors(&geo.head, damage.end);
    if sectors >= SECTORS_END {
        return Err(NbdEnd::Long(sectors));
    }
    let mut kept = Kept::new(alloc, geo)?;
    let mut row = zeros(alloc, SECTOR * geo.slots.len())?;
    let mut device = DamagedDevice::new(images, damage, &mut kept, &mut row);
    ended(serve(alloc, &mut device, source, out))
}
