//! Serving a volume over attached images.
ghost use Rattle.std.specs.Prelude.{◌<◌, ◌^◌, IfSome, None};
ghost use Rattle.outside.specs.Attached.{told_all};
ghost use Rattle.raid_params.specs.Size.{volume_sectors as volume_sectors_of};
ghost use Rattle.near_mirror.specs.Copies.{near_sectors};
ghost use Rattle.near_volume.specs.Mirrored.{IsMirrored};
ghost use Rattle.near_jobs.specs.MirrorWriting.{mirror_output, mirror_reads, mirror_refusal};
ghost use Rattle.set_jobs.specs.Mapping.{set_refusal};
ghost use Rattle.set_jobs.specs.Writing.{told_for, volume_reads, write_output};
ghost use Rattle.value_text.specs.SetText.{HasWord};
ghost use Rattle.virtual_volume.specs.Served.{IsServed};
ghost use Rattle.volume_device.specs.Lengths.{mirror_told, volume_told};
ghost use Rattle.reraid_nbd_cli.specs.Runs.{AreImages, Shows, costs_of, mirror_cost, place_of};

use crate::ends::{NbdEnd, ended};
use address_map::volume_sectors;
use block_device::BlockDevice;
use image_padding::Padded;
use nbd_server::serve;
use near_jobs::mirrored_end;
use near_mirror::NearSet;
use outside::{Images, Sink, Source};
use raid_params::{Geometry, Wide};
use set_jobs::served_end;
use std::alloc::Global;
use volume_device::{Kept, MirrorDevice, ParityDevice};

/// A volume of so many sectors has 2^63 bytes.
pub(crate) const SECTORS_END: u64 = 1 << 54;

/// Serves the volume of a set over attached images, which are padded where the set has bases. `names` is the number of images; `end` is the image sector after the last one of
/// the members, or None for the shortest image's.
pub(crate) fn show_set<I: Images, S: Source, K: Sink>(
    alloc: Global,
    images: &mut I,
    names: usize,
    set: &Wide,
    end: Option<u64>,
    source: &mut S,
    out: &mut K,
) -> Result<(), NbdEnd>
    requires given { AreImages names (I.seen images.old).attached }
    requires set { HasWord set.now }
    requires end { IfSome end (λ sector. sector < 2 ^ 55) }
    ensures { Shows (set_refusal set.now end names (I.seen images.old).attached) (volume_reads set.now end (I.seen images.old).attached)
        (write_output set.now end (I.seen images.old).attached (told_for set.now (I.seen images.old).attached)) (costs_of set.now.geo)
        (place_of I.seen S.left S.faults K.gained K.faults images.old source.old out.old)
        (place_of I.seen S.left S.faults K.gained K.faults images.new source.new out.new) result }
{
    let end = served_end(images, names, set, end)?;
    if set.bases.is_empty() {
        show_parity(alloc, images, &set.geo, end, source, out)
    } else {
        let mut padded = Padded::new(images, &set.bases);
        show_parity(alloc, &mut padded, &set.geo, end, source, out)
    }
}

/// Serves the volume of a set whose data begin at one sector of all images.
fn show_parity<I: Images, S: Source, K: Sink>(
    alloc: Global,
    images: &mut I,
    geo: &Geometry,
    end: u64,
    source: &mut S,
    out: &mut K,
) -> Result<(), NbdEnd>
    requires { IsServed geo.now end (I.seen images.old).attached }
    ensures { Shows None (volume_sectors_of geo.now.head end) (volume_told (told_all (I.seen images.old).attached) geo.now end) (costs_of geo.now)
        (place_of I.seen S.left S.faults K.gained K.faults images.old source.old out.old)
        (place_of I.seen S.left S.faults K.gained K.faults images.new source.new out.new) result }
{
    let sectors = volume_sectors(&geo.head, end);
    if sectors >= SECTORS_END {
        return Err(NbdEnd::Long(sectors));
    }
    let mut kept = Kept::new(alloc, geo)?;
    let mut device = ParityDevice::new(images, geo, end, &mut kept);
    ended(serve(alloc, &mut device, source, out))
}

/// Serves the volume of a mirror over attached images. `names` is the number of images; `end` is the image sector after the last one
/// of the members, or None for the shortest image's.
pub(crate) fn show_mirror<I: Images, S: Source, K: Sink>(
    alloc: Global,
    images: &mut I,
    names: usize,
    set: &NearSet,
    end: Option<u64>,
    source: &mut S,
    out: &mut K,
) -> Result<(), NbdEnd>
    requires given { AreImages names (I.seen images.old).attached }
    requires end { IfSome end (λ sector. sector < 2 ^ 55) }
    ensures { Shows (mirror_refusal set.now end names (I.seen images.old).attached) (mirror_reads set.now end (I.seen images.old).attached)
        (mirror_output set.now end (I.seen images.old).attached (told_all (I.seen images.old).attached)) mirror_cost
        (place_of I.seen S.left S.faults K.gained K.faults images.old source.old out.old)
        (place_of I.seen S.left S.faults K.gained K.faults images.new source.new out.new) result }
{
    let end = mirrored_end(images, names, set, end)?;
    show_copies(alloc, images, set, end, source, out)
}

/// Serves the volume of a mirror up to an image sector.
fn show_copies<I: Images, S: Source, K: Sink>(
    alloc: Global,
    images: &mut I,
    set: &NearSet,
    end: u64,
    source: &mut S,
    out: &mut K,
) -> Result<(), NbdEnd>
    requires { IsMirrored set.now end (I.seen images.old).attached }
    ensures { Shows None (near_sectors set.now.head end) (mirror_told (told_all (I.seen images.old).attached) set.now end) mirror_cost
        (place_of I.seen S.left S.faults K.gained K.faults images.old source.old out.old)
        (place_of I.seen S.left S.faults K.gained K.faults images.new source.new out.new) result }
{
    let mut device = MirrorDevice::new(images, set, end);
    let sectors = device.sectors();
    if sectors >= SECTORS_END {
        return Err(NbdEnd::Long(sectors));
    }
    ended(serve(alloc, &mut device, source, out))
}
