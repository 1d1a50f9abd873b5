//! What is written of sets where the data of images begin at different sectors, and what of such sets is refused.
use crate::objects::are_sectors;
use image_source::{MemImages, MemSink};
use raid_params::GeoFault;
use run_ends::{Refusal, Stop};
use set_jobs::{map, rebuild, write};
use std::alloc::Global;
use std::process::Abort;
use std::test::Fail;
use test_objects::{FAR, are_below, attached};
use value_text::read_set;

/// Three members of an array whose data begin at sector 1 of the first image, and at sector 0 of the others.
const THREE: &[&[u8]] = &[&[9, 1, 2], &[3, 4, 9], &[2, 6, 9]];

/// The first two of them.
const TWO: &[&[u8]] = &[&[9, 1, 2], &[3, 4, 9]];

/// Why the volume of a set is not written, over `count` images.
fn write_stop<R: Abort>(
    rt: &R,
    alloc: Global,
    images: &mut MemImages,
    count: u8,
    word: &[u8],
    sink: &mut MemSink,
) -> Result<Option<Stop>, Fail> {
    assert!(rt; are_below(images, count, FAR));
    match read_set(word) {
        Some(set) => Ok(write(alloc, images, count as usize, &set, None, sink).err()),
        None => Err("a set".into()),
    }
}

/// Why the member of a slot is not written, over `count` images.
fn rebuild_stop<R: Abort>(
    rt: &R,
    alloc: Global,
    images: &mut MemImages,
    count: u8,
    word: &[u8],
    slot: u8,
    sink: &mut MemSink,
) -> Result<Option<Stop>, Fail> {
    assert!(rt; are_below(images, count, FAR));
    match read_set(word) {
        Some(set) => Ok(rebuild(alloc, images, count as usize, &set, None, slot, sink).err()),
        None => Err("a set".into()),
    }
}

/// Why a sector of the volume is not told, over `count` images.
fn map_stop<R: Abort>(
    rt: &R,
    alloc: Global,
    images: &MemImages,
    count: u8,
    word: &[u8],
    sector: u64,
    sink: &mut MemSink,
) -> Result<Option<Stop>, Fail> {
    assert!(rt; are_below(images, count, FAR));
    match read_set(word) {
        Some(set) => Ok(map(alloc, images, count as usize, &set, None, sector, sink).err()),
        None => Err("a set".into()),
    }
}

#[test]
fn a_volume(rt: HostRuntime) -> Result<(), Fail> {
    let alloc = rt.alloc();
    let mut images = attached(alloc, THREE)?;
    let mut sink = MemSink::new(alloc, 4096)?;
    let stop = write_stop(
        &rt,
        alloc,
        &mut images,
        3,
        b"5:ls:none:1:1+0+0:0,1,2",
        &mut sink,
    )?;
    assert!(rt; stop.is_none());
    assert!(rt; are_sectors(sink.bytes(), &[1, 3, 6, 2]));
    Ok(())
}

#[test]
fn a_member(rt: HostRuntime) -> Result<(), Fail> {
    let alloc = rt.alloc();
    let mut images = attached(alloc, TWO)?;
    let mut sink = MemSink::new(alloc, 4096)?;
    let stop = rebuild_stop(
        &rt,
        alloc,
        &mut images,
        2,
        b"5:ls:none:1:1+0:0,1,-",
        2,
        &mut sink,
    )?;
    assert!(rt; stop.is_none());
    assert!(rt; are_sectors(sink.bytes(), &[2, 6]));
    Ok(())
}

/// Sectors of the volume, and where they lie: on an image at its base, in the empty slot at the greatest base.
static PLACES: [(u64, &[u8]); 3] = [
    (
        0,
        b"row 0 item 0 slot 0 image 0 sector 1 p 2 q -\nname left-symmetric\n",
    ),
    (
        1,
        b"row 0 item 1 slot 1 image 1 sector 0 p 2 q -\nname left-symmetric\n",
    ),
    (
        2,
        b"row 1 item 0 slot 2 image - sector 2 p 1 q -\nname left-symmetric\n",
    ),
];

#[test]
fn places(rt: HostRuntime) -> Result<(), Fail> {
    let alloc = rt.alloc();
    let images = attached(alloc, TWO)?;
    for (sector, text) in &PLACES {
        let mut sink = MemSink::new(alloc, 4096)?;
        let stop = map_stop(
            &rt,
            alloc,
            &images,
            2,
            b"5:ls:none:1:1+0:0,1,-",
            *sector,
            &mut sink,
        )?;
        assert!(rt; stop.is_none());
        assert_eq!(rt; sink.bytes(), *text);
    }
    Ok(())
}

/// Sets with bases that are refused over three images, and their number of bases.
static OTHER_BASES: [(&[u8], u8); 3] = [
    (b"5:ls:none:1:0+0:0,1,2", 2),
    (b"5:ls:none:1:0+0+0+0:0,1,2", 4),
    (b"0:plain:none:1:0+0+0:0,1", 3),
];

#[test]
fn bases_that_do_not_suit_the_images(rt: HostRuntime) -> Result<(), Fail> {
    let alloc = rt.alloc();
    let mut images = attached(alloc, THREE)?;
    let mut sink = MemSink::new(alloc, 4096)?;
    for (word, count) in &OTHER_BASES {
        let stop = write_stop(&rt, alloc, &mut images, 3, word, &mut sink)?;
        assert!(rt; matches!(stop, Some(Stop::Refused(Refusal::Bases(bases))) if bases == *count));
    }
    assert!(rt; sink.bytes().is_empty());
    Ok(())
}

#[test]
fn the_rule_on_bases_is_the_last_one(rt: HostRuntime) -> Result<(), Fail> {
    let alloc = rt.alloc();
    let mut images = attached(alloc, TWO)?;
    let mut sink = MemSink::new(alloc, 4096)?;
    let word = b"5:ls:none:1:0+0+0:0,1,-";
    let stop = rebuild_stop(&rt, alloc, &mut images, 2, word, 0, &mut sink)?;
    assert!(rt; matches!(stop, Some(Stop::Refused(Refusal::Slot(0)))));
    let stop = rebuild_stop(&rt, alloc, &mut images, 2, word, 2, &mut sink)?;
    assert!(rt; matches!(stop, Some(Stop::Refused(Refusal::Bases(3)))));
    let word = b"5:ls:none:1:0+3+0:0,1,-";
    let stop = write_stop(&rt, alloc, &mut images, 2, word, &mut sink)?;
    assert!(rt; matches!(stop, Some(Stop::Refused(Refusal::Set(GeoFault::NoRow(3))))));
    Ok(())
}
