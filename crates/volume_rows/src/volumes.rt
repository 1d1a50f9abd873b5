//! Volumes that were worked out by hand, over images in memory.
use crate::objects::{NO, are_sectors, fails, repeat, serve, set_of, sink_of};
use address_map::volume_sectors;
use image_source::{MemImages, MemSink};
use outside::{Images, Sink};
use raid_params::{Geometry, Level, Pattern, Syndrome};
use std::alloc::Global;
use std::process::Abort;
use std::test::Fail;
use test_objects::attached;
use virtual_volume::{VolumeFault, read_volume, write_volume};

/// Writes the volume, over `count` images.
pub fn write<R: Abort, I: Images, K: Sink>(
    rt: &R,
    alloc: Global,
    images: &mut I,
    count: u8,
    geo: &Geometry,
    end: u64,
    sink: &mut K,
) -> Result<(), VolumeFault> {
    serve(rt, images, count, geo, end);
    write_volume(alloc, images, geo, end, sink)
}

/// Writes the volume, and looks whether it is a sector of each of these bytes.
fn gives<R: Abort>(
    rt: &R,
    alloc: Global,
    images: &mut MemImages,
    count: u8,
    geo: &Geometry,
    end: u64,
    want: &[u8],
) -> Result<(), Fail> {
    let mut sink = MemSink::new(alloc, 4096)?;
    assert!(rt; write(rt, alloc, images, count, geo, end, &mut sink).is_ok());
    assert!(rt; are_sectors(sink.bytes(), want));
    Ok(())
}

/// Whether reading a sector of the volume, over `count` images, gives this byte alone.
fn reads<R: Abort>(
    rt: &R,
    images: &mut MemImages,
    count: u8,
    geo: &Geometry,
    end: u64,
    sector: u64,
    byte: u8,
) -> bool {
    serve(rt, images, count, geo, end);
    assert!(rt; geo.head.is_valid());
    assert!(rt; sector < volume_sectors(&geo.head, end));
    let mut to = [0; 512];
    read_volume(images, geo, end, sector, &mut to).is_ok() && repeat(&to, byte)
}

// Left-symmetric, in chunks of a sector.
fn three<R: Abort>(rt: &R, first: Option<u8>) -> Geometry {
    let held = [first, Some(1), Some(2)];
    set_of(rt, Level::Raid5, Pattern::Ls, Syndrome::NoQ, 1, &held)
}

fn four<R: Abort>(rt: &R, held: &[Option<u8>]) -> Geometry {
    set_of(rt, Level::Raid6, Pattern::Ls, Syndrome::AfterQ, 1, held)
}

// Images of two sectors each: 1 and 2, 3 and 4, 2 and 6.
const THREE: &[&[u8]] = &[&[1, 2], &[3, 4], &[2, 6]];

// Images of one sector each: Q, two data blocks and P.
const FOUR: &[&[u8]] = &[&[0x1C], &[0x01], &[0x80], &[0x81]];

// The second row begins on the third member, and 3 + 2 = 1 and 4 + 6 = 2, bit by bit.
fn two_rows_with<R: Abort>(rt: &R, alloc: Global, first: Option<u8>) -> Result<(), Fail> {
    let geo = three(rt, first);
    let mut images = attached(alloc, THREE)?;
    gives(rt, alloc, &mut images, 3, &geo, 2, &[1, 3, 6, 2])?;
    assert!(rt; reads(rt, &mut images, 3, &geo, 2, 3, 2));
    Ok(())
}

#[test]
fn two_rows(rt: HostRuntime) -> Result<(), Fail> {
    two_rows_with(&rt, rt.alloc(), Some(0))?;
    two_rows_with(&rt, rt.alloc(), NO)
}

// 1 + 80 = 81, and 1 + 2 * 80 = 1C in the field of 256 elements.
#[test]
fn two_members_lost(rt: HostRuntime) -> Result<(), Fail> {
    let mut images = attached(rt.alloc(), FOUR)?;
    for held in &[
        [Some(0), NO, NO, Some(3)],
        [NO, NO, Some(2), Some(3)],
        [NO, Some(1), Some(2), NO],
        [Some(0), NO, Some(2), NO],
    ] {
        let geo = four(&rt, held);
        gives(&rt, rt.alloc(), &mut images, 4, &geo, 1, &[0x01, 0x80])?;
    }
    Ok(())
}

// Writes the volume of the three images, once they and once the sink fails. Three images are attached by the first three calls.
#[test]
fn faults(rt: HostRuntime) -> Result<(), Fail> {
    let geo = three(&rt, Some(0));
    let mut images = attached(rt.alloc(), THREE)?;
    images.fail_call(5)?;
    let mut sink = sink_of(rt.alloc(), 4096, 1, 100)?;
    let cut = write(&rt, rt.alloc(), &mut images, 3, &geo, 2, &mut sink);
    fails(&rt, &cut, true, &sink);
    let cut = write(&rt, rt.alloc(), &mut images, 3, &geo, 2, &mut sink);
    fails(&rt, &cut, false, &sink);
    Ok(())
}

// Sixteen members, of which data members 0 and 5 are missing, in chunks of 4 sectors.
fn sixteen<R: Abort>(rt: &R) -> Geometry {
    let held = [
        NO,
        Some(0),
        Some(1),
        Some(2),
        Some(3),
        NO,
        Some(4),
        Some(5),
        Some(6),
        Some(7),
        Some(8),
        Some(9),
        Some(10),
        Some(11),
        Some(12),
        Some(13),
    ];
    set_of(
        rt,
        Level::Raid6,
        Pattern::ParityLast,
        Syndrome::ByData,
        4,
        &held,
    )
}

// Twelve images of zeros, then two of ones: the data members that are there, P and Q.
const BLANK: &[u8] = &[0; 270];

const FULL: &[u8] = &[1; 270];

const FOURTEEN: [&[u8]; 14] = [
    BLANK, BLANK, BLANK, BLANK, BLANK, BLANK, BLANK, BLANK, BLANK, BLANK, BLANK, BLANK, FULL, FULL,
];

// Whether these are chunks of 4 sectors, of which each 14th holds ones and the others zeros.
fn are_chunks(bytes: &[u8]) -> bool {
    for (chunk, part) in bytes.chunks_exact(2048).enumerate() {
        if !repeat(part, if chunk % 14 == 0 { 1 } else { 0 }) {
            return false;
        }
    }
    true
}

// P and Q are 1 in each column: then of the two lost members the first, which Q weighs by 1, holds ones
// and the other zeros. 270 sectors are a batch of 64 rows, a short one of 3, and the
// start of a row that does not count.
#[test]
fn sixteen_members_of_which_two_are_lost(rt: HostRuntime) -> Result<(), Fail> {
    let geo = sixteen(&rt);
    let mut images = attached(rt.alloc(), &FOURTEEN)?;
    let mut sink = MemSink::new(rt.alloc(), 1_921_024)?;
    assert!(rt; write(&rt, rt.alloc(), &mut images, 14, &geo, 270, &mut sink).is_ok());
    assert!(rt; sink.bytes().len() == 1_921_024);
    assert!(rt; are_chunks(sink.bytes()));
    Ok(())
}
