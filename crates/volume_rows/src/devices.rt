//! Volumes read as devices, over images in memory: from each sector on, and of each length, one read after the other. What the
//! images hold was worked out by `bench/making/disks.py`, a byte for each sector.
use crate::objects::{NO, are_sectors, pad, serve, serve_mirror, set_of};
use block_device::BlockDevice;
use image_padding::Padded;
use image_source::MemImages;
use near_mirror::{NearSet, read_near};
use outside::{Images, SECTOR};
use raid_params::{Geometry, Level, Pattern, Syndrome};
use std::alloc::Global;
use std::process::Abort;
use std::test::Fail;
use test_objects::attached;
use volume_device::{Kept, MirrorDevice, ParityDevice};

/// The sectors of the volumes.
const VOLUME: [u8; 12] = [1, 2, 3, 4, 5, 6, 7, 8, 9, 10, 11, 12];

/// Reads as many sectors of a device as there are bytes, and looks whether each holds its byte alone.
fn reads<R: Abort, D: BlockDevice>(rt: &R, device: &mut D, first: u64, want: &[u8]) {
    let mut to = [0; 12 * SECTOR];
    assert!(rt; !want.is_empty() && want.len() <= 12);
    let part = &mut to[..SECTOR * want.len()];
    let sectors = device.sectors();
    assert!(rt; first <= sectors && want.len() as u64 <= sectors - first);
    assert!(rt; device.read(first, part).is_ok());
    assert!(rt; are_sectors(part, want));
}

/// Reads a device from each sector on, as far as each later one.
fn gives<R: Abort, D: BlockDevice>(rt: &R, device: &mut D, want: &[u8]) {
    assert!(rt; device.sectors() == want.len() as u64);
    for first in 0..want.len() {
        for last in first..want.len() {
            reads(rt, device, first as u64, &want[first..last + 1]);
        }
    }
}

/// Reads the volume of a set, over `count` images.
fn set_gives<R: Abort, I: Images>(
    rt: &R,
    alloc: Global,
    images: &mut I,
    count: u8,
    geo: &Geometry,
    end: u64,
) -> Result<(), Fail> {
    serve(rt, images, count, geo, end);
    let mut kept = Kept::new(alloc, geo)?;
    let mut device = ParityDevice::new(images, geo, end, &mut kept);
    gives(rt, &mut device, &VOLUME);
    Ok(())
}

/// Reads the volume of the mirror of a word, over three images of six sectors.
fn mirror_gives<R: Abort>(rt: &R, images: &mut MemImages, word: &[u8]) -> Result<(), Fail> {
    let set: NearSet = read_near(word).ok_or("a near word")?;
    serve_mirror(rt, images, 3, &set, 6);
    let mut device = MirrorDevice::new(images, &set, 6);
    gives(rt, &mut device, &VOLUME[..8]);
    Ok(())
}

#[test]
fn without_parity(rt: HostRuntime) -> Result<(), Fail> {
    let named: [&[u8]; 3] = [&[1, 2, 7, 8], &[3, 4, 9, 10], &[5, 6, 11, 12]];
    let mut images = attached(rt.alloc(), &named)?;
    let held = [Some(0), Some(1), Some(2)];
    let geo = set_of(&rt, Level::Raid0, Pattern::Plain, Syndrome::NoQ, 2, &held);
    set_gives(&rt, rt.alloc(), &mut images, 3, &geo, 4)
}

// Left-symmetric, in chunks of two sectors, with each member lost and none.
#[test]
fn one_parity(rt: HostRuntime) -> Result<(), Fail> {
    let named: [&[u8]; 3] = [
        &[1, 2, 7, 8, 2, 6],
        &[3, 4, 2, 14, 9, 10],
        &[2, 6, 5, 6, 11, 12],
    ];
    let mut images = attached(rt.alloc(), &named)?;
    for held in &[
        [Some(0), Some(1), Some(2)],
        [NO, Some(1), Some(2)],
        [Some(0), NO, Some(2)],
        [Some(0), Some(1), NO],
    ] {
        let geo = set_of(&rt, Level::Raid5, Pattern::Ls, Syndrome::NoQ, 2, held);
        set_gives(&rt, rt.alloc(), &mut images, 3, &geo, 6)?;
    }
    Ok(())
}

// The same, where the data of the first image begin a sector later than those of the others.
#[test]
fn with_bases(rt: HostRuntime) -> Result<(), Fail> {
    let named: [&[u8]; 3] = [
        &[99, 1, 2, 7, 8, 2, 6],
        &[3, 4, 2, 14, 9, 10],
        &[2, 6, 5, 6, 11, 12, 99],
    ];
    let mut images = attached(rt.alloc(), &named)?;
    for held in &[
        [Some(0), Some(1), Some(2)],
        [NO, Some(1), Some(2)],
        [Some(0), NO, Some(2)],
        [Some(0), Some(1), NO],
    ] {
        let mut geo = set_of(&rt, Level::Raid5, Pattern::Ls, Syndrome::NoQ, 2, held);
        geo.head.offset = 1;
        pad(&rt, &images, 3);
        let mut padded = Padded::new(&mut images, &[1, 0, 0]);
        set_gives(&rt, rt.alloc(), &mut padded, 3, &geo, 7)?;
    }
    Ok(())
}

// The same with Q, and up to two members lost.
#[test]
fn two_parities(rt: HostRuntime) -> Result<(), Fail> {
    let named: [&[u8]; 4] = [
        &[7, 10, 5, 6, 11, 12],
        &[1, 2, 7, 8, 2, 6],
        &[3, 4, 2, 14, 31, 18],
        &[2, 6, 11, 22, 9, 10],
    ];
    let mut images = attached(rt.alloc(), &named)?;
    for held in &[
        [Some(0), Some(1), Some(2), Some(3)],
        [Some(0), NO, Some(2), Some(3)],
        [NO, NO, Some(2), Some(3)],
        [NO, Some(1), NO, Some(3)],
        [NO, Some(1), Some(2), NO],
        [Some(0), NO, NO, Some(3)],
        [Some(0), NO, Some(2), NO],
        [Some(0), Some(1), NO, NO],
    ] {
        let geo = set_of(&rt, Level::Raid6, Pattern::Ls, Syndrome::AfterQ, 2, held);
        set_gives(&rt, rt.alloc(), &mut images, 4, &geo, 6)?;
    }
    Ok(())
}

// The ninth cell of three rows has no second one.
#[test]
fn two_copies(rt: HostRuntime) -> Result<(), Fail> {
    let named: [&[u8]; 3] = [
        &[1, 2, 3, 4, 7, 8],
        &[1, 2, 5, 6, 7, 8],
        &[3, 4, 5, 6, 99, 99],
    ];
    let mut images = attached(rt.alloc(), &named)?;
    mirror_gives(&rt, &mut images, b"near2:2:0:0,1,2")?;
    mirror_gives(&rt, &mut images, b"near2:2:0:-,1,2")?;
    mirror_gives(&rt, &mut images, b"near2:2:0:0,-,2")?;
    mirror_gives(&rt, &mut images, b"near2:2:0:0,1,-")
}
