//! Volumes of mirrors that were worked out by hand, over images in memory.
use crate::objects::{are_sectors, serve_mirror};
use image_source::{MemImages, MemSink};
use near_mirror::{NearSet, read_near};
use near_volume::write_near;
use std::alloc::Global;
use std::process::Abort;
use std::test::Fail;
use test_objects::attached;
use virtual_volume::VolumeFault;

/// Writes the volume of members of so many sectors, over `count` images.
fn write<R: Abort>(
    rt: &R,
    alloc: Global,
    images: &mut MemImages,
    count: u8,
    set: &NearSet,
    end: u64,
    sink: &mut MemSink,
) -> Result<(), VolumeFault> {
    serve_mirror(rt, images, count, set, end);
    write_near(alloc, images, set, end, sink)
}

/// Two pairs: 1 and 2, 3 and 4.
const TWO_PAIRS: &[&[u8]] = &[&[1, 2], &[1, 2], &[3, 4], &[3, 4]];

/// The sectors of each image, how many members have, the word of a mirror, and the sectors of its volume.
type Mirror = (&'static [&'static [u8]], u64, &'static [u8], &'static [u8]);

static MIRRORS: [Mirror; 9] = [
    // each row has a chunk of each pair
    (TWO_PAIRS, 2, b"near2:1:0:0,1,2,3", &[1, 3, 2, 4]),
    // the second chunk is read at the end of the first row, and the third, whose first copy is lost, at the end of the second
    (&[&[5, 6], &[6, 7]], 2, b"near2:1:0:0,-,1", &[5, 6, 7]),
    // cells of two rows: 1 1 2 2 3, and 3 4 4 5 5; the first and the third member are lost
    (
        &[&[1, 4], &[2, 5], &[3, 5]],
        2,
        b"near2:1:0:-,0,-,1,2",
        &[1, 2, 3, 4, 5],
    ),
    // cells of three rows: 1 1 1 2, 2 2 3 3, and 3 4 4 4; the first and the third member are lost
    (
        &[&[1, 2, 4], &[2, 3, 4]],
        3,
        b"near3:1:0:-,0,-,1",
        &[1, 2, 3, 4],
    ),
    // the second half of each member is the first one of the member before
    (
        &[&[1, 3, 2, 4], &[2, 4, 1, 3]],
        4,
        b"far2:1:0:0,1",
        &[1, 2, 3, 4],
    ),
    (&[&[2, 4, 1, 3]], 4, b"far2:1:0:-,0", &[1, 2, 3, 4]),
    (
        &[&[1, 4, 3, 6], &[3, 6, 2, 5]],
        4,
        b"far2:1:0:0,-,1",
        &[1, 2, 3, 4, 5, 6],
    ),
    (
        &[&[2, 6, 1, 5], &[4, 8, 3, 7]],
        4,
        b"far2:1:0:-,0,-,1",
        &[1, 2, 3, 4, 5, 6, 7, 8],
    ),
    // rows 1 2 3, 3 1 2, 4 5 6, and 6 4 5
    (
        &[&[1, 3, 4, 6], &[3, 2, 6, 5]],
        4,
        b"offset2:1:0:0,-,1",
        &[1, 2, 3, 4, 5, 6],
    ),
];

/// Writes the volume of a mirror, and looks what it is.
fn gives<R: Abort>(rt: &R, alloc: Global, mirror: &Mirror) -> Result<(), Fail> {
    let (each, end, word, want) = *mirror;
    let set: NearSet = read_near(word).ok_or("a near word")?;
    let mut images = attached(alloc, each)?;
    assert!(rt; each.len() <= 24);
    let mut sink = MemSink::new(alloc, 4096)?;
    write(
        rt,
        alloc,
        &mut images,
        each.len() as u8,
        &set,
        end,
        &mut sink,
    )?;
    assert!(rt; are_sectors(sink.bytes(), want), "{}", each.len());
    Ok(())
}

#[test]
fn volumes_of_mirrors(rt: HostRuntime) -> Result<(), Fail> {
    for mirror in &MIRRORS {
        gives(&rt, rt.alloc(), mirror)?;
    }
    Ok(())
}

// Four images are attached by the first four calls, and the second reading fails. Of the block that it belongs to nothing is put.
#[test]
fn a_read_fault(rt: HostRuntime) -> Result<(), Fail> {
    let mut images = attached(rt.alloc(), TWO_PAIRS)?;
    images.fail_call(6)?;
    let mut sink = MemSink::new(rt.alloc(), 4096)?;
    let set: NearSet = read_near(b"near2:1:0:0,1,2,3").ok_or("a near word")?;
    let cut = write(&rt, rt.alloc(), &mut images, 4, &set, 2, &mut sink);
    assert!(rt; matches!(&cut, Err(VolumeFault::ReadFault)));
    assert!(rt; sink.bytes().is_empty());
    Ok(())
}
