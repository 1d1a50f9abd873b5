//! Members that were worked out by hand, over images in memory.
ghost use Rattle.std.specs.Prelude.{◌≡◌, ◌≤◌, IsTrue, None, slice_index_or};

use crate::objects::{Looker, NO, are_sectors, fails, serve, set_of, sink_of, two_of_ones};
use image_source::{MemImages, MemSink};
use member_rebuild::rebuild;
use outside::{Images, Sink};
use raid_params::{Geometry, Level, Pattern, Syndrome};
use std::alloc::Global;
use std::process::Abort;
use std::test::Fail;
use test_objects::attached;
use virtual_volume::VolumeFault;

// Whether slot 0 is there, and empty.
fn is_first_empty(geo: &Geometry) -> bool
    ensures { IsTrue result → (1 ≤ geo.now.head.members) × (slice_index_or geo.now.slots.items 0 None ≡ None) }
{
    geo.head.members >= 1 && !geo.slots.is_empty() && geo.slots[0].is_none()
}

// Writes the member of slot 0, over `count` images.
fn write<R: Abort, I: Images, K: Sink>(
    rt: &R,
    alloc: Global,
    images: &mut I,
    count: u8,
    geo: &Geometry,
    end: u64,
    sink: &mut K,
) -> Result<(), VolumeFault> {
    serve(rt, images, count, geo, end);
    assert!(rt; is_first_empty(geo));
    rebuild(alloc, images, geo, end, 0, sink)
}

// Writes the member of two sectors, and looks whether it is a sector of 1 and one of 2.
fn gives<R: Abort>(
    rt: &R,
    alloc: Global,
    images: &mut MemImages,
    count: u8,
    geo: &Geometry,
) -> Result<(), Fail> {
    let mut sink = MemSink::new(alloc, 2048)?;
    assert!(rt; write(rt, alloc, images, count, geo, 2, &mut sink).is_ok());
    assert!(rt; are_sectors(sink.bytes(), &[1, 2]));
    Ok(())
}

// Left-symmetric, with slot 0 empty.
fn three<R: Abort>(rt: &R) -> Geometry {
    let held = [NO, Some(0), Some(1)];
    set_of(rt, Level::Raid5, Pattern::Ls, Syndrome::NoQ, 1, &held)
}

// Two images of two sectors each: 3 and 4, 2 and 6.
const TWO: &[&[u8]] = &[&[3, 4], &[2, 6]];

// 3 + 2 = 1 and 4 + 6 = 2, bit by bit.
#[test]
fn first_member(rt: HostRuntime) -> Result<(), Fail> {
    let mut images = attached(rt.alloc(), TWO)?;
    gives(&rt, rt.alloc(), &mut images, 2, &three(&rt))
}

// Writes the member over the two images, once they and once the sink fails. Two images are attached by the first two calls.
#[test]
fn faults(rt: HostRuntime) -> Result<(), Fail> {
    let mut images = attached(rt.alloc(), TWO)?;
    images.fail_call(4)?;
    let mut sink = sink_of(rt.alloc(), 2048, 1, 100)?;
    let cut = write(&rt, rt.alloc(), &mut images, 2, &three(&rt), 2, &mut sink);
    fails(&rt, &cut, true, &sink);
    let cut = write(&rt, rt.alloc(), &mut images, 2, &three(&rt), 2, &mut sink);
    fails(&rt, &cut, false, &sink);
    Ok(())
}

// Level 6, with P on slot 0, which is empty, and Q on slot 1.
fn without_p<R: Abort>(rt: &R) -> Geometry {
    let held = [NO, Some(2), Some(0), Some(1)];
    set_of(
        rt,
        Level::Raid6,
        Pattern::ParityFirst,
        Syndrome::ByData,
        1,
        &held,
    )
}

// P is found by the data alone: the member of each data slot is read by one call. A third call, for Q, whose image comes after the two,
// would fail. Three images are attached by the first three calls.
#[test]
fn q_is_not_read_for_p(rt: HostRuntime) -> Result<(), Fail> {
    let mut images = attached(rt.alloc(), &[&[3, 4], &[2, 6], &[0xAA, 0xAA]])?;
    images.fail_call(6)?;
    gives(&rt, rt.alloc(), &mut images, 3, &without_p(&rt))
}

// 700 sectors are two blocks and a short one.
#[test]
fn whole_sectors_are_put(rt: HostRuntime) -> Result<(), Fail> {
    let mut images = two_of_ones(rt.alloc(), 358_400)?;
    let mut sink = Looker::new();
    let geo = three(&rt);
    assert!(rt; write(&rt, rt.alloc(), &mut images, 2, &geo, 700, &mut sink).is_ok());
    assert!(rt; sink.bytes == 358_400);
    assert!(rt; sink.whole);
    Ok(())
}
