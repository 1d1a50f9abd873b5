//! In which pieces a volume goes to its sink: images of ones, in two striped members.
use crate::objects::{Looker, repeat, set_of, sink_of, two_of_ones};
use crate::volumes::write;
use image_source::MemSink;
use outside::{SECTOR, Sink};
use raid_params::{Level, Pattern, Syndrome};
use std::alloc::Global;
use std::process::Abort;
use std::test::Fail;
use virtual_volume::VolumeFault;

// Writes the volume of two images of `end` sectors of ones, in chunks of `chunk` sectors. It gives what cut that off.
fn striped<R: Abort, K: Sink>(
    rt: &R,
    alloc: Global,
    chunk: u64,
    end: u32,
    sink: &mut K,
) -> Result<Option<VolumeFault>, Fail> {
    let held = [Some(0), Some(1)];
    let geo = set_of(
        rt,
        Level::Raid0,
        Pattern::Plain,
        Syndrome::NoQ,
        chunk,
        &held,
    );
    let mut images = two_of_ones(alloc, SECTOR * end as usize)?;
    Ok(write(rt, alloc, &mut images, 2, &geo, end as u64, sink).err())
}

// Looks whether the sink got so many ones, and no other byte.
fn look<R: Abort>(rt: &R, sink: &MemSink, count: usize) {
    assert!(rt; sink.bytes().len() == count);
    assert!(rt; repeat(sink.bytes(), 1));
}

/// A volume of images of `end` sectors in chunks of `chunk`, to a sink whose call number `call` fails once it took `taken` bytes; whether
/// the volume is cut off by that, and how many bytes the sink has then.
type Cut = (u64, u32, u64, usize, bool, usize);

static CUTS: [Cut; 4] = [
    // a chunk of 512 sectors goes to the sink in one call, and is its first
    (512, 512, 1, 100, true, 100),
    // two chunks of 256 sectors are two calls, and there is no third
    (256, 256, 3, 100, false, 262_144),
    // two chunks of 64 sectors go to the sink in two calls
    (64, 64, 2, 0, true, 32_768),
    // four chunks of 32 sectors wait, and go in one call
    (32, 64, 2, 0, false, 65_536),
];

#[test]
fn large_chunks_are_put_at_once(rt: HostRuntime) -> Result<(), Fail> {
    for (chunk, end, call, taken, is_cut, count) in &CUTS {
        let mut sink = sink_of(rt.alloc(), 524_288, *call, *taken)?;
        let cut = striped(&rt, rt.alloc(), *chunk, *end, &mut sink)?;
        assert_eq!(rt; matches!(cut, Some(VolumeFault::WriteFault)), *is_cut);
        assert_eq!(rt; cut.is_some(), *is_cut);
        look(&rt, &sink, *count);
    }
    Ok(())
}

// Writes that volume to the end, in whole sectors of ones, of which there are so many.
fn in_whole_sectors<R: Abort>(
    rt: &R,
    alloc: Global,
    chunk: u64,
    end: u32,
    sectors: u32,
) -> Result<(), Fail> {
    let mut sink = Looker::new();
    let cut = striped(rt, alloc, chunk, end, &mut sink)?;
    assert!(rt; cut.is_none());
    assert!(rt; sink.bytes == SECTOR * sectors as usize);
    assert!(rt; sink.whole && sink.ones);
    Ok(())
}

// Chunks of which many are a batch, one is, and larger ones, with a last batch that is short: 700 sectors
// hold 175 chunks of 4, 10 of 64, 2 of 256 and 1 of 512.
#[test]
fn whole_sectors_are_put(rt: HostRuntime) -> Result<(), Fail> {
    for (chunk, end, sectors) in [
        (4, 700, 1400),
        (64, 700, 1280),
        (256, 700, 1024),
        (512, 700, 1024),
    ] {
        in_whole_sectors(&rt, rt.alloc(), chunk, end, sectors)?;
    }
    Ok(())
}

// The largest chunk, of 16 MiB.
#[test]
fn the_largest_chunk(rt: HostRuntime) -> Result<(), Fail> {
    in_whole_sectors(&rt, rt.alloc(), 32768, 32768, 65_536)
}
