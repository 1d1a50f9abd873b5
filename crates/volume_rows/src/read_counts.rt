//! How many sectors of each image are read for a volume. The counts were worked out by hand.
use crate::objects::{NO, are_sectors, set_of};
use crate::volumes::write;
use image_source::MemSink;
use raid_params::{Level, Pattern, Syndrome};
use std::alloc::Global;
use std::process::Abort;
use std::test::Fail;
use test_objects::{Counted, attached};

// Looks how many sectors are read of each of the four images for the volume of eight sectors, of a set of four
// members at level 6, in chunks of a sector.
fn look<R: Abort>(
    rt: &R,
    alloc: Global,
    pattern: Pattern,
    held: [Option<u8>; 4],
    reads: [u64; 4],
) -> Result<(), Fail> {
    let geo = set_of(rt, Level::Raid6, pattern, Syndrome::AfterQ, 1, &held);
    let mut counted = Counted::new(attached(alloc, &[&[0; 4], &[0; 4], &[0; 4], &[0; 4]])?);
    let mut sink = MemSink::new(alloc, 4096)?;
    assert!(rt; write(rt, alloc, &mut counted, 4, &geo, 4, &mut sink).is_ok());
    assert!(rt; are_sectors(sink.bytes(), &[0; 8]));
    assert!(rt; counted.reads() == reads);
    Ok(())
}

// Row by row P lies on slot 3, 2, 1 and 0, and Q after it, on slot 0, 3, 2 and 1. So each slot holds data
// in two rows, and with nothing lost no more is read. With slot 0 lost its data are those of rows 1 and 2,
// where P lies on slots 2 and 1; Q is never asked.
#[test]
fn rotating_parity(rt: HostRuntime) -> Result<(), Fail> {
    let pattern = Pattern::Ls;
    let all = [Some(0), Some(1), Some(2), Some(3)];
    look(&rt, rt.alloc(), pattern, all, [2, 2, 2, 2])?;
    let one_lost = [NO, Some(1), Some(2), Some(3)];
    look(&rt, rt.alloc(), pattern, one_lost, [0, 3, 3, 2])
}

// Slots 0 and 1 hold data in each row, slot 2 holds P and slot 3 Q.
#[test]
fn parity_last(rt: HostRuntime) -> Result<(), Fail> {
    for (held, reads) in [
        ([Some(0), Some(1), Some(2), Some(3)], [4, 4, 0, 0]),
        ([NO, Some(1), Some(2), Some(3)], [0, 4, 4, 0]),
        ([Some(0), Some(1), NO, Some(3)], [4, 4, 0, 0]),
        ([NO, Some(1), Some(2), NO], [0, 4, 4, 0]),
        ([NO, Some(1), NO, Some(3)], [0, 4, 0, 4]),
        ([NO, NO, Some(2), Some(3)], [0, 0, 4, 4]),
    ] {
        look(&rt, rt.alloc(), Pattern::ParityLast, held, reads)?;
    }
    Ok(())
}
