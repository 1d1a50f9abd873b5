//! Counts of unsound rows, over images in memory.
ghost use Rattle.std.specs.Prelude.{◌≡◌, ◌^◌, ◌<◌, length};

use crate::objects::{images_of, three_reach};
use crate::plans::three_rows;
use image_source::MemImages;
use outside::Images;
use raid_params::{Geometry, Head, Level, Pattern, Slots, Syndrome};
use row_scan::unsound;
use std::process::Abort;
use std::test::Fail;
use test_objects::attached;

// How many rows are unsound.
#[tactic(auto, using(crate::proofs::TestSets::three_scannable))]
fn count<R: Abort + AllocGlobal>(
    rt: &R,
    images: &mut MemImages,
    geo: &Geometry,
    end: u64,
    window: u64,
) -> Option<u64>
    requires offset { geo.now.head.offset < 2 ^ 55 }
    requires end { end < 2 ^ 55 }
{
    let plan = three_rows(rt.alloc(), end, window);
    assert!(rt; geo.is_shaped(3));
    assert!(rt; three_reach(images, end));
    unsound(rt.alloc(), images, &plan, geo).ok()
}

// Images 0, 1 and 2 in this order, left-symmetric at level 5.
pub fn three_members(chunk: u64) -> Geometry
    ensures slots { length result.slots.items ≡ 3 }
    ensures offset { result.head.offset ≡ 0 }
{
    let mut slots = Slots::new();
    slots.push(Some(0));
    slots.push(Some(1));
    slots.push(Some(2));
    let head = Head {
        level: Level::Raid5,
        members: 3,
        pattern: Pattern::Ls,
        delay: 1,
        syndrome: Syndrome::NoQ,
        chunk,
        offset: 0,
    };
    Geometry { head, slots }
}

// Images 0, 1 and 2 in slots 0, 2 and 3 of four, with parity on the last slots.
fn parity_last(level: Level, syndrome: Syndrome) -> Geometry
    ensures slots { length result.slots.items ≡ 4 }
    ensures offset { result.head.offset ≡ 0 }
{
    let head = Head {
        level,
        members: 4,
        pattern: Pattern::ParityLast,
        delay: 1,
        syndrome,
        chunk: 1,
        offset: 0,
    };
    let mut slots = Slots::new();
    slots.push(Some(0));
    slots.push(None);
    slots.push(Some(1));
    slots.push(Some(2));
    Geometry { head, slots }
}

// 1 + 3 + 2 and 2 + 4 + 6 cancel bit by bit, 2 + 4 + 7 do not.
#[test]
fn two_rows(rt: HostRuntime) -> Result<(), Fail> {
    let geo = three_members(1);
    let mut images = attached(rt.alloc(), &[&[1, 2], &[3, 4], &[2, 6]])?;
    assert_eq!(rt; count(&rt, &mut images, &geo, 2, 2), Some(0));
    let mut images = attached(rt.alloc(), &[&[1, 2], &[3, 4], &[2, 7]])?;
    assert_eq!(rt; count(&rt, &mut images, &geo, 2, 2), Some(1));
    assert_eq!(rt; count(&rt, &mut images, &geo, 2, 1), Some(0));
    Ok(())
}

// 600 rows, of which the last has a bad byte.
#[test]
fn many_blocks(rt: HostRuntime) -> Result<(), Fail> {
    let mut images = images_of(rt.alloc(), &[600; 3], &[(1, 599, &[(511, &[1])])], &[])?;
    let geo = three_members(8);
    assert_eq!(rt; count(&rt, &mut images, &geo, 600, 600), Some(1));
    assert_eq!(rt; count(&rt, &mut images, &geo, 600, 599), Some(0));
    assert_eq!(rt; count(&rt, &mut images, &geo, 599, 600), Some(0));
    Ok(())
}

// The missing block is 3 + 6 = 5, bit by bit, by P; 3 + 2 * 5 = 9 is Q, and 8 is not. With P alone,
// any bytes can be a row.
#[test]
fn a_missing_member(rt: HostRuntime) -> Result<(), Fail> {
    let mut images = attached(rt.alloc(), &[&[3, 3], &[6, 6], &[9, 8]])?;
    let geo = parity_last(Level::Raid6, Syndrome::BySlot);
    assert_eq!(rt; count(&rt, &mut images, &geo, 2, 1), Some(0));
    assert_eq!(rt; count(&rt, &mut images, &geo, 2, 2), Some(1));
    let geo = parity_last(Level::Raid5, Syndrome::NoQ);
    assert_eq!(rt; count(&rt, &mut images, &geo, 2, 2), Some(0));
    Ok(())
}
