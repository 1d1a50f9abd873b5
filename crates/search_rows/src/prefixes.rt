//! Prefixes of slot lists that are worked out by hand.
ghost use Rattle.std.specs.Prelude.{◌≡◌, ◌<◌, ◌^◌, Contains, IsTrue, Some, [], ◌∷◌};
ghost use Rattle.raid_params.specs.declared.types.Pattern.TheVariants.{Ls};
ghost use Rattle.image_source.specs.Memory.{seen_of};
ghost use Rattle.raid_params.specs.Validity.{is_valid_head};
ghost use Rattle.search_plan.specs.Plans.{IsPlan, AgreeWith};
ghost use Rattle.prune_filters.specs.Hopeful.{IsPrefix};

use crate::objects::agree;
use crate::plans::{
    allowing, four_of_one, one_missing, three_of_two, two_headers, two_headers_of_four,
};
use image_source::MemImages;
use outside::Images;
use prune_filters::{MarkTable, XorTable, needs_table, prefix_may_pass};
use raid_params::{Head, Level, Pattern, Slots, Syndrome};
use search_plan::Plan;
use std::alloc::Global;
use std::process::Abort;
use std::test::Fail;
use test_objects::attached;

// Left-symmetric from sector 0 on, with chunks of one sector.
fn head_of(level: Level, members: u8, syndrome: Syndrome) -> Head
    ensures { result ≡ record { level = level; members = members; pattern = Ls; delay = 1; syndrome = syndrome; chunk = 1; offset = 0 } }
{
    Head {
        level,
        members,
        pattern: Pattern::Ls,
        delay: 1,
        syndrome,
        chunk: 1,
        offset: 0,
    }
}

// Whether slots that begin so are hopeful.
fn admits(
    alloc: Global,
    images: &mut MemImages,
    plan: &Plan,
    head: &Head,
    prefix: &Slots,
) -> Option<bool>
    requires plan { IsPlan plan.now }
    requires head { IsTrue (is_valid_head head.now) }
    requires images { AgreeWith plan.now (seen_of images.old).attached }
    requires offset { head.now.offset < 2 ^ 55 }
    requires level { Contains plan.now.bounds.levels.items head.now.level }
    requires prefix { IsPrefix plan.now head.now prefix.now.items }
{
    let marks = MarkTable::build(alloc, plan, head).ok()?;
    let xors = XorTable::build(alloc, images, plan, head.chunk, head.offset).ok()?;
    Some(prefix_may_pass(&marks, Some(&xors), plan, head, prefix))
}

// One image in the first slot.
fn first(image: u8) -> Slots
    ensures { result.items ≡ Some image ∷ [] }
{
    let mut slots = Slots::new();
    slots.push(Some(image));
    slots
}

// Whether a row too many is unsound already, over three images.
fn three_admit<R: AllocGlobal + Abort>(rt: &R, images: &mut MemImages, badrows: u64) -> bool
    requires { badrows < 2 ^ 55 }
{
    let plan = allowing(three_of_two(rt.alloc()), badrows);
    let head = head_of(Level::Raid5, 3, Syndrome::NoQ);
    assert!(rt; head.is_valid());
    assert!(rt; agree(images, &plan));
    admits(rt.alloc(), images, &plan, &head, &Slots::new()) == Some(true)
}

// Whether an image may stand in slot 0, which holds Q, over four.
fn four_admit<R: AllocGlobal + Abort>(rt: &R, images: &mut MemImages, image: u8) -> bool
    requires { image < 4 }
{
    let plan = four_of_one(rt.alloc());
    let head = head_of(Level::Raid6, 4, Syndrome::AfterQ);
    assert!(rt; head.is_valid());
    assert!(rt; agree(images, &plan));
    admits(rt.alloc(), images, &plan, &head, &first(image)) == Some(true)
}

// 2, 4 and 7 do not cancel bit by bit, so that one row is unsound in every order.
#[test]
fn a_row_too_many(rt: HostRuntime) -> Result<(), Fail> {
    let mut images = attached(rt.alloc(), &[&[1, 2], &[3, 4], &[2, 7]])?;
    assert!(rt; !three_admit(&rt, &mut images, 0));
    assert!(rt; three_admit(&rt, &mut images, 1));
    Ok(())
}

// 01, 80 and 81 cancel, and no other three of the images do.
#[test]
fn one_image_may_hold_q(rt: HostRuntime) -> Result<(), Fail> {
    let mut images = attached(rt.alloc(), &[&[0x1C], &[0x01], &[0x80], &[0x81]])?;
    assert!(rt; four_admit(&rt, &mut images, 0));
    assert!(rt; !four_admit(&rt, &mut images, 1));
    assert!(rt; !four_admit(&rt, &mut images, 2));
    assert!(rt; !four_admit(&rt, &mut images, 3));
    Ok(())
}

// What is said of an image in slot 0, over three images and the headers of two.
fn header_admits<R: AllocGlobal + Abort>(rt: &R, image: u8) -> Result<Option<bool>, Fail>
    requires { image < 3 }
{
    let plan = two_headers(rt.alloc())?;
    let head = head_of(Level::Raid5, 3, Syndrome::NoQ);
    assert!(rt; head.is_valid());
    let mut images = attached(rt.alloc(), &[&[0], &[0], &[0]])?;
    assert!(rt; agree(&images, &plan));
    Ok(admits(rt.alloc(), &mut images, &plan, &head, &first(image)))
}

// Row 0 is 0 1 P: a header in slot 0 lies on sector 0 of the volume, and one in slot 1 or 2 on sector 1 or on P.
#[test]
fn a_header_may_not_come_first(rt: HostRuntime) -> Result<(), Fail> {
    assert_eq!(rt; header_admits(&rt, 0)?, Some(true));
    assert_eq!(rt; header_admits(&rt, 1)?, Some(false));
    Ok(())
}

// Whether a prefix of a head that needs no table of rows is hopeful.
fn admits_alone<R: Abort>(
    rt: &R,
    alloc: Global,
    plan: &Plan,
    head: &Head,
    prefix: &Slots,
) -> Option<bool>
    requires plan { IsPlan plan.now }
    requires prefix { IsPrefix plan.now head.now prefix.now.items }
{
    assert!(rt; head.is_valid());
    assert!(rt; !needs_table(plan, head));
    let marks = MarkTable::build(alloc, plan, head).ok()?;
    Some(prefix_may_pass(&marks, None, plan, head, prefix))
}

// What is said of an image in slot 0, over four images, of which one may be foreign, and the headers of two.
fn one_of_four_admits<R: AllocGlobal + Abort>(rt: &R, image: u8) -> Result<Option<bool>, Fail>
    requires { image < 4 }
{
    let plan = two_headers_of_four(rt.alloc())?;
    let head = head_of(Level::Raid5, 3, Syndrome::NoQ);
    Ok(admits_alone(rt, rt.alloc(), &plan, &head, &first(image)))
}

// Four images for three members: no table of rows is asked, and still no header may come first.
#[test]
fn a_foreign_image_needs_no_table(rt: HostRuntime) -> Result<(), Fail> {
    assert_eq!(rt; one_of_four_admits(&rt, 0)?, Some(true));
    assert_eq!(rt; one_of_four_admits(&rt, 1)?, Some(false));
    assert_eq!(rt; one_of_four_admits(&rt, 2)?, Some(false));
    assert_eq!(rt; one_of_four_admits(&rt, 3)?, Some(true));
    Ok(())
}

// Two images for three members: no table of rows is asked.
#[test]
fn an_empty_slot_needs_no_table(rt: HostRuntime) {
    let plan = one_missing(rt.alloc());
    let head = head_of(Level::Raid5, 3, Syndrome::NoQ);
    let found = admits_alone(&rt, rt.alloc(), &plan, &head, &Slots::new());
    assert_eq!(rt; found, Some(true));
}
