//! Pages over images in memory.
ghost use Rattle.std.specs.Prelude.{◌≤◌};
ghost use Rattle.search_plan.specs.Plans.{IsPlan};

use crate::objects::agree;
use crate::plans::{
    allowing, asking, four_with_each_order, one_of_four_lost, three_of_two, two_headers_of_four,
    two_levels,
};
use common_pages::{ListPage, PageList, page, pages};
use image_source::MemImages;
use outside::Images;
use row_scan::OpenGate;
use search_plan::Plan;
use std::process::Abort;
use std::test::Fail;
use std::thread::Threads;
use test_objects::{Counted, attached};

// A page of the sets that pass, of at most `size`.
fn page_of<R: Threads + Sync + AllocGlobal + Abort, I: Images>(
    rt: &R,
    images: &mut I,
    plan: &Plan,
    size: u64,
) -> Option<ListPage>
    requires plan { IsPlan plan.now }
    requires size { 1 ≤ size }
{
    assert!(rt; agree(images, plan) && !plan.each);
    page(rt, rt.alloc(), images, plan, 0, size, 100, &OpenGate).ok()
}

// How many lines a page of at most 13 has over images of these bytes, where the next begins, and how many sets there are.
fn page_over<R: Threads + Sync + AllocGlobal + Abort>(
    rt: &R,
    bytes: [u8; 3],
) -> Result<(usize, u64, u64), Fail> {
    let [a, b, c] = bytes;
    let mut images = attached(rt.alloc(), &[&[a, a], &[b, b], &[c, c]])?;
    let plan = two_levels(rt.alloc());
    let made = page_of(rt, &mut images, &plan, 13).expect(rt, "a page");
    Ok((made.lines.as_slice().len(), made.next, made.total))
}

// 1, 3 and 2 cancel bit by bit, so that all sets pass; 1, 3 and 7 do not, and those of level 0 do.
#[test]
fn a_page(rt: HostRuntime) -> Result<(), Fail> {
    assert_eq!(rt; page_over(&rt, [1, 3, 2])?, (13, 13, 18));
    assert_eq!(rt; page_over(&rt, [1, 3, 7])?, (12, 18, 18));
    Ok(())
}

// Five pages at most from rank 3 on, of at most seven lines and seven ranks each.
fn few_pages<R: Threads + Sync + AllocGlobal + Abort>(rt: &R) -> Result<PageList, Fail> {
    let plan = two_levels(rt.alloc());
    let mut images = attached(rt.alloc(), &[&[1, 1], &[3, 3], &[7, 7]])?;
    assert!(rt; agree(&images, &plan) && !plan.each);
    let made = pages(rt, rt.alloc(), &mut images, &plan, 3, 7, 7, 5, &OpenGate);
    Ok(made.expect(rt, "pages"))
}

// How many lines the page of this number has, and where the next begins.
fn end_of(made: &[ListPage], number: usize) -> Option<(usize, u64)> {
    made.get(number)
        .map(|page| (page.lines.as_slice().len(), page.next))
}

// Ranks 0 to 5 and 6 to 11 are of level 0, so that they pass; rank 12 begins level 5, where none does.
#[test]
fn three_pages(rt: HostRuntime) -> Result<(), Fail> {
    let made = few_pages(&rt)?;
    assert_eq!(rt; made.as_slice().len(), 3);
    assert_eq!(rt; end_of(made.as_slice(), 0), Some((7, 10)));
    assert_eq!(rt; end_of(made.as_slice(), 1), Some((2, 17)));
    assert_eq!(rt; end_of(made.as_slice(), 2), Some((0, 18)));
    Ok(())
}

// How many lines a page has, where this call of the images fails.
fn lines_without<R: Threads + Sync + AllocGlobal + Abort>(
    rt: &R,
    call: u64,
) -> Result<Option<usize>, Fail> {
    let plan = two_levels(rt.alloc());
    let mut images = attached(rt.alloc(), &[&[1, 1], &[3, 3], &[2, 2]])?;
    images.fail_call(call)?;
    let all = page_of(rt, &mut images, &plan, 100);
    Ok(all.map(|found| found.lines.as_slice().len()))
}

// Nothing can break a set of level 0, and the tables of rows decide those of level 5: whatever the number of sets, each
// of the three images, of two sectors, is read once. These are the calls after the three attachments.
#[test]
fn each_image_is_read_once(rt: HostRuntime) -> Result<(), Fail> {
    for call in 4..8 {
        let expected = if call < 7 { None } else { Some(18) };
        assert_eq!(rt; lines_without(&rt, call)?, expected);
    }
    Ok(())
}

// How many lines a page of at most a hundred has, where the next begins, and how many sectors are read for it.
fn read_by_page<R: Threads + Sync + AllocGlobal + Abort>(
    rt: &R,
    images: MemImages,
    plan: &Plan,
) -> (usize, u64, u64)
    requires { IsPlan plan.now }
{
    let mut counted = Counted::new(images);
    let made = page_of(rt, &mut counted, plan, 100).expect(rt, "a page");
    let reads = counted
        .reads()
        .iter()
        .fold(0, |all: u64, one| all.saturating_add(*one));
    (made.lines.as_slice().len(), made.next, reads)
}

// Four images of one sector: Q, two data blocks and P.
const FOUR: &[&[u8]] = &[&[0x1C], &[0x01], &[0x80], &[0x81]];

// Four images of one sector: the tables of rows take a reading of each, and leave 18 sets. One scan of these reads at most 64 samples
// and the one tested row, of each image.
#[test]
fn few_sectors_are_read_for_many_sets(rt: HostRuntime) -> Result<(), Fail> {
    let images = attached(rt.alloc(), FOUR)?;
    let plan = four_with_each_order(rt.alloc());
    let (lines, next, sectors) = read_by_page(&rt, images, &plan);
    assert_eq!(rt; (lines, next), (2, 72));
    assert!(rt; sectors <= 264);
    Ok(())
}

// 2, 4 and 7 do not cancel bit by bit, so that no set is left once the three images of two sectors were read.
#[test]
fn refused_sets_are_not_read_again(rt: HostRuntime) -> Result<(), Fail> {
    let images = attached(rt.alloc(), &[&[1, 2], &[3, 4], &[2, 7]])?;
    let plan = three_of_two(rt.alloc());
    let (lines, next, sectors) = read_by_page(&rt, images, &plan);
    assert_eq!(rt; (lines, next), (0, 6));
    assert!(rt; sectors <= 6);
    Ok(())
}

// The first three members of a level 6 of four, left-symmetric, after Q. Its data are 1 and 2, 4 and 8, 16 and 32, so that P is
// 3, 12, 48 and Q 5, 20, 80.
const MEMBERS: &[&[u8]] = &[&[5, 4, 32], &[1, 8, 48], &[2, 12, 80]];

// Of the 24 sets with one lost member the true one has no unsound row, two have one, four two, and the others three. All three rows
// are samples, so that these settle all that fails.
#[test]
fn as_many_rows_as_may_be_unsound(rt: HostRuntime) -> Result<(), Fail> {
    for (badrows, expected) in [(0, 1), (1, 3), (2, 7), (3, 24)] {
        let plan = allowing(one_of_four_lost(rt.alloc()), badrows);
        let (lines, next, _) = read_by_page(&rt, attached(rt.alloc(), MEMBERS)?, &plan);
        assert_eq!(rt; (lines, next), (expected, 24));
    }
    Ok(())
}

// Where no set passes, the three rows of the three images are read as samples, and nothing else.
#[test]
fn settled_sets_are_not_scanned(rt: HostRuntime) -> Result<(), Fail> {
    for badrows in 0..3 {
        let plan = allowing(one_of_four_lost(rt.alloc()), badrows);
        let images = attached(rt.alloc(), &[&[1; 3], &[3; 3], &[9; 3]])?;
        assert_eq!(rt; read_by_page(&rt, images, &plan), (0, 24, 9));
    }
    Ok(())
}

// Two headers that both have to lie on volume sector 1: no slot list lets them, and no sample is read. Where one is enough, samples
// are read of the one sector of each image.
#[test]
fn where_marks_leave_nothing_nothing_is_read(rt: HostRuntime) -> Result<(), Fail> {
    let plan = asking(two_headers_of_four(rt.alloc())?, 2);
    assert_eq!(rt;
        read_by_page(&rt, attached(rt.alloc(), FOUR)?, &plan),
        (0, 24, 0)
    );
    let plan = asking(two_headers_of_four(rt.alloc())?, 1);
    let (_, next, sectors) = read_by_page(&rt, attached(rt.alloc(), FOUR)?, &plan);
    assert!(rt; next == 24 && sectors >= 4);
    Ok(())
}
