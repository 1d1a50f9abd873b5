//! Pages of mirrors that were worked out by hand, over images in memory.
ghost use Rattle.near_search.specs.Asks.{HasImages, IsNearAsk};

use arrayvec::ArrayVec;
use near_mirror::{CopyLayout, Copying, FEWEST_COPIES, MOST_COPIES, near_line};
use near_search::{NearAsk, NearFault, NearPage, near_page};
use outside::Images;
use raid_params::{MOST, is_chunk};
use std::alloc::Global;
use std::process::Abort;
use std::test::Fail;
use test_objects::{all_reach, attached};

/// Two copies of a layout.
fn two(copying: Copying) -> CopyLayout {
    CopyLayout { copying, copies: 2 }
}

/// What is asked of mirrors of one layout and number of members in chunks of one sector, from sector 0 of images of two sectors on, with
/// every slot filled and no torn sector.
fn ask_of<R: Abort>(rt: &R, layout: CopyLayout, members: u8, window: u64) -> NearAsk
    ensures { IsNearAsk result }
{
    assert!(rt; FEWEST_COPIES <= layout.copies && layout.copies <= MOST_COPIES);
    assert!(rt; 2 <= members as usize && members as usize <= MOST);
    assert!(rt; is_chunk(1));
    let mut ask = NearAsk {
        layouts: ArrayVec::new(),
        members: ArrayVec::new(),
        chunks: ArrayVec::new(),
        offsets: ArrayVec::new(),
        missing: 0,
        foreign: 0,
        badrows: 0,
        window,
        end: 2,
    };
    ask.layouts.push(layout);
    ask.members.push(members);
    ask.chunks.push(1);
    ask.offsets.push(0);
    ask
}

/// Looks whether pages can be made over `count` images.
fn serve_ask<R: Abort, I: Images>(rt: &R, images: &I, count: u8, ask: &NearAsk)
    ensures { HasImages ask.now (I.seen images.now).attached }
{
    assert!(rt; 1 <= count && count as usize <= MOST);
    assert!(rt; all_reach(images, count, ask.end));
}

/// Whether the page has lines of these ranks, and comes to the end of all `total` ranks.
fn has_ranks(page: &NearPage, ranks: &[u64], total: u64) -> bool {
    let lines = page.lines.as_slice();
    lines.len() == ranks.len()
        && lines
            .iter()
            .zip(ranks)
            .all(|(line, rank)| line.rank == *rank)
        && page.next == total
        && page.total == total
}

/// Pages of mirrors with a member for each image, of two sectors: how chunks are copied twice, the sectors of the images, how many rows
/// are compared, and the ranks of those that pass.
type Page = (Copying, &'static [&'static [u8]], u64, &'static [u64]);

/// Three members, of which each holds the chunk of the slot before in its second row.
const THREE: &[&[u8]] = &[&[1, 3], &[2, 1], &[3, 2]];

static PAGES: [Page; 8] = [
    // each pair of slots has one of the two pairs of images, in either order
    (
        Copying::Near,
        &[&[1, 2], &[1, 2], &[3, 4], &[3, 4]],
        2,
        &[0, 1, 6, 7, 16, 17, 22, 23],
    ),
    // the second chunk stands at the end of the first row and at the beginning of the second
    (Copying::Near, &[&[5, 6], &[5, 7], &[6, 7]], 2, &[0]),
    // a window of one row leaves out the chunk whose second copy stands in the second row, and with it what is torn
    (Copying::Near, &[&[5, 6], &[5, 7], &[0, 7]], 1, &[0, 2]),
    (Copying::Near, &[&[5, 6], &[5, 7], &[0, 7]], 2, &[]),
    // the second row of a member is its second part, so that each slot can be the first one
    (Copying::Far, THREE, 2, &[0, 3, 4]),
    // a window of one row has the first sector of each part, and so both copies of each far chunk; of offset chunks it has one
    (Copying::Far, THREE, 1, &[0, 3, 4]),
    (Copying::Offset, THREE, 1, &[0, 1, 2, 3, 4, 5]),
    (Copying::Offset, THREE, 2, &[0, 3, 4]),
];

/// Makes a page from rank 0 on, of at most 100 lines.
fn page_of<R: Abort>(rt: &R, alloc: Global, page: &Page) -> Result<NearPage, Fail> {
    let (copying, each, window, _) = *page;
    let mut images = attached(alloc, each)?;
    assert!(rt; each.len() <= MOST);
    let count = each.len() as u8;
    let ask = ask_of(rt, two(copying), count, window);
    serve_ask(rt, &images, count, &ask);
    Ok(near_page(alloc, &mut images, &ask, 0, 100, u64::MAX).map_err(|_| "a page")?)
}

#[test]
fn mirrors_that_pass(rt: HostRuntime) -> Result<(), Fail> {
    for page in &PAGES {
        let found = page_of(&rt, rt.alloc(), page)?;
        let total = if page.1.len() == 4 { 24 } else { 6 };
        assert!(rt; has_ranks(&found, page.3, total), "{}", page.2);
    }
    Ok(())
}

/// Whether the first line of a page has this text.
fn begins<R: Abort>(rt: &R, alloc: Global, page: &Page, want: &[u8]) -> Result<bool, Fail> {
    let found = page_of(rt, alloc, page)?;
    let first = found.lines.as_slice().first().ok_or("a line")?;
    let text = near_line(alloc, first.rank, &first.set)?;
    Ok(text.as_slice() == want)
}

#[test]
fn lines_of_mirrors(rt: HostRuntime) -> Result<(), Fail> {
    assert!(rt; begins(&rt, rt.alloc(), &PAGES[0], b"0 near2:1:0:0,1,2,3\n")?);
    assert!(rt; begins(&rt, rt.alloc(), &PAGES[4], b"0 far2:1:0:0,1,2\n")?);
    Ok(())
}

// Four images are attached by the first four calls, and the second reading fails.
#[test]
fn a_read_fault(rt: HostRuntime) -> Result<(), Fail> {
    let mut images = attached(rt.alloc(), &[&[1], &[1], &[3], &[3]])?;
    images.fail_call(6)?;
    let mut ask = ask_of(&rt, two(Copying::Near), 4, 1);
    ask.end = 1;
    serve_ask(&rt, &images, 4, &ask);
    let cut = near_page(rt.alloc(), &mut images, &ask, 0, 100, u64::MAX);
    assert!(rt; matches!(&cut, Err(NearFault::ReadFault)));
    Ok(())
}

// Three copies of four chunks in three rows of four members: chunk 1 begins at the end of the first row, and chunk 2 in the middle of the
// second.
#[test]
fn three_copies(rt: HostRuntime) -> Result<(), Fail> {
    let each: [&[u8]; 4] = [&[1, 2, 3], &[1, 2, 4], &[1, 3, 4], &[2, 3, 4]];
    let mut images = attached(rt.alloc(), &each)?;
    let layout = CopyLayout {
        copying: Copying::Near,
        copies: 3,
    };
    let mut ask = ask_of(&rt, layout, 4, 3);
    ask.end = 3;
    serve_ask(&rt, &images, 4, &ask);
    let page = near_page(rt.alloc(), &mut images, &ask, 0, 100, u64::MAX).map_err(|_| "a page")?;
    assert!(rt; has_ranks(&page, &[0], 24));
    Ok(())
}

// Two of five members are lost. Each chunk stands on slots beside each other, so those that are lost are not: they leave two beside each
// other, which hold the two images that have a chunk in common in the second row.
#[test]
fn two_of_five_lost(rt: HostRuntime) -> Result<(), Fail> {
    let mut images = attached(rt.alloc(), &[&[1, 4], &[2, 5], &[3, 5]])?;
    let mut ask = ask_of(&rt, two(Copying::Near), 5, 2);
    ask.missing = 2;
    serve_ask(&rt, &images, 3, &ask);
    let page = near_page(rt.alloc(), &mut images, &ask, 0, 100, u64::MAX).map_err(|_| "a page")?;
    assert!(rt; page.total == 60);
    let lines = page.lines.as_slice();
    assert!(rt; lines.len() == 4);
    let wanted = [None, Some(0), None, Some(1), Some(2)];
    assert!(rt;
        lines
            .iter()
            .any(|line| line.set.slots.as_slice() == wanted.as_slice())
    );
    Ok(())
}
