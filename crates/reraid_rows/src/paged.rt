//! Pages of sets by the call that `reraid_cli` hands on, of plans of both versions.
ghost use Rattle.std.specs.Prelude.{IsTrue};
ghost use Rattle.search_plan.specs.Plans.{AgreeWith};

use crate::objects::filled;
use crate::plans::{EACH_OFFSET, TWO_LEVELS};
use image_source::MemImages;
use outside::Images;
use plan_text::{Plan, read_plan};
use reraid_cli::{ListPage, OpenGate, page};
use std::process::Abort;
use std::test::Fail;
use std::thread::Threads;

/// Two rows of left-symmetric over three members.
const MEMBERS: [&[u8]; 3] = [&[1, 2], &[3, 4], &[2, 6]];

/// The same, where they begin at sector 1 of the first image.
const LATER: [&[u8]; 3] = [&[9, 1, 2], &[3, 4, 9], &[2, 6, 9]];

/// A page: of which plan and images, from which rank on, of how many lines at most; and what it must be: the ranks of its lines, the
/// offsets and the slots of the first, where the next page begins, and how many sets there are.
#[derive(Clone, Copy)]
struct Paged<'a> {
    plan: &'a str,
    images: [&'a [u8]; 3],
    from: u64,
    size: u64,
    ranks: &'a [u64],
    bases: &'a [u64],
    slots: &'a [Option<u8>],
    next: u64,
    total: u64,
}

/// Whether the attached images have the planned lengths.
fn agree<I: Images>(images: &I, plan: &Plan) -> bool
    ensures { IsTrue result → AgreeWith plan.now (I.seen images.now).attached }
{
    let planned = plan.lengths.as_slice();
    for (image, sectors) in planned.iter().enumerate() {
        if images.length(image as u32) != Some(*sectors) {
            return false;
        }
    }
    images.length(planned.len() as u32).is_none()
}

/// Three images of such sectors, attached in this order.
fn three_images<R: AllocGlobal>(rt: &R, sectors: [&[u8]; 3]) -> Result<MemImages, Fail> {
    let mut images = MemImages::new(rt.alloc())?;
    images.add("a", &filled(rt.alloc(), sectors[0])?)?;
    images.add("b", &filled(rt.alloc(), sectors[1])?)?;
    images.add("c", &filled(rt.alloc(), sectors[2])?)?;
    images.attach("a")?;
    images.attach("b")?;
    images.attach("c")?;
    Ok(images)
}

/// Makes the page, and compares it with what it must be.
fn check_page<R: Threads + Sync + AllocGlobal + Abort>(rt: &R, row: &Paged) -> Result<(), Fail> {
    let mut images = three_images(rt, row.images)?;
    let plan = read_plan(rt.alloc(), row.plan.as_bytes()).expect(rt, "a plan");
    assert!(rt; row.size > 0 && agree(&images, &plan));
    let found = page(
        rt,
        rt.alloc(),
        &mut images,
        &plan,
        row.from,
        row.size,
        u64::MAX,
        &OpenGate,
    );
    compare(rt, &found.expect(rt, "a page"), row)
}

/// Compares a page with what it must be.
fn compare<R: Abort>(rt: &R, found: &ListPage, row: &Paged) -> Result<(), Fail> {
    let lines = found.lines.as_slice();
    assert_eq!(rt; lines.len(), row.ranks.len());
    for (line, rank) in lines.iter().zip(row.ranks) {
        assert_eq!(rt; line.rank, *rank);
    }
    let first = lines.first().ok_or("a line")?;
    assert_eq!(rt; first.geo.bases.as_slice(), row.bases);
    assert_eq!(rt; first.geo.geo.slots.as_slice(), row.slots);
    assert_eq!(rt; (found.next, found.total), (row.next, row.total));
    Ok(())
}

// Of two levels and two numbers of members: twelve sets of level 0, of which six have two members, and six of level 5. Parity says
// nothing of the first.
#[test]
fn pages_of_a_common_offset(rt: HostRuntime) -> Result<(), Fail> {
    let mut row = Paged {
        plan: TWO_LEVELS,
        images: MEMBERS,
        from: 12,
        size: 1,
        ranks: &[12],
        bases: &[],
        slots: &[Some(0), Some(1), Some(2)],
        next: 13,
        total: 18,
    };
    check_page(&rt, &row)?;
    row.from = 0;
    row.ranks = &[0];
    row.slots = &[Some(0), Some(1)];
    row.next = 1;
    check_page(&rt, &row)
}

// Eight lists of offsets 0 and 1 have six orders each. With 1, 0 and 0, the fifth of them, each row cancels in any order.
#[test]
fn a_page_of_offsets_of_their_own(rt: HostRuntime) -> Result<(), Fail> {
    let row = Paged {
        plan: EACH_OFFSET,
        images: LATER,
        from: 0,
        size: 100,
        ranks: &[24, 25, 26, 27, 28, 29],
        bases: &[1, 0, 0],
        slots: &[Some(0), Some(1), Some(2)],
        next: 48,
        total: 48,
    };
    check_page(&rt, &row)
}
