//! Pages of any plan.
ghost use Rattle.std.specs.Prelude.{◌≡◌, ◌≤◌, true};
ghost use Rattle.page_engine.specs.Pages.{CanPageWide, GivesPage, GivesPages};

use crate::based_page::based_page;
use common_pages::{ListPage, PageFault, PageList};
use head_walk::Paging;
use outside::Images;
use row_scan::Gate;
use search_plan::Plan;
use std::alloc::Global;
use std::thread::Threads;

/// The page of a plan from a rank on: the first `size` of the sets that pass and whose ranks are below `from + span`, and the
/// rank from which the next page goes on. Where the images have a common offset, no more is read than for a page of `common_pages`;
/// otherwise, for each head with each list of bases of which a rank is looked at, no more than for such a page of its ranks alone.
/// In a scan pieces of the sets may run side by side: each passes the gate.
pub fn page<R: Threads + Sync, I: Images, G: Gate + Sync>(
    rt: &R,
    alloc: Global,
    images: &mut I,
    plan: &Plan,
    from: u64,
    size: u64,
    span: u64,
    gate: &G,
) -> Result<ListPage, PageFault>
    requires can { CanPageWide plan.now size (I.seen images.old).attached }
    ensures { GivesPage plan.now from size span (I.seen images.old) (I.seen images.new) result }
{
    if !plan.each {
        return common_pages::page(rt, alloc, images, plan, from, size, span, gate);
    }
    let paging = Paging {
        rt,
        alloc,
        plan,
        size,
        gate,
    };
    based_page(&paging, images, from, span)
}

/// The pages of a plan from a rank on: the page there, then the page where it goes on, until `count` are made or one goes on at
/// the total. Each has at most `size` lines and goes through at most `span` ranks; `size` and `count` are 1 at least. Where the
/// images have a common offset, no more is read than for the pages of `common_pages`; otherwise as much may be read as for each page alone.
pub fn pages<R: Threads + Sync, I: Images, G: Gate + Sync>(
    rt: &R,
    alloc: Global,
    images: &mut I,
    plan: &Plan,
    from: u64,
    size: u64,
    span: u64,
    count: u64,
    gate: &G,
) -> Result<PageList, PageFault>
    requires can { CanPageWide plan.now size (I.seen images.old).attached }
    requires count { 1 ≤ count }
    ensures { GivesPages plan.now size span count from (I.seen images.old) (I.seen images.new) result }
{
    if !plan.each {
        return common_pages::pages(rt, alloc, images, plan, from, size, span, count, gate);
    }
    let paging = Paging {
        rt,
        alloc,
        plan,
        size,
        gate,
    };
    based_pages(&paging, images, from, span, count)
}

/// The pages of a plan from a rank on, where each image has an offset of its own.
fn based_pages<R: Threads + Sync, I: Images, G: Gate + Sync>(
    paging: &Paging<R, G>,
    images: &mut I,
    from: u64,
    span: u64,
    count: u64,
) -> Result<PageList, PageFault>
    requires can { CanPageWide paging.now.plan.now paging.now.size (I.seen images.old).attached }
    requires own { paging.now.plan.now.each ≡ true }
    requires count { 1 ≤ count }
    ensures { GivesPages paging.now.plan.now paging.now.size span count from (I.seen images.old) (I.seen images.new) result }
{
    let mut made = PageList::new(paging.alloc);
    let mut at = from;
    for _ in 0..count {
        let found = based_page(paging, images, at, span)?;
        let (next, total) = (found.next, found.total);
        made.push(found).map_err(|_| PageFault::Memory)?;
        if next == total {
            return Ok(made);
        }
        at = next;
    }
    Ok(made)
}
