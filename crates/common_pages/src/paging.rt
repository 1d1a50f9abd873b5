//! Pages of the sets that pass.
ghost use Rattle.std.specs.Prelude.{◌≡◌, ◌-◌, ◌<◌, ◌≤◌, ◌^◌, false, All, IfErr, IfOk, IfSome, IsErrOf, length};
ghost use Rattle.std.specs.Result.{is_err};
ghost use Rattle.outside.specs.Attached.{told_all};
ghost use Rattle.outside.specs.Seen.{OnlyReads};
ghost use Rattle.search_terms.specs.Page.{stop_of};
ghost use Rattle.search_plan.specs.Plans.{IsPlan, AgreeWith};
ghost use Rattle.wide_product.specs.Sets.{wide_total};
ghost use Rattle.common_pages.specs.Pages.{ArePagesFrom, EndsOrFull, EndsPage, IsPageFrom, page_reads, ReadsPages, tested_to};
ghost use Rattle.head_walk.specs.Walk.{IsKept, left_after, left_reads, ReadsRange};
ghost use Rattle.common_pages.specs.declared.page_parts.PageFault.TheVariants.{Cursor, Many};

use crate::page_parts::{CursorFault, ListPage, PageFault, PageList};
use crate::walking::gather_range;
use head_walk::{Gathered, KeptTables, Lines, Paging, Waiting, finish};
use outside::Images;
use row_scan::Gate;
use search_plan::Plan;
use std::alloc::Global;
use std::thread::Threads;
use wide_product::product_total;

/// The page of a plan of images with a common offset, from a rank on: the first `size` of the sets that pass and whose ranks are
/// below `from + span`, and the rank from which the next page goes on. Where some head of the plan needs a table of
/// rows, at most the tested rows of the chunk that has most are read, once for each offset and of each image; otherwise
/// at most 512 of them and eight more for each that may be unsound, no more than 32,768, where samples are asked for some
/// head. The sets that are still hopeful are scanned, up to 4,096 at a time, in one pass over the images; where none of
/// their rows has to be tested, nothing is read for them. In a scan pieces of the sets may run side by side: each passes the gate.
pub fn page<R: Threads + Sync, I: Images, G: Gate + Sync>(
    rt: &R,
    alloc: Global,
    images: &mut I,
    plan: &Plan,
    from: u64,
    size: u64,
    span: u64,
    gate: &G,
) -> Result<ListPage, PageFault>
    requires plan { IsPlan plan.now }
    requires common { plan.now.each ≡ false }
    requires lengths { AgreeWith plan.now (I.seen images.old).attached }
    requires size { 1 ≤ size }
    ensures page { IfOk result (IsPageFrom (told_all (I.seen images.old).attached) plan.now from size span) }
    ensures many { 2 ^ 64 ≤ wide_total plan.now → IsErrOf result Many }
    ensures cursor { wide_total plan.now < 2 ^ 64 → wide_total plan.now < from → IsErrOf result (Cursor (record { from = from; total = wide_total plan.now })) }
    ensures quiet { IfOk result (λ made. (I.seen images.new).faults ≡ (I.seen images.old).faults) }
    ensures ends { IfErr result (EndsPage plan.now from (I.seen images.old) (I.seen images.new)) }
    ensures reads { OnlyReads (I.seen images.old) (I.seen images.new)
        (page_reads (told_all (I.seen images.old).attached) plan.now from (tested_to (stop_of (wide_total plan.now) from span) result)) }
    ensures ended { IfOk result (λ p. EndsOrFull size from (stop_of (wide_total plan.now) from span) (length p.lines) p.next) }
{
    let mut kept = KeptTables::new(alloc);
    let paging = Paging {
        rt,
        alloc,
        plan,
        size,
        gate,
    };
    next_page(&paging, images, &mut kept, from, span)
}

/// The page of a plan from a rank on, with the tables that were made for earlier pages.
fn next_page<R: Threads + Sync, I: Images, G: Gate + Sync>(
    paging: &Paging<R, G>,
    images: &mut I,
    kept: &mut KeptTables,
    from: u64,
    span: u64,
) -> Result<ListPage, PageFault>
    requires plan { IsPlan paging.now.plan.now }
    requires common { paging.now.plan.now.each ≡ false }
    requires lengths { AgreeWith paging.now.plan.now (I.seen images.old).attached }
    requires size { 1 ≤ paging.now.size }
    requires kept { All (IsKept (told_all (I.seen images.old).attached) paging.now.plan.now) kept.old }
    ensures page { IfOk result (IsPageFrom (told_all (I.seen images.old).attached) paging.now.plan.now from paging.now.size span) }
    ensures many { 2 ^ 64 ≤ wide_total paging.now.plan.now → IsErrOf result Many }
    ensures cursor { wide_total paging.now.plan.now < 2 ^ 64 → wide_total paging.now.plan.now < from → IsErrOf result (Cursor (record { from = from; total = wide_total paging.now.plan.now })) }
    ensures quiet { IfOk result (λ made. (I.seen images.new).faults ≡ (I.seen images.old).faults) }
    ensures ends { IfErr result (EndsPage paging.now.plan.now from (I.seen images.old) (I.seen images.new)) }
    ensures reads { ReadsRange (told_all (I.seen images.old).attached) paging.now.plan.now from (tested_to (stop_of (wide_total paging.now.plan.now) from span) result) 4095
        (left_reads paging.now.plan.now kept.old) (left_after paging.now.plan.now kept.new result) (I.seen images.old) (I.seen images.new) }
    ensures kept { All (IsKept (told_all (I.seen images.old).attached) paging.now.plan.now) kept.new }
    ensures ended { IfOk result (λ p. EndsOrFull paging.now.size from (stop_of (wide_total paging.now.plan.now) from span) (length p.lines) p.next) }
{
    let total = product_total(paging.plan).ok_or(PageFault::Many)?;
    if from > total {
        return Err(PageFault::Cursor(CursorFault { from, total }));
    }
    let stop = total.min(from.saturating_add(span));
    let mut page = Gathered {
        lines: Lines::new(paging.alloc),
        tested: from,
        waiting: Waiting::none(paging.alloc),
    };
    let next = match gather_range(paging, images, kept, from, stop, &mut page)? {
        Some(next) => next,
        None => finish(paging, images, stop, &mut page)?,
    };
    Ok(ListPage {
        lines: page.lines,
        next,
        total,
    })
}

/// The pages of a plan of images with a common offset, from a rank on: the page there, then the page where it goes on, until `count`
/// are made or one goes on at the total. Each has at most `size` lines and goes through at most `span` ranks; `size` and `count`
/// are 1 at least. The tables of rows are made once for all pages.
pub fn pages<R: Threads + Sync, I: Images, G: Gate + Sync>(
    rt: &R,
    alloc: Global,
    images: &mut I,
    plan: &Plan,
    from: u64,
    size: u64,
    span: u64,
    count: u64,
    gate: &G,
) -> Result<PageList, PageFault>
    requires plan { IsPlan plan.now }
    requires common { plan.now.each ≡ false }
    requires lengths { AgreeWith plan.now (I.seen images.old).attached }
    requires size { 1 ≤ size }
    requires count { 1 ≤ count }
    ensures pages { IfOk result (ArePagesFrom (told_all (I.seen images.old).attached) plan.now size span count from) }
    ensures many { 2 ^ 64 ≤ wide_total plan.now → IsErrOf result Many }
    ensures cursor { wide_total plan.now < 2 ^ 64 → wide_total plan.now < from → IsErrOf result (Cursor (record { from = from; total = wide_total plan.now })) }
    ensures quiet { IfOk result (λ made. (I.seen images.new).faults ≡ (I.seen images.old).faults) }
    ensures ends { IfErr result (EndsPage plan.now from (I.seen images.old) (I.seen images.new)) }
    ensures reads { ReadsPages (told_all (I.seen images.old).attached) plan.now size span (is_err result) count from (I.seen images.old) (I.seen images.new) }
{
    let mut kept = KeptTables::new(alloc);
    let mut made = PageList::new(alloc);
    let mut at = from;
    let paging = Paging {
        rt,
        alloc,
        plan,
        size,
        gate,
    };
    for _ in 0..count {
        let found = next_page(&paging, images, &mut kept, at, span)?;
        let (next, total) = (found.next, found.total);
        made.push(found).map_err(|_| PageFault::Memory)?;
        if next == total {
            return Ok(made);
        }
        at = next;
    }
    Ok(made)
}
