//! A walk over the parts of a plan's product.
ghost use Rattle.std.specs.Prelude.{◌≡◌, ◌<◌, ◌≤◌, ◌^◌, true, [], All, IfErr, IfOk, IfSome, Some};
ghost use Rattle.outside.specs.Attached.{told_all};
ghost use Rattle.outside.specs.Seen.{OnlyReads};
ghost use Rattle.page_loop.specs.Parts.{Whole};
ghost use Rattle.search_plan.specs.Plans.{AgreeWith, IsPlan};
ghost use Rattle.wide_product.specs.Sets.{wide_passes_at, wide_total};
ghost use Rattle.common_pages.specs.Pages.{HoldsBased, ranks_of};
ghost use Rattle.page_engine.specs.Parts.{EndsPart, reached};
ghost use Rattle.page_engine.specs.Reads.{based_reads};

use crate::part_page::gather_part;
use common_pages::PageFault;
use head_walk::{Lines, Paging};
use outside::Images;
use row_scan::Gate;
use std::thread::Threads;
use wide_product::part_at;

/// Gathers the sets that pass of the ranks from `from` up to `stop`, part after part, until the page is full; gives the rank at
/// which the next page begins, or `stop`.
pub(crate) fn gather_parts<R: Threads + Sync, I: Images, G: Gate + Sync>(
    paging: &Paging<R, G>,
    images: &mut I,
    from: u64,
    stop: u64,
    lines: &mut Lines,
) -> Result<u64, PageFault>
    requires plan { IsPlan paging.now.plan.now }
    requires own { paging.now.plan.now.each ≡ true }
    requires few { wide_total paging.now.plan.now < 2 ^ 64 }
    requires lengths { AgreeWith paging.now.plan.now (I.seen images.old).attached }
    requires range { from ≤ stop }
    requires stop { stop ≤ wide_total paging.now.plan.now }
    requires size { 1 ≤ paging.now.size }
    requires none { lines.old ≡ [] }
    ensures whole { IfOk result (λ next. IfSome (told_all (I.seen images.old).attached)
        (λ bytes. Whole (Some (wide_passes_at bytes paging.now.plan.now)) paging.now.size from [] (ranks_of lines.new) stop next)) }
    ensures sets { IfOk result (λ next. All (HoldsBased paging.now.plan.now) lines.new) }
    ensures forward { IfOk result (λ next. from ≤ next) }
    ensures within { IfOk result (λ next. next ≤ stop) }
    ensures quiet { IfOk result (λ next. (I.seen images.new).faults ≡ (I.seen images.old).faults) }
    ensures ends { IfErr result (EndsPart (I.seen images.old) (I.seen images.new)) }
    ensures reads { OnlyReads (I.seen images.old) (I.seen images.new)
        (based_reads (told_all (I.seen images.old).attached) paging.now.plan.now from (reached stop result)) }
{
    let mut at = from;
    while at < stop {
        let part = part_at(paging.plan, at);
        let end = stop.min(part.first + part.count);
        let next = gather_part(paging, images, &part, at, end, lines)?;
        if next < end || lines.as_slice().len() as u64 == paging.size {
            return Ok(next);
        }
        at = end;
    }
    Ok(stop)
}
