//! A walk over the ranks of a plan, head by head.
ghost use Rattle.std.specs.Prelude.{◌≡◌, ◌<◌, ◌≤◌, All, IfErr, IfOk};
ghost use Rattle.outside.specs.Attached.{told_all};
ghost use Rattle.plan_sets.specs.Sets.{total_of};
ghost use Rattle.head_walk.specs.Faults.{EndsTest};
ghost use Rattle.head_walk.specs.Walk.{CanPage, Gathers, IsKept, left_after, left_reads, ReadsRange, spared_by, StandsAt, tested_by};

use head_walk::{Gathered, KeptTables, Paging, WalkFault, gather_head};
use outside::Images;
use row_scan::Gate;
use set_product::Heads;
use std::thread::Threads;

/// Gathers the sets of ranks from `from` up to `stop`, as long as the page is not full; gives the rank after its last line
/// where it is.
pub(crate) fn gather_range<R: Threads + Sync, I: Images, G: Gate + Sync>(
    paging: &Paging<R, G>,
    images: &mut I,
    kept: &mut KeptTables,
    from: u64,
    stop: u64,
    page: &mut Gathered,
) -> Result<Option<u64>, WalkFault>
    requires can { CanPage paging.now.plan.now paging.now.size (I.seen images.old).attached }
    requires range { from ≤ stop }
    requires stop { stop ≤ total_of paging.now.plan.now }
    requires stands { StandsAt (told_all (I.seen images.old).attached) paging.now.plan.now paging.now.size from page.old }
    requires kept { All (IsKept (told_all (I.seen images.old).attached) paging.now.plan.now) kept.old }
    ensures gathers { IfOk result (Gathers (told_all (I.seen images.old).attached) paging.now.plan.now paging.now.size stop page.old page.new) }
    ensures quiet { IfOk result (λ done. (I.seen images.new).faults ≡ (I.seen images.old).faults) }
    ensures ends { IfErr result (EndsTest (I.seen images.old) (I.seen images.new)) }
    ensures reads { ReadsRange (told_all (I.seen images.old).attached) paging.now.plan.now page.old.tested (tested_by stop page.new result) (spared_by result)
        (left_reads paging.now.plan.now kept.old) (left_after paging.now.plan.now kept.new result) (I.seen images.old) (I.seen images.new) }
    ensures kept { All (IsKept (told_all (I.seen images.old).attached) paging.now.plan.now) kept.new }
{
    let mut heads = Heads::of(paging.plan);
    heads.skip_to(from);
    let mut at = from;
    while let Some(sets) = heads.next() {
        if at == stop {
            return Ok(None);
        }
        let end = stop.min(sets.first + sets.count);
        if let Some(next) = gather_head(paging, images, kept, &sets, at, end, page)? {
            return Ok(Some(next));
        }
        at = end;
    }
    Ok(None)
}
