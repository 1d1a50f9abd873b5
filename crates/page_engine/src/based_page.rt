//! Pages of plans whose images have an offset each.
ghost use Rattle.std.specs.Prelude.{◌≡◌, true};
ghost use Rattle.page_engine.specs.Pages.{CanPageWide, GivesPage};

use crate::part_walk::gather_parts;
use common_pages::{CursorFault, ListPage, PageFault};
use head_walk::{Lines, Paging};
use outside::Images;
use row_scan::Gate;
use std::thread::Threads;
use wide_product::product_total;

/// The page of a plan from a rank on, where each image has an offset of its own.
pub(crate) fn based_page<R: Threads + Sync, I: Images, G: Gate + Sync>(
    paging: &Paging<R, G>,
    images: &mut I,
    from: u64,
    span: u64,
) -> Result<ListPage, PageFault>
    requires can { CanPageWide paging.now.plan.now paging.now.size (I.seen images.old).attached }
    requires own { paging.now.plan.now.each ≡ true }
    ensures { GivesPage paging.now.plan.now from paging.now.size span (I.seen images.old) (I.seen images.new) result }
{
    let total = product_total(paging.plan).ok_or(PageFault::Many)?;
    if from > total {
        return Err(PageFault::Cursor(CursorFault { from, total }));
    }
    let stop = total.min(from.saturating_add(span));
    let mut lines = Lines::new(paging.alloc);
    let next = gather_parts(paging, images, from, stop, &mut lines)?;
    Ok(ListPage { lines, next, total })
}
