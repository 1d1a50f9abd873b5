//! Pages, each from a rank on.
ghost use Rattle.std.specs.Prelude.{◌≡◌, ◌<◌, ◌≤◌, true, IfErr, IfOk, IfSome, IsErrOf};
ghost use Rattle.search_terms.specs.Page.{stop_of, IsPage};
ghost use Rattle.page_loop.specs.Parts.{EndsWalk, Whole};
ghost use Rattle.page_loop.specs.declared.paging.NoPage.TheVariants.{Past};

use crate::page_walk::{PageWalk, Part};
use outside::Images;

/// A page that was made.
#[derive(Drop)]
pub struct MadePage<P: Drop> {
    /// The page.
    pub page: P,
    /// The rank from which the next page goes on.
    pub next: u64,
    /// How many ranks there are.
    pub total: u64,
}

/// Why there is no page.
#[derive(Drop)]
pub enum NoPage<F: Drop> {
    /// The first rank asked for is past the total, which is this.
    Past(u64),
    /// A part was not gathered.
    Walk(F),
}

/// The page from a rank on: the first of what passes at the ranks below `from + span`, as many lines as a page has, and the rank
/// from which the next page goes on.
pub fn next_page<W: PageWalk, I: Images>(
    walk: &mut W,
    images: &mut I,
    from: u64,
    span: u64,
) -> Result<MadePage<W::Page>, NoPage<W::Fault>>
    requires can { W.can_page walk.old (I.seen images.old) }
    ensures page { IfOk result (λ made. IfSome (W.passes walk.old (I.seen images.old))
        (λ passes. IsPage passes (W.total_of walk.old) from (W.size_of walk.old) span (W.ranks_of walk.new made.page) made.next)) }
    ensures holds { IfOk result (λ made. W.holds walk.new made.page) }
    ensures total { IfOk result (λ made. made.total ≡ W.total_of walk.old) }
    ensures forward { IfOk result (λ made. from ≤ made.next) }
    ensures within { IfOk result (λ made. made.next ≤ stop_of (W.total_of walk.old) from span) }
    ensures reads { IfOk result (λ made. W.reads walk.old (I.seen images.old) from walk.new (I.seen images.new) made.next true) }
    ensures can { IfOk result (λ made. W.can_page walk.new (I.seen images.new)) }
    ensures past { W.total_of walk.old < from → IsErrOf result (Past (W.total_of walk.old)) }
    ensures ends { IfErr result (EndsWalk (W.total_of walk.old) from ((walk.new ≡ walk.old) × (I.seen images.new ≡ I.seen images.old))
        (W.fails walk.old (I.seen images.old) from walk.new (I.seen images.new) (stop_of (W.total_of walk.old) from span))) }
{
    let total = walk.total();
    if from > total {
        return Err(NoPage::Past(total));
    }
    let stop = total.min(from.saturating_add(span));
    let mut page = walk.begin(images, from);
    match make_whole(walk, images, from, stop, &mut page) {
        Ok(next) => Ok(MadePage { page, next, total }),
        Err(fault) => Err(NoPage::Walk(fault)),
    }
}

/// Makes a page whole that has come to a rank, part after part up to `stop`; gives the rank at which the next one begins.
fn make_whole<W: PageWalk, I: Images>(
    walk: &mut W,
    images: &mut I,
    from: u64,
    stop: u64,
    page: &mut W::Page,
) -> Result<u64, W::Fault>
    requires range { from ≤ stop }
    requires within { stop ≤ W.total_of walk.old }
    requires stands { W.stands walk.old (I.seen images.old) page.old from }
    requires holds { W.holds walk.old page.old }
    ensures whole { IfOk result (Whole (W.passes walk.old (I.seen images.old)) (W.size_of walk.old) (W.tested walk.old page.old) (W.ranks_of walk.old page.old) (W.ranks_of walk.new page.new) stop) }
    ensures reads { IfOk result (λ next. W.reads walk.old (I.seen images.old) (W.tested walk.old page.old) walk.new (I.seen images.new) next true) }
    ensures holds { IfOk result (λ next. W.holds walk.new page.new) }
    ensures can { IfOk result (λ next. W.can_page walk.new (I.seen images.new)) }
    ensures fails { IfErr result (W.fails walk.old (I.seen images.old) (W.tested walk.old page.old) walk.new (I.seen images.new) stop) }
{
    let mut at = from;
    while at < stop {
        match walk.gather_part(images, at, stop, page)? {
            Part::UpTo(end) => at = end,
            Part::Full(next) => return Ok(next),
        }
    }
    walk.finish(images, stop, page)
}
