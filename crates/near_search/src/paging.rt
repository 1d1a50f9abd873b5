//! Pages of mirrors.
ghost use Rattle.std.specs.Prelude.{◌≡◌, ◌*◌, ◌<◌, ◌≤◌, ◌^◌, All, IfErr, IfOk, IfSome, IsErrOf, length};
ghost use Rattle.outside.specs.Attached.{told_all};
ghost use Rattle.outside.specs.Seen.{OnlyReads};
ghost use Rattle.raid_params.specs.declared.limits.TheConstants.{MOST};
ghost use Rattle.search_terms.specs.Page.{stop_of};
ghost use Rattle.near_search.specs.Asks.{HasImages, IsNearAsk};
ghost use Rattle.near_search.specs.Pages.{EndsNear, IsNearPage, tested_to};
ghost use Rattle.near_search.specs.Product.{near_total};
ghost use Rattle.near_search.specs.Walk.{HoldsNear, near_cost};
ghost use Rattle.near_search.specs.declared.parts.NearFault.TheVariants.{Cursor, Many};

use crate::ask::NearAsk;
use crate::parts::{NearFault, NearPage};
use crate::walk::NearWalk;
use near_tables::TableFault;
use outside::Images;
use page_loop::{NoPage, next_page};
use raid_params::MOST;
use std::alloc::Global;

/// How many images are attached, of at most `MOST`.
fn count_images<I: Images>(images: &I) -> u8
    requires { length (I.seen images.now).attached ≤ MOST }
    ensures { result ≡ length (I.seen images.now).attached }
{
    for image in 0..MOST as u8 {
        if images.length(u32::from(image)).is_none() {
            return image;
        }
    }
    MOST as u8
}

/// The page of mirrors from a rank on: the first `size` of the parameter sets that pass and whose ranks are below `from + span`, and the
/// rank from which the next page goes on. A set passes where it has a chunk, each chunk has a copy, and at most `badrows` of the
/// tested sectors are torn, over each two of their copies. `size` is 1 at least.
///
/// For each head with a chunk of which a rank is looked at, the tested sectors of each image are read once. Where the page fails,
/// no more is read than for the page up to the end of its range.
pub fn near_page<I: Images>(
    alloc: Global,
    images: &mut I,
    ask: &NearAsk,
    from: u64,
    size: u64,
    span: u64,
) -> Result<NearPage, NearFault>
    requires ask { IsNearAsk ask.now }
    requires images { HasImages ask.now (I.seen images.old).attached }
    requires size { 1 ≤ size }
    ensures page { IfOk result (λ page. IfSome (told_all (I.seen images.old).attached)
        (λ bytes. IsNearPage bytes (length (I.seen images.old).attached) ask.now from size span page)) }
    ensures sets { IfOk result (λ page. All (HoldsNear (length (I.seen images.old).attached) ask.now) page.lines) }
    ensures total { IfOk result (λ page. page.total ≡ near_total (length (I.seen images.old).attached) ask.now) }
    ensures forward { IfOk result (λ page. from ≤ page.next) }
    ensures within { IfOk result (λ page. page.next ≤ stop_of (near_total (length (I.seen images.old).attached) ask.now) from span) }
    ensures many { 2 ^ 64 ≤ near_total (length (I.seen images.old).attached) ask.now → IsErrOf result Many }
    ensures cursor { near_total (length (I.seen images.old).attached) ask.now < 2 ^ 64 → near_total (length (I.seen images.old).attached) ask.now < from →
        IsErrOf result (Cursor from (near_total (length (I.seen images.old).attached) ask.now)) }
    ensures quiet { IfOk result (λ page. (I.seen images.new).faults ≡ (I.seen images.old).faults) }
    ensures ends { IfErr result (EndsNear (length (I.seen images.old).attached) ask.now from (I.seen images.old) (I.seen images.new)) }
    ensures reads { OnlyReads (I.seen images.old) (I.seen images.new) (length (I.seen images.old).attached
        * near_cost (length (I.seen images.old).attached) ask.now from (tested_to (stop_of (near_total (length (I.seen images.old).attached) ask.now) from span) result)) }
{
    let many = count_images(images);
    let total = ask.total(many).ok_or(NearFault::Many)?;
    let mut walk = NearWalk {
        alloc,
        ask,
        many,
        total,
        size,
        place: 0,
        first: 0,
        tested: 0,
        at: 0,
    };
    match next_page(&mut walk, images, from, span) {
        Ok(made) => Ok(NearPage {
            lines: made.page,
            next: made.next,
            total: made.total,
        }),
        Err(NoPage::Past(total)) => Err(NearFault::Cursor { from, total }),
        Err(NoPage::Walk(TableFault::ReadFault)) => Err(NearFault::ReadFault),
        Err(NoPage::Walk(TableFault::Memory)) => Err(NearFault::Memory),
    }
}
