//! The sets of one head that pass.
ghost use Rattle.std.specs.Prelude.{ℕ, ◌≡◌, ◌*◌, ◌<◌, ◌≤◌, ◌^◌, All, IfErr, IfOk, Some, length, map};
ghost use Rattle.outside.specs.Attached.{told_all};
ghost use Rattle.outside.specs.Seen.{OnlyReads};
ghost use Rattle.raid_params.specs.declared.limits.TheConstants.{MOST};
ghost use Rattle.slot_math.specs.Space.{lists_of};
ghost use Rattle.near_tables.specs.Reading.{read_of};
ghost use Rattle.near_search.specs.declared.ask.NearAsk.{NearAsk as NearAskOf};
ghost use Rattle.near_search.specs.Asks.{HasImages, IsNearAsk};
ghost use Rattle.near_search.specs.Product.{near_numbered, passes_at};
ghost use Rattle.near_search.specs.Hopeful.{is_near_admitted};
ghost use Rattle.near_search.specs.Walk.{EndsWalk, Gathers, HoldsNear, IsHeadSets, IsPart, list_passes, passes_told};

use crate::ask::NearAsk;
use crate::heads::NearSets;
use crate::hopeful::NearHopeful;
use crate::parts::{NearLine, NearLines};
use candidate_enum::Survivors;
use near_mirror::NearSet;
use near_tables::TableFault;
use outside::{Images, Memory};
use std::alloc::Global;

/// Gathers the sets of a head of ranks from `from` up to `to` whose slot lists the family admits, as long as the page has fewer than
/// `size` lines; gives the rank after its last line where it has as many.
fn gather_lists(
    family: &NearHopeful,
    sets: &NearSets,
    from: u64,
    to: u64,
    size: u64,
    page: &mut NearLines,
) -> Result<Option<u64>, Memory>
    requires space { family.now.space ≡ sets.now.space }
    requires images { sets.now.space.images ≤ MOST }
    requires members { sets.now.space.members ≤ MOST }
    requires part { IsPart sets.now from to }
    requires count { sets.now.count ≡ length (lists_of sets.now.space) }
    requires high { to < 2 ^ 64 }
    requires few { length page.old < size }
    ensures gathers { IfOk result (Gathers (Some (list_passes (is_near_admitted family.now) sets.now)) size from to (map (λ line. line.rank) page.old) (map (λ line. line.rank) page.new)) }
    ensures holds { (images : ℕ) (ask : NearAskOf) → IsHeadSets images ask sets.now → All (HoldsNear images ask) page.old → IfOk result (λ full. All (HoldsNear images ask) page.new) }
{
    let mut walk = Survivors::start(family, from - sets.first, to - sets.first);
    while let Some(leaf) = walk.next() {
        let rank = sets.first + leaf.rank;
        let set = NearSet {
            head: sets.head,
            slots: leaf.slots,
        };
        page.push(NearLine { rank, set })?;
        if page.as_slice().len() as u64 == size {
            return Ok(Some(rank + 1));
        }
    }
    Ok(None)
}

/// Gathers the sets of a head that pass of ranks from `from` up to `to`, as long as the page has fewer than `size` lines; gives the
/// rank after its last line where it has as many. A head without a chunk has none that passes, and nothing is read for it.
pub(crate) fn gather_head<I: Images>(
    alloc: Global,
    images: &mut I,
    many: u8,
    ask: &NearAsk,
    sets: &NearSets,
    from: u64,
    to: u64,
    size: u64,
    page: &mut NearLines,
) -> Result<Option<u64>, TableFault>
    requires ask { IsNearAsk ask.now }
    requires images { HasImages ask.now (I.seen images.old).attached }
    requires many { many ≡ length (I.seen images.old).attached }
    requires head { IsHeadSets many ask.now sets.now }
    requires part { IsPart sets.now from to }
    requires high { to < 2 ^ 64 }
    requires few { length page.old < size }
    requires some { 1 ≤ sets.now.count }
    ensures gathers { IfOk result (Gathers (passes_told (told_all (I.seen images.old).attached) many ask.now) size from to (map (λ line. line.rank) page.old) (map (λ line. line.rank) page.new)) }
    ensures holds { All (HoldsNear many ask.now) page.old → IfOk result (λ full. All (HoldsNear many ask.now) page.new) }
    ensures reads { OnlyReads (I.seen images.old) (I.seen images.new) (many * read_of sets.now.head ask.now.end ask.now.window) }
    ensures quiet { IfOk result (λ full. (I.seen images.new).faults ≡ (I.seen images.old).faults) }
    ensures ends { IfErr result (EndsWalk (I.seen images.old) (I.seen images.new)) }
{
    if sets.head.volume_chunks(ask.end) == 0 {
        return Ok(None);
    }
    let family = NearHopeful::of_head(alloc, images, many, ask, &sets.head, sets.space)?;
    let full = gather_lists(&family, sets, from, to, size, page).map_err(|_| TableFault::Memory)?;
    Ok(full)
}
