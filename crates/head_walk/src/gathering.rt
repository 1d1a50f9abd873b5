//! The sets of a head that a walk admits, until they are tested.
ghost use Rattle.std.specs.Prelude.{◌≡◌, ◌+◌, ◌<◌, ◌≤◌, IfErr, IfOk, length, nat_le, ◌||◌};
ghost use Rattle.outside.specs.Attached.{told_all};
ghost use Rattle.head_walk.specs.Faults.{EndsTest};
ghost use Rattle.head_walk.specs.Walk.{AdmitsHopeful, CanPage, Gathers, is_admitted, IsCandidate, IsHeadOf, IsPart, ReadsRange, spared_by, StandsAt, tested_by};

use crate::hopeful::Hopeful;
use crate::parts::{Lines, Paging, WalkFault};
use crate::scanning::scan_waiting;
use crate::waiting::Waiting;
use candidate_enum::Survivors;
use outside::Images;
use raid_params::Geometry;
use row_scan::{Gate, MOST_SETS};
use set_product::HeadSets;
use std::thread::Threads;

/// A page in the making.
#[derive(Drop)]
pub struct Gathered {
    /// Its lines: the sets that pass, of the ranks before `tested`.
    pub lines: Lines,
    /// The rank before which each set is tested.
    pub tested: u64,
    /// The sets of the ranks from there on that wait for the parity test.
    pub waiting: Waiting,
}

/// Gathers the sets of a head of ranks from `from` up to `stop`: those whose slot lists the family admits, which leaves
/// out none that passes. Each of them waits; where as many wait as a scan may test, or the page is full with those that are
/// known to pass, they are tested. It gives the rank after the last line where the page is full.
pub(crate) fn gather_admitted<R: Threads + Sync, I: Images, G: Gate + Sync>(
    paging: &Paging<R, G>,
    images: &mut I,
    sets: &HeadSets,
    family: &Hopeful,
    from: u64,
    stop: u64,
    page: &mut Gathered,
) -> Result<Option<u64>, WalkFault>
    requires can { CanPage paging.now.plan.now paging.now.size (I.seen images.old).attached }
    requires head { IsHeadOf paging.now.plan.now sets.now }
    requires space { family.now.asked.space ≡ sets.now.space }
    requires admits { AdmitsHopeful (told_all (I.seen images.old).attached) paging.now.plan.now sets.now.head (is_admitted family.now) }
    requires part { IsPart sets.now from stop }
    requires stands { StandsAt (told_all (I.seen images.old).attached) paging.now.plan.now paging.now.size from page.old }
    ensures gathers { IfOk result (Gathers (told_all (I.seen images.old).attached) paging.now.plan.now paging.now.size stop page.old page.new) }
    ensures quiet { IfOk result (λ full. (I.seen images.new).faults ≡ (I.seen images.old).faults) }
    ensures ends { IfErr result (EndsTest (I.seen images.old) (I.seen images.new)) }
    ensures reads { ReadsRange (told_all (I.seen images.old).attached) paging.now.plan.now page.old.tested (tested_by stop page.new result) (spared_by result) 0 0 (I.seen images.old) (I.seen images.new) }
{
    let mut walk = Survivors::start(family, from - sets.first, stop - sets.first);
    while let Some(leaf) = walk.next() {
        let rank = sets.first + leaf.rank;
        let geo = Geometry {
            head: sets.head,
            slots: leaf.slots,
        };
        page.waiting.push(paging.plan, rank, geo)?;
        if !is_ready(page, paging.size) {
            continue;
        }
        if let Some(next) = scan_waiting(paging, images, rank + 1, page)? {
            return Ok(Some(next));
        }
    }
    Ok(None)
}

/// Whether as many sets wait as a scan may test, or the page has `size` lines with those that are known to pass.
fn is_ready(page: &Gathered, size: u64) -> bool
    requires lines { length page.now.lines < size }
    ensures { result ≡ (nat_le 4096 (length page.now.waiting.sets) || nat_le size (length page.now.lines + page.now.waiting.known)) }
{
    let missing = size - page.lines.as_slice().len() as u64;
    MOST_SETS <= page.waiting.sets.as_slice().len() || missing <= page.waiting.known as u64
}
