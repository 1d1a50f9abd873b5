//! The parity test of the sets of a page that wait.
ghost use Rattle.std.specs.Prelude.{◌≡◌, ◌+◌, ◌-◌, ◌<◌, ◌≤◌, ◌^◌, ◌⊎◌, All, IfErr, IfOk, IfSome, None, OnOk, length, map, true};
ghost use Rattle.std.specs.Option.{is_some};
ghost use Rattle.outside.specs.Attached.{told_all};
ghost use Rattle.outside.specs.Seen.{OnlyReads};
ghost use Rattle.raid_params.specs.declared.limits.TheConstants.{MOST};
ghost use Rattle.parity_scan.specs.Tallies.{has_passed as has_passed_tally};
ghost use Rattle.parity_scan.specs.Verdicts.{verdicts_of};
ghost use Rattle.head_walk.specs.Faults.{EndsTest};
ghost use Rattle.head_walk.specs.Counts.{most_scanned};
ghost use Rattle.head_walk.specs.Walk.{AddsPassed, AreWaiting, CanPage, ended_at, Finishes, Gathers, HavePassed, IsCandidate, IsLineOf, IsPast, Ranked, ranked_sets, ReadsRange, StandsAt, Wait};

use crate::gathering::Gathered;
use crate::parts::{Line, Lines, Paging, WalkFault};
use crate::waiting::Waiting;
use arrayvec::ArrayVec;
use outside::{Images, Memory};
use raid_params::{Geometry, Slots, Wide};
use row_scan::{Gate, Tally, scan_tallied};
use std::thread::Threads;

/// Tests the sets that wait, and appends those that pass to the lines. It gives the rank after the last line where the
/// page is full; otherwise each set before `at` is tested then, and none waits. Nothing is read where all that wait are known
/// to pass.
pub(crate) fn scan_waiting<R: Threads + Sync, I: Images, G: Gate + Sync>(
    paging: &Paging<R, G>,
    images: &mut I,
    at: u64,
    page: &mut Gathered,
) -> Result<Option<u64>, WalkFault>
    requires can { CanPage paging.now.plan.now paging.now.size (I.seen images.old).attached }
    requires size { length page.old.lines < paging.now.size }
    requires some { 1 ≤ length page.old.waiting.sets }
    requires most { length page.old.waiting.sets ≤ 4096 }
    requires are { AreWaiting paging.now.plan.now page.old.waiting }
    requires wait { Wait (told_all (I.seen images.old).attached) paging.now.plan.now page.old.tested at (ranked_sets page.old.waiting.ranks page.old.waiting.sets) }
    ensures gathers { IfOk result (Gathers (told_all (I.seen images.old).attached) paging.now.plan.now paging.now.size at page.old page.new) }
    ensures tested { IfOk result (λ full. full ≡ None → page.new.tested ≡ at) }
    ensures fills { IfOk result (λ full. paging.now.size ≤ length page.old.lines + page.old.waiting.known → is_some full ≡ true) }
    ensures past { IfOk result (λ full. IfSome full (λ next. length page.old.lines + page.old.waiting.known < paging.now.size → IsPast page.old.waiting.ranks page.old.waiting.known next)) }
    ensures quiet { IfOk result (λ full. (I.seen images.new).faults ≡ (I.seen images.old).faults) }
    ensures ends { IfErr result (EndsTest (I.seen images.old) (I.seen images.new)) }
    ensures reads { OnlyReads (I.seen images.old) (I.seen images.new) (most_scanned paging.now.plan.now) }
    ensures unread { page.old.waiting.known ≡ length page.old.waiting.sets → I.seen images.new ≡ I.seen images.old }
{
    scan_tallied(
        paging.rt,
        paging.alloc,
        images,
        paging.plan,
        page.waiting.sets.as_slice(),
        &mut page.waiting.tallies,
        paging.gate,
    )?;
    let full = add_passed(&mut page.lines, &page.waiting, paging.size)?;
    if full.is_none() {
        page.tested = at;
        page.waiting = Waiting::none(paging.alloc);
    }
    Ok(full)
}

/// Tests the sets that wait at the end of a range, and gives the rank from which the next page goes on.
pub fn finish<R: Threads + Sync, I: Images, G: Gate + Sync>(
    paging: &Paging<R, G>,
    images: &mut I,
    stop: u64,
    page: &mut Gathered,
) -> Result<u64, WalkFault>
    requires can { CanPage paging.now.plan.now paging.now.size (I.seen images.old).attached }
    requires stands { StandsAt (told_all (I.seen images.old).attached) paging.now.plan.now paging.now.size stop page.old }
    ensures finishes { IfOk result (Finishes (told_all (I.seen images.old).attached) paging.now.plan.now paging.now.size stop page.old page.new) }
    ensures quiet { IfOk result (λ next. (I.seen images.new).faults ≡ (I.seen images.old).faults) }
    ensures ends { IfErr result (EndsTest (I.seen images.old) (I.seen images.new)) }
    ensures reads { ReadsRange (told_all (I.seen images.old).attached) paging.now.plan.now page.old.tested (ended_at stop result) 4095 0 0 (I.seen images.old) (I.seen images.new) }
{
    if page.waiting.sets.as_slice().is_empty() {
        return Ok(stop);
    }
    match scan_waiting(paging, images, stop, page)? {
        Some(next) => Ok(next),
        None => Ok(stop),
    }
}

/// The line of a set of this rank.
fn line_of(rank: u64, geo: &Geometry) -> Line
    requires { length geo.now.slots.items ≤ MOST }
    ensures { IsLineOf (record { rank = rank; geo = geo.now }) result }
{
    let mut slots = Slots::new();
    slots.try_extend_from_slice(&geo.slots).unwrap();
    Line {
        rank,
        geo: Wide {
            geo: Geometry {
                head: geo.head,
                slots,
            },
            bases: ArrayVec::new(),
        },
    }
}

/// Appends those of the sets that waited that have passed, as long as the lines are fewer than `size`; gives the rank after the
/// last of them where there are `size` lines then.
fn add_passed(lines: &mut Lines, waiting: &Waiting, size: u64) -> Result<Option<u64>, Memory>
    requires ranks { length waiting.now.ranks ≡ length waiting.now.sets }
    requires tallies { length waiting.now.tallies.items ≡ length waiting.now.sets }
    requires size { length lines.old < size }
    requires last { All (λ rank. rank + 1 < 2 ^ 64) waiting.now.ranks }
    requires slots { All (λ geo. length geo.slots.items ≤ MOST) waiting.now.sets }
    ensures { IfOk result (AddsPassed size waiting.now lines.old lines.new) }
{
    let (ranks, sets) = (waiting.ranks.as_slice(), waiting.sets.as_slice());
    let tallies: &[Tally] = &waiting.tallies;
    for k in 0..sets.len() {
        if tallies[k].has_passed() {
            let rank = ranks[k];
            lines.push(line_of(rank, &sets[k]))?;
            if lines.as_slice().len() as u64 == size {
                return Ok(Some(rank + 1));
            }
        }
    }
    Ok(None)
}
