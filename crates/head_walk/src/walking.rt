//! A walk over the sets of a head.
ghost use Rattle.std.specs.Prelude.{◌≡◌, ◌<◌, ℕ, List, Option, All, IfErr, IfOk, true};
ghost use Rattle.outside.specs.Attached.{told_all};
ghost use Rattle.search_plan.specs.Plans.{IsPlan};
ghost use Rattle.head_walk.specs.Faults.{EndsTest};
ghost use Rattle.head_walk.specs.Walk.{AdmitsHopeful, CanPage, Gathers, has_entry, is_admitted, IsHeadOf, IsKept, IsPart, left_after, left_reads, needs_entry, NonePass, ReadsRange, spared_by, StandsAt, tested_by};

use crate::gathering::{Gathered, gather_admitted};
use crate::hopeful::Hopeful;
use crate::parts::{Paging, WalkFault};
use crate::row_tables::{KeptTables, entry_at, is_kept, keep_needed, rows_for, table_for};
use address_map::rows;
use candidate_enum::Survivors;
use outside::{Images, Memory};
use prune_filters::{needs_samples, needs_table};
use row_scan::Gate;
use search_plan::Plan;
use set_product::HeadSets;
use std::alloc::Global;
use std::thread::Threads;

/// Gathers the sets of a head of ranks from `from` up to `stop`, as long as the page is not full; gives the rank after its last
/// line where it is. A head without a whole row has none that passes.
pub fn gather_head<R: Threads + Sync, I: Images, G: Gate + Sync>(
    paging: &Paging<R, G>,
    images: &mut I,
    kept: &mut KeptTables,
    sets: &HeadSets,
    from: u64,
    stop: u64,
    page: &mut Gathered,
) -> Result<Option<u64>, WalkFault>
    requires can { CanPage paging.now.plan.now paging.now.size (I.seen images.old).attached }
    requires head { IsHeadOf paging.now.plan.now sets.now }
    requires part { IsPart sets.now from stop }
    requires stands { StandsAt (told_all (I.seen images.old).attached) paging.now.plan.now paging.now.size from page.old }
    requires kept { All (IsKept (told_all (I.seen images.old).attached) paging.now.plan.now) kept.old }
    ensures gathers { IfOk result (Gathers (told_all (I.seen images.old).attached) paging.now.plan.now paging.now.size stop page.old page.new) }
    ensures quiet { IfOk result (λ done. (I.seen images.new).faults ≡ (I.seen images.old).faults) }
    ensures ends { IfErr result (EndsTest (I.seen images.old) (I.seen images.new)) }
    ensures reads { ReadsRange (told_all (I.seen images.old).attached) paging.now.plan.now page.old.tested (tested_by stop page.new result) (spared_by result)
        (left_reads paging.now.plan.now kept.old) (left_after paging.now.plan.now kept.new result) (I.seen images.old) (I.seen images.new) }
    ensures kept { All (IsKept (told_all (I.seen images.old).attached) paging.now.plan.now) kept.new }
{
    if from == stop || rows(&sets.head, paging.plan.end) == 0 {
        return Ok(None);
    }
    if is_ruled_out(paging.alloc, paging.plan, kept, sets, from, stop)? {
        return Ok(None);
    }
    keep_needed(paging.alloc, images, paging.plan, sets, kept)?;
    let family = family_of(paging.alloc, paging.plan, sets, kept)?;
    gather_admitted(paging, images, sets, &family, from, stop, page)
}

/// Whether rows would be read for a head although the marks leave none of its slot lists of these ranks. Then no set of
/// them passes.
fn is_ruled_out(
    alloc: Global,
    plan: &Plan,
    kept: &KeptTables,
    sets: &HeadSets,
    from: u64,
    stop: u64,
) -> Result<bool, Memory>
    requires plan { IsPlan plan.now }
    requires head { IsHeadOf plan.now sets.now }
    requires part { IsPart sets.now from stop }
    ensures { IfOk result (λ out. out ≡ true → (told : Option (List (List ℕ))) → NonePass told plan.now from stop) }
{
    if plan.groups.as_slice().is_empty() || is_kept(kept, sets.head.offset) {
        return Ok(false);
    }
    if needs_table(plan, &sets.head) || !needs_samples(plan, &sets.head) {
        return Ok(false);
    }
    let family = Hopeful::new(alloc, plan, sets, None, None)?;
    let mut walk = Survivors::start(&family, from - sets.first, stop - sets.first);
    Ok(walk.next().is_none())
}

/// The slot lists of a head that may pass, by what is kept of its offset.
fn family_of<'a>(
    alloc: Global,
    plan: &'a Plan,
    sets: &HeadSets,
    kept: &'a KeptTables,
) -> Result<Hopeful<'a>, Memory>
    requires plan { IsPlan plan.now }
    requires head { IsHeadOf plan.now sets.now }
    requires kept { (told : Option (List (List ℕ))) × All (IsKept told plan.now) kept.now }
    requires has { needs_entry plan.now sets.now.head ≡ true → has_entry sets.now.head.offset kept.now ≡ true }
    ensures space { IfOk result (λ family. family.asked.space ≡ sets.now.space) }
    ensures admits { IfOk result (λ family. (told : Option (List (List ℕ))) → All (IsKept told plan.now) kept.now →
        AdmitsHopeful told plan.now sets.now.head (is_admitted family)) }
{
    if !needs_table(plan, &sets.head) && !needs_samples(plan, &sets.head) {
        return Hopeful::new(alloc, plan, sets, None, None);
    }
    let entry = entry_at(kept, sets.head.offset);
    let table = table_for(entry, plan, sets);
    let rows = rows_for(entry, plan, &sets.head);
    Hopeful::new(alloc, plan, sets, table, rows)
}
