//! The parity test of many parameter sets in one pass over the images.
ghost use Rattle.std.specs.Prelude.{ℕ, ◌≡◌, ◌+◌, ◌*◌, ◌^◌, ◌<◌, ◌≤◌, length, map, true, All, IfErr, IfOk, IfSome, OnOk};
ghost use Rattle.outside.specs.Attached.{told_all};
ghost use Rattle.outside.specs.Seen.{OnlyReads};
ghost use Rattle.member_regions.specs.Regions.{IsRoomFor};
ghost use Rattle.parity_scan.specs.Scan.{EndsScan, is_unbreakable, IsScannable};
ghost use Rattle.parity_scan.specs.Tallies.{AllTallies, BeginsAs, has_passed, KeepSettled, NoneOpen, unbroken_tally};
ghost use Rattle.parity_scan.specs.Verdicts.{offsets_of, verdicts_of};
ghost use Rattle.parity_scan.specs.Windows.{scan_reads};

use crate::one_set::{ScanFault, nothing_can_break};
use crate::samples::test_samples;
use crate::scan_parts::{Scanned, Threading};
use crate::sweeping::sweep;
use crate::tally::Tally;
use crate::verdict_list::Verdicts;
use gates::Gate;
use member_regions::{BLOCK, Regions};
use outside::{Images, Memory};
use raid_params::Geometry;
use search_scope::Scope;
use std::alloc::Global;
use std::thread::Threads;

/// The most parameter sets of a scan.
pub const MOST_SETS: usize = 4096;

/// For each of the sets whether at most the scope's `badrows` of its tested sector rows are unsound: those below
/// its area, whose whole rows end before the scope's `end`, and below the scope's `window`.
///
/// Some rows of each set are tested first, as samples, and most sets that are wrong are settled by them. Then all
/// sets that are left are tested in one pass over the images, in the order of image sectors. A set of which more
/// rows are unsound than may be is tested no further, and an image is not read where no set that is left needs it.
/// Where nothing can break a row of any of the sets, nothing is read. In the pass pieces of the sets may run side by
/// side: each passes the gate once, before its first rows. Memory is taken before the first reading.
pub fn scan<R: Threads + Sync, I: Images, G: Gate + Sync>(
    rt: &R,
    alloc: Global,
    images: &mut I,
    scope: &Scope,
    sets: &[Geometry],
    gate: &G,
) -> Result<Verdicts, ScanFault>
    requires some { 1 ≤ length sets.now }
    requires most { length sets.now ≤ 4096 }
    requires sets { All (λ geo. IsScannable geo scope.now.end (I.seen images.old).attached) sets.now }
    requires images { length (I.seen images.old).attached ≡ length scope.now.lengths.items }
    ensures verdicts { IfOk result (λ verdicts. length verdicts ≡ length sets.now) }
    ensures told { IfOk result (λ verdicts. IfSome (told_all (I.seen images.old).attached)
        (λ bytes. verdicts ≡ verdicts_of bytes scope.now sets.now)) }
    ensures reads { OnlyReads (I.seen images.old) (I.seen images.new)
        (scan_reads (length (I.seen images.old).attached) scope.now.end scope.now.limits.window (offsets_of sets.now)) }
    ensures unread { All (λ geo. is_unbreakable geo ≡ true) sets.now → I.seen images.new ≡ I.seen images.old }
    ensures quiet { OnOk result ((I.seen images.new).faults ≡ (I.seen images.old).faults) }
    ensures ends { IfErr result (EndsScan (I.seen images.old) (I.seen images.new)) }
{
    let mut verdicts = Verdicts::against(alloc, sets.len()).map_err(|_| ScanFault::Memory)?;
    let mut tallies = first_tallies(alloc, scope, sets).map_err(|_| ScanFault::Memory)?;
    scan_tallied(rt, alloc, images, scope, sets, &mut tallies, gate)?;
    tell_verdicts(&tallies, &mut verdicts.passed);
    Ok(verdicts)
}

/// The tallies with which a scan of some sets begins.
fn first_tallies(alloc: Global, scope: &Scope, sets: &[Geometry]) -> Result<Vec<Tally>, Memory>
    ensures { IfOk result (λ tallies. tallies.items ≡ map (unbroken_tally scope.now) sets.now) }
{
    let mut tallies = Vec::new(alloc);
    for geo in sets {
        tallies.push(first_tally(scope, geo)).map_err(|_| Memory)?;
    }
    Ok(tallies)
}

/// The tally with which a scan of a set begins: it passes where nothing can break one of its rows, and else all of them have
/// to be tested.
fn first_tally(scope: &Scope, geo: &Geometry) -> Tally
    ensures { result ≡ unbroken_tally scope.now geo.now }
{
    if nothing_can_break(geo) {
        return Tally::Passes;
    }
    Tally::Left(scope.limits.badrows)
}

/// Brings the tallies of some parameter sets to their end: after it a set has passed where at most the scope's `badrows` of its
/// tested sector rows are unsound.
///
/// It is [`scan`] over sets of which some are known to pass: no row of these is tested, and where all are known, no sector
/// is read. Each piece of the sets passes the gate all the same.
pub fn scan_tallied<R: Threads + Sync, I: Images, G: Gate + Sync>(
    rt: &R,
    alloc: Global,
    images: &mut I,
    scope: &Scope,
    sets: &[Geometry],
    tallies: &mut [Tally],
    gate: &G,
) -> Result<(), ScanFault>
    requires some { 1 ≤ length sets.now }
    requires most { length sets.now ≤ 4096 }
    requires sets { All (λ geo. IsScannable geo scope.now.end (I.seen images.old).attached) sets.now }
    requires images { length (I.seen images.old).attached ≡ length scope.now.lengths.items }
    requires long { length tallies.old ≡ length sets.now }
    requires begin { AllTallies (BeginsAs (told_all (I.seen images.old).attached) scope.now) sets.now tallies.old }
    ensures long { length tallies.new ≡ length sets.now }
    ensures settled { KeepSettled tallies.old tallies.new }
    ensures told { OnOk result (IfSome (told_all (I.seen images.old).attached)
        (λ bytes. map has_passed tallies.new ≡ verdicts_of bytes scope.now sets.now)) }
    ensures reads { OnlyReads (I.seen images.old) (I.seen images.new)
        (scan_reads (length (I.seen images.old).attached) scope.now.end scope.now.limits.window (offsets_of sets.now)) }
    ensures unread { NoneOpen tallies.old → I.seen images.new ≡ I.seen images.old }
    ensures quiet { OnOk result ((I.seen images.new).faults ≡ (I.seen images.old).faults) }
    ensures ends { IfErr result (EndsScan (I.seen images.old) (I.seen images.new)) }
{
    let mut regions = image_regions(alloc, scope).map_err(|_| ScanFault::Memory)?;
    let scanned = Scanned { scope, sets };
    let threads = Threading { rt, gate };
    test_samples(&scanned, images, &mut regions, tallies).map_err(|_| ScanFault::ReadFault)?;
    sweep(&threads, &scanned, images, &mut regions, tallies).map_err(|_| ScanFault::ReadFault)?;
    Ok(())
}

/// A region of a block for each image of a scope.
fn image_regions(alloc: Global, scope: &Scope) -> Result<Regions, Memory>
    ensures { IfOk result (λ regions. IsRoomFor (length scope.now.lengths.items) BLOCK regions) }
{
    Regions::new(alloc, scope.lengths.len(), BLOCK)
}

/// Writes for each set whether it passes.
fn tell_verdicts(tallies: &[Tally], passed: &mut [bool])
    requires { length passed.old ≡ length tallies.now }
    ensures { passed.new ≡ map has_passed tallies.now }
{
    for i in 0..tallies.len() {
        passed[i] = tallies[i].has_passed();
    }
}
