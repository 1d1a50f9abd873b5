//! Scans by a plan.
ghost use Rattle.std.specs.Prelude.{◌≡◌, ◌*◌, ◌≤◌, length, map, true, All, IfErr, IfOk, IfSome, OnOk};
ghost use Rattle.outside.specs.Attached.{told_all};
ghost use Rattle.outside.specs.Seen.{OnlyReads};
ghost use Rattle.parity_scan.specs.Scan.{EndsScan, is_unbreakable, IsScannable, read_rows};
ghost use Rattle.parity_scan.specs.Tallies.{AllTallies, BeginsAs, has_passed, KeepSettled, NoneOpen};
ghost use Rattle.parity_scan.specs.Verdicts.{offsets_of, verdicts_of};
ghost use Rattle.parity_scan.specs.Windows.{scan_reads};
ghost use Rattle.raid_terms.specs.Parity.{tested_rows, unsound_rows};
ghost use Rattle.search_plan.specs.Plans.{scope_of};

use outside::Images;
use parity_scan::{Gate, ScanFault, Tally, Verdicts};
use raid_params::Geometry;
use search_plan::Plan;
use std::alloc::Global;
use std::thread::Threads;

/// For each of the sets whether at most the plan's `badrows` of its tested sector rows are unsound: those below
/// its area, whose whole rows end before the plan's `end`, and below the plan's `window`.
///
/// Some rows of each set are tested first, as samples, and most sets that are wrong are settled by them. Then all
/// sets that are left are tested in one pass over the images, in the order of image sectors. A set of which more
/// rows are unsound than may be is tested no further, and an image is not read where no set that is left needs it.
/// Where nothing can break a row of any of the sets, nothing is read. In the pass pieces of the sets may run side by
/// side: each passes the gate once, before its first rows. Memory is taken before the first reading.
pub fn scan<R: Threads + Sync, I: Images, G: Gate + Sync>(
    rt: &R,
    alloc: Global,
    images: &mut I,
    plan: &Plan,
    sets: &[Geometry],
    gate: &G,
) -> Result<Verdicts, ScanFault>
    requires some { 1 ≤ length sets.now }
    requires most { length sets.now ≤ 4096 }
    requires sets { All (λ geo. IsScannable geo plan.now.end (I.seen images.old).attached) sets.now }
    requires images { length (I.seen images.old).attached ≡ length plan.now.lengths.items }
    ensures verdicts { IfOk result (λ verdicts. length verdicts ≡ length sets.now) }
    ensures told { IfOk result (λ verdicts. IfSome (told_all (I.seen images.old).attached)
        (λ bytes. verdicts ≡ verdicts_of bytes (scope_of plan.now) sets.now)) }
    ensures reads { OnlyReads (I.seen images.old) (I.seen images.new)
        (scan_reads (length (I.seen images.old).attached) plan.now.end plan.now.limits.window (offsets_of sets.now)) }
    ensures unread { All (λ geo. is_unbreakable geo ≡ true) sets.now → I.seen images.new ≡ I.seen images.old }
    ensures quiet { OnOk result ((I.seen images.new).faults ≡ (I.seen images.old).faults) }
    ensures ends { IfErr result (EndsScan (I.seen images.old) (I.seen images.new)) }
{
    let scope = plan.scope();
    parity_scan::scan(rt, alloc, images, &scope, sets, gate)
}

/// Brings the tallies of some parameter sets to their end: after it a set has passed where at most the plan's `badrows` of its
/// tested sector rows are unsound.
///
/// It is [`scan`] over sets of which some are known to pass: no row of these is tested, and where all are known, no sector
/// is read. Each piece of the sets passes the gate all the same.
pub fn scan_tallied<R: Threads + Sync, I: Images, G: Gate + Sync>(
    rt: &R,
    alloc: Global,
    images: &mut I,
    plan: &Plan,
    sets: &[Geometry],
    tallies: &mut [Tally],
    gate: &G,
) -> Result<(), ScanFault>
    requires some { 1 ≤ length sets.now }
    requires most { length sets.now ≤ 4096 }
    requires sets { All (λ geo. IsScannable geo plan.now.end (I.seen images.old).attached) sets.now }
    requires images { length (I.seen images.old).attached ≡ length plan.now.lengths.items }
    requires long { length tallies.old ≡ length sets.now }
    requires begin { AllTallies (BeginsAs (told_all (I.seen images.old).attached) (scope_of plan.now)) sets.now tallies.old }
    ensures long { length tallies.new ≡ length sets.now }
    ensures settled { KeepSettled tallies.old tallies.new }
    ensures told { OnOk result (IfSome (told_all (I.seen images.old).attached)
        (λ bytes. map has_passed tallies.new ≡ verdicts_of bytes (scope_of plan.now) sets.now)) }
    ensures reads { OnlyReads (I.seen images.old) (I.seen images.new)
        (scan_reads (length (I.seen images.old).attached) plan.now.end plan.now.limits.window (offsets_of sets.now)) }
    ensures unread { NoneOpen tallies.old → I.seen images.new ≡ I.seen images.old }
    ensures quiet { OnOk result ((I.seen images.new).faults ≡ (I.seen images.old).faults) }
    ensures ends { IfErr result (EndsScan (I.seen images.old) (I.seen images.new)) }
{
    let scope = plan.scope();
    parity_scan::scan_tallied(rt, alloc, images, &scope, sets, tallies, gate)
}

/// How many of the tested sector rows of a parameter set are unsound: those below its area, whose
/// whole rows end before the plan's `end`, and below the plan's `window`. Memory is taken before the
/// first reading. Nothing is read where nothing can break a row.
pub fn unsound<I: Images>(
    alloc: Global,
    images: &mut I,
    plan: &Plan,
    geo: &Geometry,
) -> Result<u64, ScanFault>
    requires set { IsScannable geo.now plan.now.end (I.seen images.old).attached }
    ensures told { IfOk result (λ n. IfSome (told_all (I.seen images.old).attached)
        (λ bytes. n ≡ unsound_rows bytes geo.now (tested_rows geo.now plan.now.end plan.now.limits.window))) }
    ensures reads { OnlyReads (I.seen images.old) (I.seen images.new)
        (length (I.seen images.old).attached * read_rows geo.now plan.now.end plan.now.limits.window) }
    ensures unread { is_unbreakable geo.now ≡ true → I.seen images.new ≡ I.seen images.old }
    ensures quiet { OnOk result ((I.seen images.new).faults ≡ (I.seen images.old).faults) }
    ensures ends { IfErr result (EndsScan (I.seen images.old) (I.seen images.new)) }
{
    let scope = plan.scope();
    parity_scan::unsound(alloc, images, &scope, geo)
}
