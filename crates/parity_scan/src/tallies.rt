//! The tallies of many sets, in pieces.
ghost use Rattle.std.specs.Prelude.{◌≡◌, ◌+◌, ◌*◌, ◌^◌, ◌<◌, ◌≤◌, count_by, length, nat_le, All, IfSome};
ghost use Rattle.member_regions.specs.Members.{IsTestable};
ghost use Rattle.member_regions.specs.Regions.{IsRoomFor, Room};
ghost use Rattle.member_regions.specs.declared.regions.TheConstants.{BLOCK};
ghost use Rattle.parity_scan.specs.ImageRows.{AddAll, IsTallied};
ghost use Rattle.parity_scan.specs.Equations.{AreKnown};
ghost use Rattle.parity_scan.specs.ImageSums.{AreImageSums};
ghost use Rattle.parity_scan.specs.Tallies.{is_open};
ghost use Rattle.parity_scan.specs.declared.tallies.TheConstants.{MANY};

use crate::image_rows::{ROW, tally_after};
use crate::image_sums::ImageSums;
use crate::known_rows::KnownRows;
use crate::runs::Run;
use crate::scan_parts::{Scanned, Threading};
use crate::tally::Tally;
use gates::{Gate, OpenGate};
use member_regions::{BLOCK, Regions};
use search_scope::Scope;
use std::thread;
use std::thread::Threads;

/// The tallies of a piece.
pub const PIECE: usize = 512;

/// As many open tallies as make sums of all images, and threads, worth their cost.
const MANY: usize = 16;

/// Adds the rows of a run to the tallies, in pieces where many are open. The first run of a pass is always added in pieces, which
/// pass the gate.
pub fn add_run<R: Threads + Sync, G: Gate + Sync>(
    threads: &Threading<R, G>,
    scanned: &Scanned,
    tallies: &mut [Tally],
    regions: &Regions,
    run: Run,
    is_first: bool,
)
    requires long { length tallies.old ≡ length scanned.now.sets.now }
    requires sets { All (IsTallied regions.now) scanned.now.sets.now }
    requires run { run.first + run.count < 2 ^ 55 }
    requires most { run.count ≤ BLOCK }
    requires room { IsRoomFor (length scanned.now.scope.now.lengths.items) run.count regions.now }
    ensures added { AddAll scanned.now.scope.now scanned.now.sets.now 0 run regions.now tallies.old tallies.new }
    ensures long { length tallies.new ≡ length tallies.old }
{
    if is_first {
        add_in_pieces(threads, scanned, tallies, regions, run);
        return;
    }
    let threads = Threading {
        rt: threads.rt,
        gate: &OpenGate,
    };
    if are_many(tallies) {
        add_in_pieces(&threads, scanned, tallies, regions, run);
        return;
    }
    add_to_piece(scanned, 0, tallies, regions, &ImageSums::none(), run);
}

/// Whether many tallies are open.
fn are_many(tallies: &[Tally]) -> bool
    ensures { result ≡ nat_le MANY (count_by is_open tallies.now) }
{
    MANY <= open_count(tallies)
}

/// How many tallies are open.
fn open_count(tallies: &[Tally]) -> usize
    ensures { result ≡ count_by is_open tallies.now }
{
    tallies.iter().filter(|tally| tally.is_open()).count()
}

/// As many open tallies make it worth its cost to keep what is known of rows: of fewer than two none can be alike, and of many that
/// are not each would undo what the one before it left.
const LEAST_ALIKE: usize = 2;

const MOST_ALIKE: usize = 64;

/// What is known of rows before any is tested: nothing. It is kept where a few tallies are open, of which some may be of sets that
/// are alike.
fn no_rows(tallies: &[Tally]) -> KnownRows
    ensures { (room : Room) → AreKnown room result }
{
    let open = open_count(tallies);
    KnownRows::none(LEAST_ALIKE <= open && open <= MOST_ALIKE)
}

/// The sums of the images at the places of a run where many tallies are open, and else none.
pub fn sums_for(scope: &Scope, tallies: &[Tally], regions: &Regions, run: Run) -> ImageSums
    requires most { run.count ≤ BLOCK }
    requires room { IsRoomFor (length scope.now.lengths.items) run.count regions.now }
    ensures { AreImageSums regions.now result }
{
    if !are_many(tallies) {
        return ImageSums::none();
    }
    ImageSums::over(regions, scope.lengths.len(), run.count as usize)
}

/// Adds the rows of a run to the tallies in pieces that may run side by side. Each piece passes the gate first.
pub fn add_in_pieces<R: Threads + Sync, G: Gate + Sync>(
    threads: &Threading<R, G>,
    scanned: &Scanned,
    tallies: &mut [Tally],
    regions: &Regions,
    run: Run,
)
    requires long { length tallies.old ≡ length scanned.now.sets.now }
    requires sets { All (IsTallied regions.now) scanned.now.sets.now }
    requires run { run.first + run.count < 2 ^ 55 }
    requires most { run.count ≤ BLOCK }
    requires room { IsRoomFor (length scanned.now.scope.now.lengths.items) run.count regions.now }
    ensures added { AddAll scanned.now.scope.now scanned.now.sets.now 0 run regions.now tallies.old tallies.new }
    ensures long { length tallies.new ≡ length tallies.old }
{
    let gate = threads.gate;
    let sums = sums_for(scanned.scope, tallies, regions, run);
    let sums = &sums;
    thread::for_each_chunk_mut(
        threads.rt,
        tallies,
        PIECE,
        &|start: usize, piece: &mut [Tally]|
            requires { (start + length piece.old ≤ length scanned.now.sets.now) × All (IsTallied regions.now) scanned.now.sets.now × AreImageSums regions.now sums.now × (run.first + run.count < 2 ^ 55) × (512 * run.count ≤ regions.now.stride) }
            ensures added { AddAll scanned.entry.now.scope.now scanned.entry.now.sets.now start run regions.entry.now piece.old piece.new }
        {
            gate.pass(start / PIECE);
            add_to_piece(scanned, start, piece, regions, sums, run);
        },
    );
}

/// Adds the rows of a run to the tallies of the sets from number `start` on.
pub fn add_to_piece(
    scanned: &Scanned,
    start: usize,
    piece: &mut [Tally],
    regions: &Regions,
    sums: &ImageSums,
    run: Run,
)
    requires long { start + length piece.old ≤ length scanned.now.sets.now }
    requires sets { All (IsTallied regions.now) scanned.now.sets.now }
    requires sums { AreImageSums regions.now sums.now }
    requires run { run.first + run.count < 2 ^ 55 }
    requires room { 512 * run.count ≤ regions.now.stride }
    ensures added { AddAll scanned.now.scope.now scanned.now.sets.now start run regions.now piece.old piece.new }
    ensures long { length piece.new ≡ length piece.old }
{
    let mut known = no_rows(piece);
    let mut room = [0; ROW];
    for i in 0..piece.len() {
        piece[i] = tally_after(
            scanned.scope,
            &scanned.sets[start + i],
            piece[i],
            regions,
            sums,
            run,
            &mut known,
            &mut room,
        );
    }
}
