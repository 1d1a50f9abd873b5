//! The pass over the images for all sets that are left.
ghost use Rattle.std.specs.Prelude.{ℕ, ◌≡◌, ◌+◌, ◌*◌, ◌^◌, ◌<◌, ◌≤◌, length, IfSome, OnOk};
ghost use Rattle.outside.specs.Attached.{told_all};
ghost use Rattle.outside.specs.Causes.{HasCause};
ghost use Rattle.parity_scan.specs.Pass.{CanScan, TalliesAll, ReadsWindows, TalliesTo};
ghost use Rattle.parity_scan.specs.Tallies.{AllTallies, KeepSettled, NoneOpen};
ghost use Rattle.member_regions.specs.Regions.{KeepsRoom};

use crate::runs::{Run, next_run};
use crate::scan_parts::{Scanned, Threading};
use crate::tallies::{add_in_pieces, add_run};
use crate::tally::Tally;
use crate::wanted::wanted_images;
use gates::Gate;
use member_regions::Regions;
use outside::{Failed, Images};
use std::thread::Threads;

/// Tests the rows of all open sets, in the order of image sectors. A run of rows is read of the images that an open set with
/// rows in it needs. Each piece of the sets passes the gate once: before the rows of the first run, or, where no set has rows to
/// be tested, before it ends.
pub fn sweep<R: Threads + Sync, I: Images, G: Gate + Sync>(
    threads: &Threading<R, G>,
    scanned: &Scanned,
    images: &mut I,
    regions: &mut Regions,
    tallies: &mut [Tally],
) -> Result<(), Failed>
    requires can { CanScan scanned.now.scope.now scanned.now.sets.now (I.seen images.old).attached regions.old }
    requires long { length tallies.old ≡ length scanned.now.sets.now }
    ensures told { OnOk result (IfSome (told_all (I.seen images.old).attached)
        (λ bytes. AllTallies (TalliesTo bytes scanned.now.scope.now 0) scanned.now.sets.now tallies.old → AllTallies (TalliesAll bytes scanned.now.scope.now) scanned.now.sets.now tallies.new)) }
    ensures long { length tallies.new ≡ length scanned.now.sets.now }
    ensures settled { KeepSettled tallies.old tallies.new }
    ensures reads { ReadsWindows (I.seen images.old) (I.seen images.new) scanned.now.scope.now scanned.now.sets.now 0 scanned.now.scope.now.end }
    ensures unread { NoneOpen tallies.old → I.seen images.new ≡ I.seen images.old }
    ensures cause { HasCause (I.seen images.old).faults (I.seen images.new).faults result }
{
    let mut at = 0;
    while let Some(run) = next_run(scanned, tallies, at) {
        let wanted = wanted_images(scanned, tallies, run);
        regions.read(images, &wanted, 0, run.first, run.count as usize)?;
        add_run(threads, scanned, tallies, regions, run, at == 0);
        at = run.first + run.count;
    }
    if at == 0 {
        add_in_pieces(threads, scanned, tallies, regions, Run::empty());
    }
    Ok(())
}
