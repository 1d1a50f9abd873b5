//! Rows of far chunks of the volume of a mirror.
ghost use Rattle.std.specs.Prelude.{ℕ, ◌≡◌, ◌≢◌, ◌+◌, ◌*◌, ◌%◌, ◌^◌, ◌<◌, ◌≤◌, List, length, All, IfSome, OnOk};
ghost use Rattle.outside.specs.Attached.{told_all};
ghost use Rattle.outside.specs.Causes.{HasCause};
ghost use Rattle.outside.specs.Seen.{OnlyReads};
ghost use Rattle.near_mirror.specs.Copies.{near_sectors};
ghost use Rattle.near_mirror.specs.Volume.{IsMirror};
ghost use Rattle.member_regions.specs.Members.{Reaches};
ghost use Rattle.near_volume.specs.Columns.{HoldsChunk, stripe};
ghost use Rattle.near_volume.specs.Sectors.{near_sector, sectors_of};
ghost use Rattle.near_volume.specs.declared.columns.TheConstants.{RUN as RUN_SECTORS};

use crate::columns::{RUN, read_column};
use near_mirror::{Copying, NearSet};
use outside::{Failed, Images, SECTOR};

/// Reads of rows of far chunks those of one column, from the first copy that is there.
#[tactic(auto, using(crate::proofs::Mirrors::mirror_chunk))]
fn read_home_column<I: Images>(
    images: &mut I,
    set: &NearSet,
    end: u64,
    first: u64,
    rows: u64,
    column: u64,
    room: &mut [u8],
    to: &mut [u8],
) -> Result<(), Failed>
    requires set { IsMirror set.now end }
    requires near { end < 2 ^ 55 }
    requires held { All (Reaches (I.seen images.old).attached end) set.now.slots.items }
    requires far { set.now.head.layout.copying ≡ Copying.Far }
    requires begins { first % set.now.head.chunk ≡ 0 }
    requires some { 1 ≤ rows }
    requires column { column < set.now.head.members }
    requires room { 512 * (rows * set.now.head.chunk) ≤ length room.old }
    requires whole { length to.old ≡ 512 * (rows * stripe set.now.head) }
    requires inside { first + rows * stripe set.now.head ≤ near_sectors set.now.head end }
    ensures told { OnOk result (IfSome (told_all (I.seen images.old).attached) (λ bytes. (row : ℕ) → row < rows →
        HoldsChunk (λ j. near_sector bytes set.now end (first + j)) set.now.head.chunk to.new (row * set.now.head.members + column))) }
    ensures others { OnOk result ((f : ℕ → List ℕ) (row other : ℕ) → row < rows → other < set.now.head.members → other ≢ column →
        HoldsChunk f set.now.head.chunk to.old (row * set.now.head.members + other) →
        HoldsChunk f set.now.head.chunk to.new (row * set.now.head.members + other)) }
    ensures long { length to.new ≡ length to.old }
    ensures room { length room.new ≡ length room.old }
    ensures reads { OnlyReads (I.seen images.old) (I.seen images.new) (rows * set.now.head.chunk) }
    ensures cause { HasCause (I.seen images.old).faults (I.seen images.new).faults result }
{
    match set.held_copy(first / set.head.chunk + column) {
        Some(copy) => read_column(images, set, end, copy, first, rows, column, room, to),
        None => Ok(()),
    }
}

/// Reads rows of far chunks, each from the first copy that is there.
pub(crate) fn read_rows<I: Images>(
    images: &mut I,
    set: &NearSet,
    end: u64,
    first: u64,
    rows: u64,
    to: &mut [u8],
) -> Result<(), Failed>
    requires set { IsMirror set.now end }
    requires near { end < 2 ^ 55 }
    requires held { All (Reaches (I.seen images.old).attached end) set.now.slots.items }
    requires far { set.now.head.layout.copying ≡ Copying.Far }
    requires begins { first % set.now.head.chunk ≡ 0 }
    requires some { 1 ≤ rows }
    requires fits { rows * set.now.head.chunk ≤ RUN_SECTORS }
    requires whole { length to.old ≡ 512 * (rows * stripe set.now.head) }
    requires inside { first + rows * stripe set.now.head ≤ near_sectors set.now.head end }
    ensures told { OnOk result (IfSome (told_all (I.seen images.old).attached)
        (λ bytes. to.new ≡ sectors_of bytes set.now end first (rows * stripe set.now.head))) }
    ensures long { length to.new ≡ length to.old }
    ensures reads { OnlyReads (I.seen images.old) (I.seen images.new) (rows * stripe set.now.head) }
    ensures cause { HasCause (I.seen images.old).faults (I.seen images.new).faults result }
{
    let mut room = [0u8; RUN * SECTOR];
    for column in 0..u64::from(set.head.members) {
        read_home_column(images, set, end, first, rows, column, &mut room, to)?;
    }
    Ok(())
}
