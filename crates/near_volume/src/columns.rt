//! Far copies, read in runs: chunks that are as many apart as there are members lie one after the other on a slot.
ghost use Rattle.std.specs.Prelude.{ℕ, List, true, ◌≡◌, ◌≢◌, ◌+◌, ◌*◌, ◌/◌, ◌%◌, ◌^◌, ◌<◌, ◌≤◌, length, All, IfSome, IsTrue, OnOk, slice_index};
ghost use Rattle.outside.specs.Attached.{told_all};
ghost use Rattle.outside.specs.Causes.{HasCause};
ghost use Rattle.outside.specs.Seen.{OnlyReads};
ghost use Rattle.raid_terms.specs.Parity.{member_byte};
ghost use Rattle.near_mirror.specs.Copies.{copy_sector, near_sectors};
ghost use Rattle.near_mirror.specs.Heads.{is_valid_near};
ghost use Rattle.near_mirror.specs.Volume.{IsMirror, copy_image, is_held};
ghost use Rattle.member_regions.specs.Members.{Reaches};
ghost use Rattle.near_volume.specs.Columns.{AreRows, HoldsChunk, IsStep, stripe as stripe_of};
ghost use Rattle.near_volume.specs.Sectors.{copy_bytes};

use crate::spreading::spread;
use member_regions::read_member;
use near_mirror::{Copying, NearHead, NearSet};
use outside::{Failed, Images, SECTOR};

/// The most sectors of a slot that are read at once where they are chunks that lie apart in the volume, 32 KiB. A chunk that is
/// larger is read by itself.
pub(crate) const RUN: usize = 64;

/// The sectors of a row of as many chunks as there are members.
#[tactic(auto, using(near_mirror::proofs::Heads::few_members, near_mirror::proofs::Chunks::short_chunk))]
pub(crate) fn stripe(head: &NearHead) -> u64
    requires { IsTrue (is_valid_near head.now) }
    ensures { result ≡ stripe_of head.now }
{
    u64::from(head.members) * head.chunk
}

/// How many rows of far chunks among the `left` sectors of the volume from number `first` on are read at once.
#[tactic(auto, using(near_mirror::proofs::Chunks::valid_chunk, crate::proofs::FarRows::some_stripe))]
fn rows_at(head: &NearHead, first: u64, left: u64) -> u64
    requires { IsTrue (is_valid_near head.now) }
    ensures few { result * stripe_of head.now ≤ left }
    ensures fits { result * head.now.chunk ≤ RUN }
    ensures far { 1 ≤ result → head.now.layout.copying ≡ Copying.Far }
    ensures begins { 1 ≤ result → first % head.now.chunk ≡ 0 }
{
    match head.layout.copying {
        Copying::Far if first % head.chunk == 0 => {
            (left / stripe(head)).min(RUN as u64 / head.chunk)
        }
        _ => 0,
    }
}

/// How many of the `left` sectors of the volume from number `first` on are read by one step: rows of far chunks, where more
/// than one are read at once, and else no more than to the end of the chunk.
#[tactic(auto, using(near_mirror::proofs::Chunks::valid_chunk))]
pub(crate) fn step_at(head: &NearHead, first: u64, left: u64) -> u64
    requires head { IsTrue (is_valid_near head.now) }
    requires some { 1 ≤ left }
    ensures some { 1 ≤ result }
    ensures few { result ≤ left }
    ensures step { IsStep head.now RUN first result }
{
    let rows = rows_at(head, first, left);
    if rows > 1 {
        rows * stripe(head)
    } else {
        (head.chunk - first % head.chunk).min(left)
    }
}

/// Reads sectors of a member from that of a copy of a sector of the volume on. The copy's slot holds an image.
pub(crate) fn read_stretch<I: Images>(
    images: &mut I,
    set: &NearSet,
    end: u64,
    copy: u8,
    first: u64,
    to: &mut [u8],
) -> Result<(), Failed>
    requires set { IsMirror set.now end }
    requires near { end < 2 ^ 55 }
    requires held { All (Reaches (I.seen images.old).attached end) set.now.slots.items }
    requires copy { copy < set.now.head.layout.copies }
    requires there { is_held set.now (first / set.now.head.chunk) copy ≡ true }
    requires whole { length to.old % 512 ≡ 0 }
    requires some { 0 < length to.old }
    requires inside { first < near_sectors set.now.head end }
    requires reach { set.now.head.offset + (copy_sector set.now.head end copy first + length to.old / 512) ≤ end }
    ensures told { OnOk result (IfSome (told_all (I.seen images.old).attached) (λ bytes. (y : ℕ) → y < length to.new →
        slice_index to.new y ≡ member_byte bytes set.now.head.offset (copy_sector set.now.head end copy first) y (copy_image set.now copy first))) }
    ensures long { length to.new ≡ length to.old }
    ensures reads { OnlyReads (I.seen images.old) (I.seen images.new) (length to.old / 512) }
    ensures cause { HasCause (I.seen images.old).faults (I.seen images.new).faults result }
{
    match set.head.copy_place(end, copy, first) {
        Some(place) => {
            let held = set.slots[place.slot as usize];
            read_member(images, held, set.head.offset, place.sector, to)
        }
        None => Ok(()),
    }
}

/// Reads of `rows` rows of far chunks, which begin at sector `first` of the volume, those of one column, by one of their copies,
/// whose slot holds an image. `room` is what is read into.
pub(crate) fn read_column<I: Images>(
    images: &mut I,
    set: &NearSet,
    end: u64,
    copy: u8,
    first: u64,
    rows: u64,
    column: u64,
    room: &mut [u8],
    to: &mut [u8],
) -> Result<(), Failed>
    requires set { IsMirror set.now end }
    requires near { end < 2 ^ 55 }
    requires held { All (Reaches (I.seen images.old).attached end) set.now.slots.items }
    requires copy { copy < set.now.head.layout.copies }
    requires far { set.now.head.layout.copying ≡ Copying.Far }
    requires begins { first % set.now.head.chunk ≡ 0 }
    requires some { 1 ≤ rows }
    requires column { column < set.now.head.members }
    requires there { is_held set.now (first / set.now.head.chunk + column) copy ≡ true }
    requires room { 512 * (rows * set.now.head.chunk) ≤ length room.old }
    requires whole { length to.old ≡ 512 * (rows * stripe_of set.now.head) }
    requires inside { first + rows * stripe_of set.now.head ≤ near_sectors set.now.head end }
    ensures told { OnOk result (IfSome (told_all (I.seen images.old).attached) (λ bytes. (row : ℕ) → row < rows →
        HoldsChunk (λ j. copy_bytes bytes set.now end (first + j) copy) set.now.head.chunk to.new (row * set.now.head.members + column))) }
    ensures others { OnOk result ((f : ℕ → List ℕ) (row other : ℕ) → row < rows → other < set.now.head.members → other ≢ column →
        HoldsChunk f set.now.head.chunk to.old (row * set.now.head.members + other) →
        HoldsChunk f set.now.head.chunk to.new (row * set.now.head.members + other)) }
    ensures long { length to.new ≡ length to.old }
    ensures room { length room.new ≡ length room.old }
    ensures reads { OnlyReads (I.seen images.old) (I.seen images.new) (rows * set.now.head.chunk) }
    ensures cause { HasCause (I.seen images.old).faults (I.seen images.new).faults result }
{
    let chunk = set.head.chunk;
    let members = set.head.members as usize;
    let run = &mut room[..SECTOR * (rows * chunk) as usize];
    let at = first + column * chunk;
    read_stretch(images, set, end, copy, at, run)?;
    spread(
        run,
        to,
        SECTOR * chunk as usize,
        column as usize,
        members,
        rows as usize,
    );
    Ok(())
}
