//! The volume of a mirror, written out.
ghost use Rattle.std.specs.Prelude.{true, ◌≡◌, ◌+◌, ◌*◌, ◌/◌, ◌%◌, ◌^◌, ◌<◌, ◌≤◌, length, All, IfErr, IfSome, OnOk};
ghost use Rattle.std.specs.Io.KnownBytes.{Appends};
ghost use Rattle.std.specs.Result.{IsErrOf};
ghost use Rattle.outside.specs.Attached.{told_all};
ghost use Rattle.outside.specs.Causes.{HasCause};
ghost use Rattle.outside.specs.Seen.{OnlyReads};
ghost use Rattle.outside.specs.Streams.{AppendsFront, AppendsSectors, Puts};
ghost use Rattle.near_mirror.specs.Copies.{near_sectors};
ghost use Rattle.near_mirror.specs.Volume.{IsMirror, is_held};
ghost use Rattle.member_regions.specs.Members.{Reaches};
ghost use Rattle.member_regions.specs.declared.regions.TheConstants.{BLOCK as BLOCK_SECTORS};
ghost use Rattle.virtual_volume.specs.Gained.{IsAhead};
ghost use Rattle.virtual_volume.specs.Served.{Faults, IsFault};
ghost use Rattle.near_volume.specs.Columns.{IsStep};
ghost use Rattle.near_volume.specs.Mirrored.{IsMirrored};
ghost use Rattle.near_volume.specs.Sectors.{copies_of, near_volume, sectors_of};
ghost use Rattle.near_volume.specs.declared.columns.TheConstants.{RUN as RUN_SECTORS};

use crate::columns::{read_stretch, step_at, stripe};
use crate::rows::read_rows;
use member_regions::{BLOCK, zeros};
use near_mirror::NearSet;
use outside::{Failed, Images, SECTOR, Sink};
use std::alloc::Global;
use virtual_volume::VolumeFault;

/// The bytes of a block.
const BLOCK_BYTES: usize = BLOCK * SECTOR;

/// Reads sectors of the volume from number `first` on, which lie in one chunk, from one of their copies, whose slot holds an image. It
/// takes no memory, and reads as many sectors as it fills.
pub fn read_copy<I: Images>(
    images: &mut I,
    set: &NearSet,
    end: u64,
    copy: u8,
    first: u64,
    to: &mut [u8],
) -> Result<(), Failed>
    requires set { IsMirror set.now end }
    requires near { end < 2 ^ 55 }
    requires held { All (Reaches (I.seen images.old).attached end) set.now.slots.items }
    requires copy { copy < set.now.head.layout.copies }
    requires there { is_held set.now (first / set.now.head.chunk) copy ≡ true }
    requires whole { length to.old % 512 ≡ 0 }
    requires some { 0 < length to.old }
    requires chunk { first % set.now.head.chunk + length to.old / 512 ≤ set.now.head.chunk }
    requires inside { first < near_sectors set.now.head end }
    ensures told { OnOk result (IfSome (told_all (I.seen images.old).attached)
        (λ bytes. to.new ≡ copies_of bytes set.now end copy first (length to.old / 512))) }
    ensures long { length to.new ≡ length to.old }
    ensures reads { OnlyReads (I.seen images.old) (I.seen images.new) (length to.old / 512) }
    ensures cause { HasCause (I.seen images.old).faults (I.seen images.new).faults result }
{
    read_stretch(images, set, end, copy, first, to)
}

/// Reads sectors of the volume from number `first` on that are read by one step, each from the first copy that is there.
#[tactic(auto, using(crate::proofs::Mirrors::mirror_chunk))]
fn read_step<I: Images>(
    images: &mut I,
    set: &NearSet,
    end: u64,
    first: u64,
    to: &mut [u8],
) -> Result<(), Failed>
    requires set { IsMirror set.now end }
    requires near { end < 2 ^ 55 }
    requires held { All (Reaches (I.seen images.old).attached end) set.now.slots.items }
    requires whole { length to.old % 512 ≡ 0 }
    requires some { 0 < length to.old }
    requires step { IsStep set.now.head RUN_SECTORS first (length to.old / 512) }
    requires inside { first + length to.old / 512 ≤ near_sectors set.now.head end }
    ensures told { OnOk result (IfSome (told_all (I.seen images.old).attached)
        (λ bytes. to.new ≡ sectors_of bytes set.now end first (length to.old / 512))) }
    ensures long { length to.new ≡ length to.old }
    ensures reads { OnlyReads (I.seen images.old) (I.seen images.new) (length to.old / 512) }
    ensures cause { HasCause (I.seen images.old).faults (I.seen images.new).faults result }
{
    let count = (to.len() / SECTOR) as u64;
    if first % set.head.chunk + count > set.head.chunk {
        return read_rows(images, set, end, first, count / stripe(&set.head), to);
    }
    match set.held_copy(first / set.head.chunk) {
        Some(copy) => read_copy(images, set, end, copy, first, to),
        None => Ok(()),
    }
}

/// Fills `to` with the sectors of the volume from number `first` on, each from its first copy whose slot holds an image:
/// rows of far chunks in runs, a run for each slot, and others chunk by chunk. It takes no memory, and reads as many sectors
/// as it fills.
#[tactic(auto, using(crate::proofs::Mirrors::mirrored_mirror, crate::proofs::Mirrors::mirror_chunk))]
pub fn read_near<I: Images>(
    images: &mut I,
    set: &NearSet,
    end: u64,
    first: u64,
    to: &mut [u8],
) -> Result<(), Failed>
    requires set { IsMirrored set.now end (I.seen images.old).attached }
    requires whole { length to.old % 512 ≡ 0 }
    requires inside { first + length to.old / 512 ≤ near_sectors set.now.head end }
    ensures told { OnOk result (IfSome (told_all (I.seen images.old).attached)
        (λ bytes. to.new ≡ sectors_of bytes set.now end first (length to.old / 512))) }
    ensures long { length to.new ≡ length to.old }
    ensures reads { OnlyReads (I.seen images.old) (I.seen images.new) (length to.old / 512) }
    ensures cause { HasCause (I.seen images.old).faults (I.seen images.new).faults result }
{
    let count = (to.len() / SECTOR) as u64;
    let mut done = 0;
    while done < count {
        let run = step_at(&set.head, first + done, count - done);
        let part = &mut to[SECTOR * done as usize..SECTOR * (done + run) as usize];
        read_step(images, set, end, first + done, part)?;
        done += run;
    }
    Ok(())
}

/// Writes `count` sectors of the volume from number `first` on.
fn write_block<I: Images, K: Sink>(
    images: &mut I,
    sink: &mut K,
    room: &mut [u8],
    set: &NearSet,
    end: u64,
    first: u64,
    count: usize,
) -> Result<(), VolumeFault>
    requires set { IsMirrored set.now end (I.seen images.old).attached }
    requires room { length room.old ≡ BLOCK_BYTES }
    requires fits { count ≤ BLOCK }
    requires inside { first + count ≤ near_sectors set.now.head end }
    ensures put { IfSome (told_all (I.seen images.old).attached)
        (λ bytes. Puts (K.gained sink.old) (K.gained sink.new) result (sectors_of bytes set.now end first count)) }
    ensures unput { IsErrOf result VolumeFault.ReadFault → K.gained sink.new ≡ K.gained sink.old }
    ensures reads { OnlyReads (I.seen images.old) (I.seen images.new) count }
    ensures later { K.faults sink.old ≤ K.faults sink.new }
    ensures faults { Faults (I.seen images.old).faults (I.seen images.new).faults (K.faults sink.old) (K.faults sink.new) result }
    ensures ends { IfErr result IsFault }
    ensures room { length room.new ≡ length room.old }
{
    let block = &mut room[..SECTOR * count];
    read_near(images, set, end, first, block).map_err(|_| VolumeFault::ReadFault)?;
    sink.put(block).map_err(|_| VolumeFault::WriteFault)
}

/// Writes the first `sectors` sectors of the volume, a block at a time.
fn write_sectors<I: Images, K: Sink>(
    images: &mut I,
    sink: &mut K,
    room: &mut [u8],
    set: &NearSet,
    end: u64,
    sectors: u64,
) -> Result<(), VolumeFault>
    requires set { IsMirrored set.now end (I.seen images.old).attached }
    requires room { length room.old ≡ BLOCK_BYTES }
    requires inside { sectors ≤ near_sectors set.now.head end }
    ensures put { IfSome (told_all (I.seen images.old).attached)
        (λ bytes. Puts (K.gained sink.old) (K.gained sink.new) result (sectors_of bytes set.now end 0 sectors)) }
    ensures whole { IsErrOf result VolumeFault.ReadFault → IfSome (told_all (I.seen images.old).attached)
        (λ bytes. AppendsSectors (K.gained sink.old) (K.gained sink.new) (sectors_of bytes set.now end 0 sectors)) }
    ensures ahead { IfSome (told_all (I.seen images.old).attached)
        (λ bytes. IsAhead BLOCK_SECTORS (I.seen images.old).sectors_read (I.seen images.new).sectors_read (K.gained sink.old) (K.gained sink.new)) }
    ensures reads { OnlyReads (I.seen images.old) (I.seen images.new) sectors }
    ensures later { K.faults sink.old ≤ K.faults sink.new }
    ensures faults { Faults (I.seen images.old).faults (I.seen images.new).faults (K.faults sink.old) (K.faults sink.new) result }
    ensures ends { IfErr result IsFault }
{
    let mut first = 0;
    while first < sectors {
        let count = (sectors - first).min(BLOCK as u64);
        write_block(images, sink, room, set, end, first, count as usize)?;
        first += count;
    }
    Ok(())
}

/// Writes the volume of a mirror over the attached images: its chunks in their order, each from its first copy whose
/// slot holds an image. Only whole rows before the image sector `end` count, and last cells or rows that are fewer than
/// copies are no part of the volume.
///
/// Memory may run out only before anything is read or written. After that only a fault of the images or of the sink
/// ends the work: then a prefix of the volume was written, of whole sectors where the images failed. No more sectors
/// are read than the volume has.
#[tactic(auto, using(crate::proofs::Mirrors::mirrored_mirror, crate::proofs::Mirrors::mirrored_head))]
pub fn write_near<I: Images, K: Sink>(
    alloc: Global,
    images: &mut I,
    set: &NearSet,
    end: u64,
    sink: &mut K,
) -> Result<(), VolumeFault>
    requires set { IsMirrored set.now end (I.seen images.old).attached }
    ensures written { OnOk result (IfSome (told_all (I.seen images.old).attached)
        (λ bytes. Appends (K.gained sink.old) (K.gained sink.new) (near_volume bytes set.now end))) }
    ensures front { IfErr result (λ _. IfSome (told_all (I.seen images.old).attached)
        (λ bytes. AppendsFront (K.gained sink.old) (K.gained sink.new) (near_volume bytes set.now end))) }
    ensures whole { IsErrOf result VolumeFault.ReadFault → IfSome (told_all (I.seen images.old).attached)
        (λ bytes. AppendsSectors (K.gained sink.old) (K.gained sink.new) (near_volume bytes set.now end)) }
    ensures memory { IsErrOf result VolumeFault.Memory →
        (K.gained sink.new ≡ K.gained sink.old) × (I.seen images.new ≡ I.seen images.old) }
    ensures faults { Faults (I.seen images.old).faults (I.seen images.new).faults (K.faults sink.old) (K.faults sink.new) result }
    ensures reads { OnlyReads (I.seen images.old) (I.seen images.new) (near_sectors set.now.head end) }

    // At most a block is read beyond what the sink gained, also where it failed.
    ensures ahead { IfSome (told_all (I.seen images.old).attached)
        (λ bytes. IsAhead BLOCK_SECTORS (I.seen images.old).sectors_read (I.seen images.new).sectors_read (K.gained sink.old) (K.gained sink.new)) }
    ensures later { K.faults sink.old ≤ K.faults sink.new }
{
    let sectors = set.head.volume_sectors(end);
    let mut room = zeros(alloc, BLOCK_BYTES).map_err(|_| VolumeFault::Memory)?;
    write_sectors(images, sink, &mut room, set, end, sectors)
}
