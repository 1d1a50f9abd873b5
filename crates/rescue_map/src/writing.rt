//! The volume of damaged members, written out.
ghost use Rattle.std.specs.Prelude.{◌≡◌, ◌+◌, ◌*◌, ◌/◌, ◌<◌, ◌≤◌, length, IfErr, IfSome, OnOk};
ghost use Rattle.std.specs.Result.{IsErrOf};
ghost use Rattle.outside.specs.Attached.{told_all};
ghost use Rattle.outside.specs.Seen.{OnlyReads};
ghost use Rattle.outside.specs.Streams.{Puts};
ghost use Rattle.member_regions.specs.declared.regions.TheConstants.{BLOCK as BLOCK_SECTORS};
ghost use Rattle.image_padding.specs.Padded.{padded_images};
ghost use Rattle.raid_params.specs.Size.{volume_sectors as volume_sectors_of};
ghost use Rattle.virtual_volume.specs.Served.{Faults, IsFault};
ghost use Rattle.rescue_map.specs.Damaged.{IsReadable};
ghost use Rattle.rescue_map.specs.Salvaged.{reads_for_all, salvaged_sectors, IsPiece, IsSalvaged, KeepLengths, ReadsUpTo, Salvages};

use crate::damaged::Damage;
use crate::device::read_each;
use crate::filling::{Threading, are_many, fill_block};
use crate::reading::read_block;
use address_map::volume_sectors;
use gates::Gate;
use image_padding::Padded;
use member_regions::{BLOCK, zeros};
use outside::{Failed, Images, SECTOR, Sink};
use raid_params::Wide;
use rescue_text::Rescue;
use std::alloc::Global;
use std::thread::Threads;
use virtual_volume::VolumeFault;

/// Makes the sectors of the volume from number `first` on that fit into `block`: one after the other, or in pieces once all is read
/// that they need. Gives how many were found by their rows.
fn make_block<R: Threads + Sync, I: Images, G: Gate + Sync>(
    threads: &Threading<R, G>,
    images: &mut I,
    damage: &Damage,
    first: u64,
    block: &mut [u8],
    rows: &mut [u8],
) -> Result<usize, Failed>
    requires set { IsReadable damage.now.set.now damage.now.end (I.seen images.old).attached }
    requires block { IsPiece damage.now.set.now damage.now.end first 0 block.old rows.old }
    requires row { 512 * length damage.now.set.now.geo.slots.items ≤ length rows.old }
    ensures told { OnOk result (IfSome (told_all (I.seen images.old).attached)
        (λ bytes. block.new ≡ salvaged_sectors bytes damage.now.rescue.now damage.now.set.now first (length block.old / 512))) }
    ensures lengths { KeepLengths block.old block.new rows.old rows.new }
    ensures reads { ReadsUpTo (I.seen images.old) (I.seen images.new) (reads_for_all damage.now.rescue.now damage.now.set.now first (length block.old / 512)) result }
{
    if !threads.many {
        let row = &mut rows[..SECTOR * damage.set.geo.slots.len()];
        return read_each(images, damage, first, row, block);
    }
    let found = read_block(images, damage, first, block.len() / SECTOR, block, rows)?;
    fill_block(threads, damage, first, block, rows);
    Ok(found)
}

/// Writes the sectors of the volume from number `first` on that fit into `block`.
fn write_block<R: Threads + Sync, I: Images, K: Sink, G: Gate + Sync>(
    threads: &mut Threading<R, G>,
    images: &mut I,
    sink: &mut K,
    damage: &Damage,
    first: u64,
    block: &mut [u8],
    rows: &mut [u8],
) -> Result<(), VolumeFault>
    requires set { IsReadable damage.now.set.now damage.now.end (I.seen images.old).attached }
    requires block { IsPiece damage.now.set.now damage.now.end first 0 block.old rows.old }
    requires row { 512 * length damage.now.set.now.geo.slots.items ≤ length rows.old }
    ensures put { IfSome (told_all (I.seen images.old).attached)
        (λ bytes. Puts (K.gained sink.old) (K.gained sink.new) result (salvaged_sectors bytes damage.now.rescue.now damage.now.set.now first (length block.old / 512))) }
    ensures unput { IsErrOf result VolumeFault.ReadFault → K.gained sink.new ≡ K.gained sink.old }
    ensures reads { OnlyReads (I.seen images.old) (I.seen images.new) (reads_for_all damage.now.rescue.now damage.now.set.now first (length block.old / 512)) }
    ensures later { K.faults sink.old ≤ K.faults sink.new }
    ensures faults { Faults (I.seen images.old).faults (I.seen images.new).faults (K.faults sink.old) (K.faults sink.new) result }
    ensures ends { IfErr result IsFault }
    ensures lengths { KeepLengths block.old block.new rows.old rows.new }
{
    let found = make_block(threads, images, damage, first, block, rows).map_err(
        |_| VolumeFault::ReadFault,
    )?;
    threads.many = are_many(damage, found);
    sink.put(block).map_err(|_| VolumeFault::WriteFault)
}

/// Writes the first `sectors` sectors of the volume, block by block.
fn write_blocks<R: Threads + Sync, I: Images, K: Sink, G: Gate + Sync>(
    threads: &mut Threading<R, G>,
    images: &mut I,
    sink: &mut K,
    damage: &Damage,
    sectors: u64,
    block: &mut [u8],
    rows: &mut [u8],
) -> Result<(), VolumeFault>
    requires set { IsReadable damage.now.set.now damage.now.end (I.seen images.old).attached }
    requires within { sectors ≤ volume_sectors_of damage.now.set.now.geo.head damage.now.end }
    requires block { length block.old ≡ 512 * BLOCK_SECTORS }
    requires rows { 512 * length damage.now.set.now.geo.slots.items * BLOCK_SECTORS ≤ length rows.old }
    ensures salvages { Salvages (told_all (I.seen images.old).attached) damage.now.rescue.now damage.now.set.now sectors
        (I.seen images.old) (I.seen images.new) (K.gained sink.old) (K.gained sink.new) (K.faults sink.old) (K.faults sink.new) result }
    ensures ends { IfErr result IsFault }
{
    let mut first = 0;
    while first < sectors {
        let count = (BLOCK as u64).min(sectors - first);
        let part = &mut block[..SECTOR * count as usize];
        write_block(threads, images, sink, damage, first, part, rows)?;
        first += count;
    }
    Ok(())
}

/// Writes the volume over images whose members all begin at the offset of the set's geometry, as they do once they are padded.
fn salvage_over<R: Threads + Sync, I: Images, K: Sink, G: Gate + Sync>(
    threads: &mut Threading<R, G>,
    alloc: Global,
    images: &mut I,
    sink: &mut K,
    damage: &Damage,
) -> Result<(), VolumeFault>
    requires set { IsReadable damage.now.set.now damage.now.end (I.seen images.old).attached }
    ensures { Salvages (told_all (I.seen images.old).attached) damage.now.rescue.now damage.now.set.now (volume_sectors_of damage.now.set.now.geo.head damage.now.end)
        (I.seen images.old) (I.seen images.new) (K.gained sink.old) (K.gained sink.new) (K.faults sink.old) (K.faults sink.new) result }
{
    let sectors = volume_sectors(&damage.set.geo.head, damage.end);
    let stride = SECTOR * damage.set.geo.slots.len();
    let mut block = zeros(alloc, SECTOR * BLOCK).map_err(|_| VolumeFault::Memory)?;
    let mut rows = zeros(alloc, stride * BLOCK).map_err(|_| VolumeFault::Memory)?;
    write_blocks(
        threads, images, sink, damage, sectors, &mut block, &mut rows,
    )
}

/// Writes the volume of a set whose images have unreadable areas, by what was read of them: `volume_sectors` sectors, in their
/// order.
///
/// A sector whose home is good is read itself; another one is found by the good cells of its row, where no more of them are
/// missing than the level survives; another one is lost, and is zeros. So the bytes depend on good sectors alone. The sectors
/// of a block of 256 are found in pieces of 64 that may run side by side, where many of the block before were to be found; those of
/// the first block always are, and pass the gate first, each with its number. The bytes do not depend on how pieces fall to threads.
///
/// Memory may run out only before anything is read or written. After that only a fault of the images or of the sink ends the
/// work: then a prefix of the volume was written, of whole sectors where the images failed. One sector at most is read for
/// each sector that is there, the good cells of its row for each that is found, and none for one that is lost; and no more than
/// for what the sink gained and for one block more, also where the work failed.
pub fn salvage<R: Threads + Sync, I: Images, K: Sink, G: Gate + Sync>(
    rt: &R,
    alloc: Global,
    images: &mut I,
    set: &Wide,
    end: u64,
    rescue: &Rescue,
    sink: &mut K,
    gate: &G,
) -> Result<(), VolumeFault>
    requires set { IsSalvaged set.now end (I.seen images.old).attached }
    ensures { Salvages (told_all (padded_images set.now.bases.items (I.seen images.old).attached)) rescue.now set.now (volume_sectors_of set.now.geo.head end)
        (I.seen images.old) (I.seen images.new) (K.gained sink.old) (K.gained sink.new) (K.faults sink.old) (K.faults sink.new) result }
{
    let mut threads = Threading {
        rt,
        gate,
        many: true,
    };
    let damage = Damage { set, end, rescue };
    if set.bases.is_empty() {
        return salvage_over(&mut threads, alloc, images, sink, &damage);
    }
    let mut padded = Padded::new(images, set.bases.as_slice());
    salvage_over(&mut threads, alloc, &mut padded, sink, &damage)
}
