//! The volume, written out.
ghost use Rattle.std.specs.Prelude.{ℕ, List, [], ◌≡◌, ◌+◌, ◌*◌, ◌^◌, ◌<◌, ◌≤◌, length, ◌++◌, All, IfErr, IfSome, OnOk};
ghost use Rattle.std.specs.Io.KnownBytes.{Appends};
ghost use Rattle.std.specs.Result.{IsErrOf};
ghost use Rattle.outside.specs.Attached.{told_all};
ghost use Rattle.outside.specs.Causes.{HasCause};
ghost use Rattle.outside.specs.Seen.{OnlyReads};
ghost use Rattle.outside.specs.Streams.{AppendsFront, AppendsSectors, Puts};
ghost use Rattle.raid_params.specs.Size.{data_blocks as data_blocks_of, volume_sectors};
ghost use Rattle.raid_terms.specs.Volume.{volume};
ghost use Rattle.member_regions.specs.Members.{IsTestable, Reaches};
ghost use Rattle.lost_members.specs.Needs.{HoldData, needed_sectors};
ghost use Rattle.member_regions.specs.Regions.{IsRoomFor, KeepsRoom};
ghost use Rattle.virtual_volume.specs.Gained.{IsAhead, most_ahead};
ghost use Rattle.member_regions.specs.declared.regions.TheConstants.{BLOCK as BLOCK_SECTORS};
ghost use Rattle.virtual_volume.specs.Parts.{items_of, rows_of};
ghost use Rattle.virtual_volume.specs.Served.{Faults, IsFault, IsServed};
ghost use Rattle.virtual_volume.specs.Waiting.{Passed};

use crate::batch::batch_rows;
use crate::pending::Pending;
use address_map::{data_blocks, rows};
use lost_members::Members;
use outside::{Failed, Images, Sink};
use raid_layouts::slot_of_item;
use raid_params::Geometry;
use std::alloc::Global;
use thiserror::Error;

/// Why bytes were not written out.
#[derive(Clone, Copy, Debug, Drop, Error)]
pub enum VolumeFault {
    /// The images failed.
    #[error("an image cannot be read")]
    ReadFault,
    /// The sink failed.
    #[error("the output cannot be written")]
    WriteFault,
    /// Out of memory.
    #[error("not enough memory")]
    Memory,
}

/// Puts the data items of a row, whose chunks lie from sector `at` of each region on.
#[tactic(auto, using(member_regions::proofs::Sets::testable_head, member_regions::proofs::Sets::testable_slots, row_parity::proofs::Regions::region_inside))]
fn put_row<K: Sink>(
    pending: &mut Pending,
    sink: &mut K,
    geo: &Geometry,
    regions: &Members,
    row: u64,
    at: usize,
) -> Result<(), Failed>
    requires set { IsTestable geo.now }
    requires few { length pending.old ≤ 512 * BLOCK_SECTORS }
    requires room { IsRoomFor (length geo.now.slots.items) (at + geo.now.head.chunk) regions.now }
    ensures passed { (images : List (List ℕ)) (first count : ℕ) →
        first + at ≡ row * geo.now.head.chunk → at + geo.now.head.chunk ≤ count →
        HoldData images geo.now regions.now.stride first count regions.now.bytes →
        Passed (K.gained sink.old) (K.gained sink.new) pending.old pending.new result
        (items_of images geo.now row (data_blocks_of geo.now.head)) }
    ensures few { OnOk result (length pending.new ≤ 512 * BLOCK_SECTORS) }
    ensures cause { HasCause (K.faults sink.old) (K.faults sink.new) result }
{
    let chunk = geo.head.chunk as usize;
    for item in 0..data_blocks(&geo.head) {
        let slot = slot_of_item(&geo.head, row, item) as usize;
        pending.put(sink, regions.region(slot, at, chunk))?;
    }
    Ok(())
}

/// Puts the data items of `rows` rows from row `first` on, of which the regions hold the chunks.
#[tactic(auto, using(row_parity::proofs::Regions::region_inside))]
fn put_rows<K: Sink>(
    pending: &mut Pending,
    sink: &mut K,
    geo: &Geometry,
    regions: &Members,
    first: u64,
    rows: usize,
) -> Result<(), Failed>
    requires set { IsTestable geo.now }
    requires few { length pending.old ≤ 512 * BLOCK_SECTORS }
    requires room { IsRoomFor (length geo.now.slots.items) (rows * geo.now.head.chunk) regions.now }
    requires short { rows * geo.now.head.chunk < 2 ^ 55 }
    requires first { first + rows < 2 ^ 55 }
    ensures passed { (images : List (List ℕ)) →
        HoldData images geo.now regions.now.stride (first * geo.now.head.chunk) (rows * geo.now.head.chunk) regions.now.bytes →
        Passed (K.gained sink.old) (K.gained sink.new) pending.old pending.new result
        (rows_of images geo.now first rows) }
    ensures few { OnOk result (length pending.new ≤ 512 * BLOCK_SECTORS) }
    ensures cause { HasCause (K.faults sink.old) (K.faults sink.new) result }
{
    for r in 0..rows {
        let at = r * geo.head.chunk as usize;
        put_row(pending, sink, geo, regions, first + r as u64, at)?;
    }
    Ok(())
}

/// Writes the volume's part in `rows` rows from row `first` on: reads of the members what it is found by,
/// finds the lost data, and puts the data items.
fn write_batch<I: Images, K: Sink>(
    images: &mut I,
    pending: &mut Pending,
    sink: &mut K,
    regions: &mut Members,
    geo: &Geometry,
    first: u64,
    rows: u64,
) -> Result<(), VolumeFault>
    requires set { IsTestable geo.now }
    requires few { length pending.old ≤ 512 * BLOCK_SECTORS }
    requires held { All (Reaches (I.seen images.old).attached
        (geo.now.head.offset + (first * geo.now.head.chunk + rows * geo.now.head.chunk))) geo.now.slots.items }
    requires near { geo.now.head.offset + (first * geo.now.head.chunk + rows * geo.now.head.chunk) < 2 ^ 55 }
    requires some { 1 ≤ rows }
    requires room { IsRoomFor (length geo.now.slots.items) (rows * geo.now.head.chunk) regions.old }
    ensures passed { IfSome (told_all (I.seen images.old).attached) (λ bytes.
        Passed (K.gained sink.old) (K.gained sink.new) pending.old pending.new result (rows_of bytes geo.now first rows)) }
    ensures few { OnOk result (length pending.new ≤ 512 * BLOCK_SECTORS) }
    ensures unput { IsErrOf result VolumeFault.ReadFault → K.gained sink.new ≡ K.gained sink.old }
    ensures reads { OnlyReads (I.seen images.old) (I.seen images.new)
        (needed_sectors geo.now (first * geo.now.head.chunk) (rows * geo.now.head.chunk)) }
    ensures later { K.faults sink.old ≤ K.faults sink.new }
    ensures faults { Faults (I.seen images.old).faults (I.seen images.new).faults (K.faults sink.old) (K.faults sink.new) result }
    ensures ends { IfErr result IsFault }
    ensures room { KeepsRoom regions.old regions.new }
{
    let count = (rows * geo.head.chunk) as usize;
    let from = first * geo.head.chunk;
    regions
        .read_needed(geo, images, from, count)
        .map_err(|_| VolumeFault::ReadFault)?;
    regions.solve_data(geo, from, count);
    put_rows(pending, sink, geo, regions, first, rows as usize).map_err(|_| VolumeFault::WriteFault)
}

/// Writes the volume's part in the first `rows` rows, `batch` rows at a time.
fn write_rows<I: Images, K: Sink>(
    images: &mut I,
    pending: &mut Pending,
    sink: &mut K,
    regions: &mut Members,
    geo: &Geometry,
    rows: u64,
    batch: u64,
) -> Result<(), VolumeFault>
    requires set { IsTestable geo.now }
    requires few { length pending.old ≤ 512 * BLOCK_SECTORS }
    requires held { All (Reaches (I.seen images.old).attached
        (geo.now.head.offset + rows * geo.now.head.chunk)) geo.now.slots.items }
    requires near { geo.now.head.offset + rows * geo.now.head.chunk < 2 ^ 55 }
    requires room { IsRoomFor (length geo.now.slots.items) (batch * geo.now.head.chunk) regions.old }
    requires batch { 1 ≤ batch }
    ensures passed { IfSome (told_all (I.seen images.old).attached) (λ bytes.
        Passed (K.gained sink.old) (K.gained sink.new) pending.old pending.new result (rows_of bytes geo.now 0 rows)) }
    ensures whole { IsErrOf result VolumeFault.ReadFault → IfSome (told_all (I.seen images.old).attached)
        (λ bytes. AppendsSectors (K.gained sink.old) (K.gained sink.new) (pending.old ++ rows_of bytes geo.now 0 rows)) }
    ensures ahead { IfSome (told_all (I.seen images.old).attached)
        (λ bytes. IsAhead (data_blocks_of geo.now.head * (batch * geo.now.head.chunk) + BLOCK_SECTORS)
        (I.seen images.old).sectors_read (I.seen images.new).sectors_read (K.gained sink.old) (K.gained sink.new)) }
    ensures reads { OnlyReads (I.seen images.old) (I.seen images.new)
        (needed_sectors geo.now 0 (rows * geo.now.head.chunk)) }
    ensures later { K.faults sink.old ≤ K.faults sink.new }
    ensures faults { Faults (I.seen images.old).faults (I.seen images.new).faults (K.faults sink.old) (K.faults sink.new) result }
    ensures ends { IfErr result IsFault }
{
    let mut first = 0;
    while first < rows {
        let count = batch.min(rows - first);
        write_batch(images, pending, sink, regions, geo, first, count)?;
        first += count;
    }
    Ok(())
}

/// Writes the volume, with room for `batch` rows and while nothing waits.
#[tactic(auto, using(crate::proofs::Sets::served_head, crate::proofs::Sets::served_testable))]
fn write_all<I: Images, K: Sink>(
    images: &mut I,
    pending: &mut Pending,
    sink: &mut K,
    regions: &mut Members,
    geo: &Geometry,
    end: u64,
    batch: u64,
) -> Result<(), VolumeFault>
    requires set { IsServed geo.now end (I.seen images.old).attached }
    requires empty { pending.old ≡ [] }
    requires room { IsRoomFor (length geo.now.slots.items) (batch * geo.now.head.chunk) regions.old }
    requires batch { 1 ≤ batch }
    ensures put { IfSome (told_all (I.seen images.old).attached)
        (λ bytes. Puts (K.gained sink.old) (K.gained sink.new) result (volume bytes geo.now end)) }
    ensures whole { IsErrOf result VolumeFault.ReadFault → IfSome (told_all (I.seen images.old).attached)
        (λ bytes. AppendsSectors (K.gained sink.old) (K.gained sink.new) (volume bytes geo.now end)) }
    ensures ahead { IfSome (told_all (I.seen images.old).attached)
        (λ bytes. IsAhead (data_blocks_of geo.now.head * (batch * geo.now.head.chunk) + BLOCK_SECTORS)
        (I.seen images.old).sectors_read (I.seen images.new).sectors_read (K.gained sink.old) (K.gained sink.new)) }
    ensures reads { OnlyReads (I.seen images.old) (I.seen images.new) (volume_sectors geo.now.head end) }
    ensures later { K.faults sink.old ≤ K.faults sink.new }
    ensures faults { Faults (I.seen images.old).faults (I.seen images.new).faults (K.faults sink.old) (K.faults sink.new) result }
    ensures ends { IfErr result IsFault }
{
    let rows = rows(&geo.head, end);
    write_rows(images, pending, sink, regions, geo, rows, batch)?;
    pending.flush(sink).map_err(|_| VolumeFault::WriteFault)
}

/// Writes the volume of a set of parameters over the attached images: `volume_sectors` sectors, in
/// their order. Only whole rows before the image sector `end` count.
///
/// Memory may run out only before anything is read or written. After that only a fault of the images or
/// of the sink ends the work: then a prefix of the volume was written, of whole sectors where the images
/// failed. No more sectors are read than the volume has: the present data, and for a lost data block
/// P, or Q where P alone does not tell it.
#[tactic(auto, using(crate::proofs::Sets::served_head, crate::proofs::Sets::served_slots))]
pub fn write_volume<I: Images, K: Sink>(
    alloc: Global,
    images: &mut I,
    geo: &Geometry,
    end: u64,
    sink: &mut K,
) -> Result<(), VolumeFault>
    requires set { IsServed geo.now end (I.seen images.old).attached }
    ensures written { OnOk result (IfSome (told_all (I.seen images.old).attached)
        (λ bytes. Appends (K.gained sink.old) (K.gained sink.new) (volume bytes geo.now end))) }
    ensures front { IfErr result (λ _. IfSome (told_all (I.seen images.old).attached)
        (λ bytes. AppendsFront (K.gained sink.old) (K.gained sink.new) (volume bytes geo.now end))) }
    ensures whole { IsErrOf result VolumeFault.ReadFault → IfSome (told_all (I.seen images.old).attached)
        (λ bytes. AppendsSectors (K.gained sink.old) (K.gained sink.new) (volume bytes geo.now end)) }
    ensures memory { IsErrOf result VolumeFault.Memory →
        (K.gained sink.new ≡ K.gained sink.old) × (I.seen images.new ≡ I.seen images.old) }
    ensures faults { Faults (I.seen images.old).faults (I.seen images.new).faults (K.faults sink.old) (K.faults sink.new) result }
    ensures reads { OnlyReads (I.seen images.old) (I.seen images.new) (volume_sectors geo.now.head end) }

    // At most a batch of rows and what may wait are read beyond what the sink gained, also where it failed.
    ensures ahead { IfSome (told_all (I.seen images.old).attached)
        (λ bytes. IsAhead (most_ahead geo.now.head) (I.seen images.old).sectors_read (I.seen images.new).sectors_read (K.gained sink.old) (K.gained sink.new)) }
    ensures later { K.faults sink.old ≤ K.faults sink.new }
{
    let batch = batch_rows(&geo.head);
    let sectors = (batch * geo.head.chunk) as usize;
    let mut regions = Members::new(alloc, geo.slots.len(), sectors).map_err(
        |_| VolumeFault::Memory,
    )?;
    let mut pending = Pending::new(alloc).map_err(|_| VolumeFault::Memory)?;
    write_all(images, &mut pending, sink, &mut regions, geo, end, batch)
}
