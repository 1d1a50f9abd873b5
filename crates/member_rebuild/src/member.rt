//! A missing member, written out.
ghost use Rattle.std.specs.Prelude.{◌≡◌, ◌+◌, ◌*◌, ◌^◌, ◌<◌, ◌≤◌, length, slice_index_or, None, All, IfErr, IfSome, OnOk};
ghost use Rattle.std.specs.Io.KnownBytes.{Appends};
ghost use Rattle.std.specs.Result.{IsErrOf};
ghost use Rattle.outside.specs.Attached.{told_all};
ghost use Rattle.outside.specs.Seen.{OnlyReads};
ghost use Rattle.outside.specs.Streams.{AppendsFront, AppendsSectors, Puts};
ghost use Rattle.raid_params.specs.Size.{data_blocks, volume_sectors};
ghost use Rattle.raid_terms.specs.Volume.{member};
ghost use Rattle.member_regions.specs.Members.{IsTestable, Reaches};
ghost use Rattle.member_regions.specs.Regions.{IsRoomFor, KeepsRoom};
ghost use Rattle.member_regions.specs.declared.regions.TheConstants.{BLOCK as BLOCK_SECTORS};
ghost use Rattle.virtual_volume.specs.Served.{Faults, IsFault, IsServed};
ghost use Rattle.member_rebuild.specs.Sectors.{IsAheadBy, sectors_of};

use address_map::area;
use lost_members::Members;
use member_regions::BLOCK;
use outside::{Images, Sink};
use raid_params::Geometry;
use std::alloc::Global;
use virtual_volume::VolumeFault;

/// Writes the `count` sectors of the missing member of a slot from sector `first` on.
fn write_block<I: Images, K: Sink>(
    images: &mut I,
    sink: &mut K,
    regions: &mut Members,
    geo: &Geometry,
    slot: usize,
    first: u64,
    count: usize,
) -> Result<(), VolumeFault>
    requires set { IsTestable geo.now }
    requires held { All (Reaches (I.seen images.old).attached (geo.now.head.offset + (first + count)))
        geo.now.slots.items }
    requires near { geo.now.head.offset + (first + count) < 2 ^ 55 }
    requires some { 1 ≤ count }
    requires room { IsRoomFor (length geo.now.slots.items) count regions.old }
    requires slot { slot < length geo.now.slots.items }
    requires missing { slice_index_or geo.now.slots.items slot None ≡ None }
    ensures put { IfSome (told_all (I.seen images.old).attached)
        (λ bytes. Puts (K.gained sink.old) (K.gained sink.new) result (sectors_of bytes geo.now slot first count)) }
    ensures unput { IsErrOf result VolumeFault.ReadFault → K.gained sink.new ≡ K.gained sink.old }
    ensures reads { OnlyReads (I.seen images.old) (I.seen images.new) (data_blocks geo.now.head * count) }
    ensures later { K.faults sink.old ≤ K.faults sink.new }
    ensures faults { Faults (I.seen images.old).faults (I.seen images.new).faults (K.faults sink.old) (K.faults sink.new) result }
    ensures ends { IfErr result IsFault }
    ensures room { KeepsRoom regions.old regions.new }
{
    regions
        .read_needed(geo, images, first, count)
        .map_err(|_| VolumeFault::ReadFault)?;
    regions.solve_data(geo, first, count);
    regions.solve_parity(geo, slot, first, count);
    sink.put(regions.region(slot, 0, count))
        .map_err(|_| VolumeFault::WriteFault)
}

/// Writes the first `sectors` sectors of the missing member of a slot, in blocks.
fn write_sectors<I: Images, K: Sink>(
    images: &mut I,
    sink: &mut K,
    regions: &mut Members,
    geo: &Geometry,
    slot: usize,
    sectors: u64,
) -> Result<(), VolumeFault>
    requires set { IsTestable geo.now }
    requires held { All (Reaches (I.seen images.old).attached (geo.now.head.offset + sectors)) geo.now.slots.items }
    requires near { geo.now.head.offset + sectors < 2 ^ 55 }
    requires room { IsRoomFor (length geo.now.slots.items) BLOCK regions.old }
    requires slot { slot < length geo.now.slots.items }
    requires missing { slice_index_or geo.now.slots.items slot None ≡ None }
    ensures put { IfSome (told_all (I.seen images.old).attached)
        (λ bytes. Puts (K.gained sink.old) (K.gained sink.new) result (sectors_of bytes geo.now slot 0 sectors)) }
    ensures whole { IsErrOf result VolumeFault.ReadFault → IfSome (told_all (I.seen images.old).attached)
        (λ bytes. AppendsSectors (K.gained sink.old) (K.gained sink.new) (sectors_of bytes geo.now slot 0 sectors)) }
    ensures ahead { IfSome (told_all (I.seen images.old).attached)
        (λ bytes. IsAheadBy (data_blocks geo.now.head) BLOCK_SECTORS (I.seen images.old).sectors_read (I.seen images.new).sectors_read (K.gained sink.old) (K.gained sink.new)) }
    ensures reads { OnlyReads (I.seen images.old) (I.seen images.new) (data_blocks geo.now.head * sectors) }
    ensures later { K.faults sink.old ≤ K.faults sink.new }
    ensures faults { Faults (I.seen images.old).faults (I.seen images.new).faults (K.faults sink.old) (K.faults sink.new) result }
    ensures ends { IfErr result IsFault }
{
    let mut first = 0;
    while first < sectors {
        let count = (BLOCK as u64).min(sectors - first);
        write_block(images, sink, regions, geo, slot, first, count as usize)?;
        first += count;
    }
    Ok(())
}

/// Writes a missing member of a set of parameters over the attached images: the member of an empty
/// slot, from its data offset on, to the end of the whole rows before the image sector `end`.
///
/// Memory may run out only before anything is read or written. After that only a fault of the images or
/// of the sink ends the work: then a prefix of the member was written, of whole sectors where the images
/// failed. No more sectors are read than the volume has: the present data, and for a lost data block
/// P, or Q where P alone does not tell it.
#[tactic(auto, using(virtual_volume::proofs::Sets::served_head, virtual_volume::proofs::Sets::served_slots, virtual_volume::proofs::Sets::served_testable))]
pub fn rebuild<I: Images, K: Sink>(
    alloc: Global,
    images: &mut I,
    geo: &Geometry,
    end: u64,
    slot: u8,
    sink: &mut K,
) -> Result<(), VolumeFault>
    requires set { IsServed geo.now end (I.seen images.old).attached }
    requires slot { slot < geo.now.head.members }
    requires missing { slice_index_or geo.now.slots.items slot None ≡ None }
    ensures written { OnOk result (IfSome (told_all (I.seen images.old).attached)
        (λ bytes. Appends (K.gained sink.old) (K.gained sink.new) (member bytes geo.now end slot))) }
    ensures front { IfErr result (λ _. IfSome (told_all (I.seen images.old).attached)
        (λ bytes. AppendsFront (K.gained sink.old) (K.gained sink.new) (member bytes geo.now end slot))) }
    ensures whole { IsErrOf result VolumeFault.ReadFault → IfSome (told_all (I.seen images.old).attached)
        (λ bytes. AppendsSectors (K.gained sink.old) (K.gained sink.new) (member bytes geo.now end slot)) }
    ensures memory { IsErrOf result VolumeFault.Memory →
        (K.gained sink.new ≡ K.gained sink.old) × (I.seen images.new ≡ I.seen images.old) }
    ensures faults { Faults (I.seen images.old).faults (I.seen images.new).faults (K.faults sink.old) (K.faults sink.new) result }
    ensures reads { OnlyReads (I.seen images.old) (I.seen images.new) (volume_sectors geo.now.head end) }

    // For each sector that the sink gained, and for those of one block more, at most a row's data blocks are read.
    ensures ahead { IfSome (told_all (I.seen images.old).attached)
        (λ bytes. IsAheadBy (data_blocks geo.now.head) BLOCK_SECTORS (I.seen images.old).sectors_read (I.seen images.new).sectors_read (K.gained sink.old) (K.gained sink.new)) }
    ensures later { K.faults sink.old ≤ K.faults sink.new }
{
    let sectors = area(&geo.head, end);
    let mut regions = Members::new(alloc, geo.slots.len(), BLOCK).map_err(|_| VolumeFault::Memory)?;
    write_sectors(images, sink, &mut regions, geo, slot as usize, sectors)
}
