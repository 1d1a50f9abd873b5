//! Sectors of the volume, read from where they lie.
ghost use Rattle.std.specs.Prelude.{◌≡◌, ◌+◌, ◌*◌, ◌%◌, ◌/◌, ◌<◌, ◌≤◌, if◌then◌else◌, IfSome, OnOk, None, length, true, slice_index_or};
ghost use Rattle.std.specs.Option.{is_some};
ghost use Rattle.outside.specs.Attached.{told_all};
ghost use Rattle.outside.specs.Causes.{HasCause};
ghost use Rattle.raid_params.specs.Size.{data_blocks, volume_sectors};
ghost use Rattle.volume_device.specs.Cost.{is_there, part_cost};
ghost use Rattle.volume_device.specs.Kept.{CanKeep, CanRead, HasRead, LieAmong, is_among};
ghost use Rattle.volume_device.specs.Sectors.{AreData, AreSectors, run_of};

use crate::kept::Kept;
use address_map::locate;
use member_regions::read_member;
use outside::{Failed, Images, SECTOR};
use raid_params::Geometry;

/// Reads sectors of the volume from number `first` on, which lie in one chunk: where they are kept they are copied, where their
/// member is there they are read alone, and else they are found.
fn read_chunk<I: Images>(
    images: &mut I,
    kept: &mut Kept,
    geo: &Geometry,
    end: u64,
    first: u64,
    to: &mut [u8],
) -> Result<(), Failed>
    requires can { CanRead geo.now end geo.now.head.chunk (I.seen images.old).attached kept.old }
    requires whole { length to.old % 512 ≡ 0 }
    requires some { 0 < length to.old }
    requires chunk { first % geo.now.head.chunk + length to.old / 512 ≤ geo.now.head.chunk }
    requires inside { first < volume_sectors geo.now.head end }
    ensures told { OnOk result (AreSectors (I.seen images.old).attached geo.now first (length to.old / 512) to.new) }
    ensures still { LieAmong geo.now.head kept.old.first kept.old.count first (length to.old / 512) →
        (kept.new ≡ kept.old) × (I.seen images.new ≡ I.seen images.old) }
    ensures read { HasRead geo.now
        (if is_there geo.now first then length to.old / 512 else data_blocks geo.now.head * (length to.old / 512))
        (I.seen images.old) (I.seen images.new) kept.old kept.new }
    ensures cause { HasCause (I.seen images.old).faults (I.seen images.new).faults result }
{
    let Some(home) = locate(&geo.head, end, first) else {
        return Ok(());
    };
    let count = to.len() / SECTOR;
    let held = geo.slots[home.slot as usize];
    if held.is_some() && !kept.has(home.sector, count) {
        return read_member(images, held, geo.head.offset, home.sector, to);
    }
    kept.fill(images, geo, home.sector, count)?;
    kept.copy(home.slot as usize, home.sector, to);
    Ok(())
}

/// Reads sectors of the volume from number `first` on, a run of one chunk after the other.
pub(crate) fn read_part<I: Images>(
    images: &mut I,
    kept: &mut Kept,
    geo: &Geometry,
    end: u64,
    first: u64,
    to: &mut [u8],
) -> Result<(), Failed>
    requires can { CanRead geo.now end geo.now.head.chunk (I.seen images.old).attached kept.old }
    requires whole { length to.old % 512 ≡ 0 }
    requires inside { first + length to.old / 512 ≤ volume_sectors geo.now.head end }
    ensures told { OnOk result (AreSectors (I.seen images.old).attached geo.now first (length to.old / 512) to.new) }
    ensures still { LieAmong geo.now.head kept.old.first kept.old.count first (length to.old / 512) →
        (kept.new ≡ kept.old) × (I.seen images.new ≡ I.seen images.old) }
    ensures read { HasRead geo.now (part_cost geo.now first (length to.old / 512)) (I.seen images.old) (I.seen images.new) kept.old kept.new }
    ensures cause { HasCause (I.seen images.old).faults (I.seen images.new).faults result }
{
    let count = (to.len() / SECTOR) as u64;
    let chunk = geo.head.chunk;
    let mut at = 0;
    while at < count {
        let sector = first + at;
        let next = at + (chunk - sector % chunk).min(count - at);
        let run = &mut to[SECTOR * at as usize..SECTOR * next as usize];
        read_chunk(images, kept, geo, end, sector, run)?;
        at = next;
    }
    Ok(())
}
