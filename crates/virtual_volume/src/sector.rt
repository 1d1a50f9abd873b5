//! One sector of the volume.
ghost use Rattle.std.specs.Prelude.{◌≡◌, ◌+◌, ◌^◌, ◌<◌, length, true, All, IfSome, OnOk};
ghost use Rattle.outside.specs.Attached.{told_all};
ghost use Rattle.outside.specs.Causes.{HasCause};
ghost use Rattle.outside.specs.Seen.{OnlyReads};
ghost use Rattle.raid_params.specs.Size.{data_blocks, volume_sectors};
ghost use Rattle.raid_terms.specs.Volume.{member_sector, volume_sector};
ghost use Rattle.lost_members.specs.Needs.{is_data_at};
ghost use Rattle.member_regions.specs.Members.{IsTestable, Reaches};
ghost use Rattle.virtual_volume.specs.Served.{IsServed};

use address_map::locate;
use lost_members::find_sector;
use member_regions::read_member;
use outside::{Failed, Images};
use raid_params::Geometry;

/// Reads a sector of the volume of a set of parameters into `to`, which holds 512 bytes. Only whole
/// rows before the image sector `end` count.
///
/// A sector that is there is read alone, and a lost one is found as the whole volume is: by the data of its row, and the parity
/// that they are found by. It takes no memory, reads no more sectors than a row has data, and fails only by a fault of the images.
#[tactic(auto, using(crate::proofs::Sets::served_head, crate::proofs::Sets::served_slots, crate::proofs::Sets::served_testable))]
pub fn read_volume<I: Images>(
    images: &mut I,
    geo: &Geometry,
    end: u64,
    sector: u64,
    to: &mut [u8],
) -> Result<(), Failed>
    requires set { IsServed geo.now end (I.seen images.old).attached }
    requires sector { sector < volume_sectors geo.now.head end }
    requires to { length to.old ≡ 512 }
    ensures told { OnOk result (IfSome (told_all (I.seen images.old).attached)
        (λ bytes. to.new ≡ volume_sector bytes geo.now sector)) }
    ensures reads { OnlyReads (I.seen images.old) (I.seen images.new) (data_blocks geo.now.head) }
    ensures cause { HasCause (I.seen images.old).faults (I.seen images.new).faults result }
{
    match locate(&geo.head, end, sector) {
        Some(home) => read_sector(images, geo, home.slot as usize, home.sector, to),
        None => Ok(()),
    }
}

/// Reads a sector of the member of a slot, which holds data there, or finds it where the member is missing.
fn read_sector<I: Images>(
    images: &mut I,
    geo: &Geometry,
    slot: usize,
    sector: u64,
    to: &mut [u8],
) -> Result<(), Failed>
    requires set { IsTestable geo.now }
    requires held { All (Reaches (I.seen images.old).attached (geo.now.head.offset + (sector + 1)))
        geo.now.slots.items }
    requires near { geo.now.head.offset + (sector + 1) < 2 ^ 55 }
    requires slot { slot < length geo.now.slots.items }
    requires data { is_data_at geo.now slot sector ≡ true }
    requires to { length to.old ≡ 512 }
    ensures told { OnOk result (IfSome (told_all (I.seen images.old).attached)
        (λ bytes. to.new ≡ member_sector bytes geo.now slot sector)) }
    ensures reads { OnlyReads (I.seen images.old) (I.seen images.new) (data_blocks geo.now.head) }
    ensures cause { HasCause (I.seen images.old).faults (I.seen images.new).faults result }
{
    let held = geo.slots[slot];
    match held {
        Some(_) => read_member(images, held, geo.head.offset, sector, to),
        None => find_sector(images, geo, slot, sector, to),
    }
}
