//! One sector that is lost.
ghost use Rattle.std.specs.Prelude.{◌≡◌, ◌+◌, ◌^◌, ◌<◌, length, true, All, IfSome, OnOk};
ghost use Rattle.outside.specs.Attached.{told_all};
ghost use Rattle.outside.specs.Causes.{HasCause};
ghost use Rattle.outside.specs.Seen.{OnlyReads};
ghost use Rattle.raid_params.specs.Size.{data_blocks};
ghost use Rattle.raid_terms.specs.Volume.{member_sector};
ghost use Rattle.member_regions.specs.Members.{IsTestable, Reaches};
ghost use Rattle.lost_members.specs.Needs.{is_data_at};

use crate::reading::read_needed;
use crate::solving::find_data;
use outside::{Failed, Images, SECTOR};
use raid_params::{Geometry, MOST};

/// The bytes of a sector of each member, at most.
const ROW: usize = MOST * SECTOR;

/// Finds a member sector of a slot that holds data there, by what the data of its row are found by, and writes it into `to`,
/// which holds 512 bytes. It takes no memory, and reads at most as many sectors as a row has data.
#[tactic(auto, using(crate::proofs::OneSector::few_slots, row_parity::proofs::Regions::region_inside))]
pub fn find_sector<I: Images>(
    images: &mut I,
    geo: &Geometry,
    slot: usize,
    sector: u64,
    to: &mut [u8],
) -> Result<(), Failed>
    requires set { IsTestable geo.now }
    requires held { All (Reaches (I.seen images.old).attached (geo.now.head.offset + (sector + 1)))
        geo.now.slots.items }
    requires near { geo.now.head.offset + (sector + 1) < 2 ^ 55 }
    requires slot { slot < length geo.now.slots.items }
    requires data { is_data_at geo.now slot sector ≡ true }
    requires to { length to.old ≡ 512 }
    ensures told { OnOk result (IfSome (told_all (I.seen images.old).attached)
        (λ bytes. to.new ≡ member_sector bytes geo.now slot sector)) }
    ensures reads { OnlyReads (I.seen images.old) (I.seen images.new) (data_blocks geo.now.head) }
    ensures cause { HasCause (I.seen images.old).faults (I.seen images.new).faults result }
{
    let mut sectors = [0u8; ROW];
    read_needed(images, geo, &mut sectors, SECTOR, sector, 1)?;
    find_data(geo, &mut sectors, SECTOR, sector, 1);
    let at = SECTOR * slot;
    to.copy_from_slice(&sectors[at..at + SECTOR]);
    Ok(())
}
