//! The volume of damaged images as a device.
ghost use Rattle.std.specs.Prelude.{◌≡◌, ◌*◌, length};
ghost use Rattle.std.proofs.Props.{props};
ghost use Rattle.block_device.specs.Content.{fixed_behind};
ghost use Rattle.block_device.specs.Reading.{Answers, counts_of, is_any_lost};
ghost use Rattle.outside.specs.Attached.{told_all};
ghost use Rattle.raid_params.specs.Size.{volume_sectors as volume_sectors_of};
ghost use Rattle.rescue_map.specs.Damaged.{is_lost};
ghost use Rattle.rescue_map.specs.Salvaged.{reads_for_all};
ghost use Rattle.virtual_volume.specs.Served.{IsServed};
ghost use Rattle.volume_device.specs.Kept.{IsNew};
ghost use Rattle.damaged_device.specs.Cost.{damaged_cost, fails_by};
ghost use Rattle.damaged_device.specs.Lengths.{salvaged_told, salvaged_whole};
ghost use Rattle.damaged_device.specs.Reading.{CanReadDamaged};

use crate::reading::read_steps;
use address_map::volume_sectors;
use block_device::BlockDevice;
use outside::{Failed, Images, SECTOR};
use rescue_map::{Damage, has_lost};
use volume_device::Kept;

/// The volume of a set over attached images that have unreadable areas, as a device.
///
/// Its memory is taken before, and lent to it. A read takes none.
#[derive(Drop)]
pub struct DamagedDevice<'a, I: Images> {
    images: &'a mut I,
    damage: &'a Damage<'a>,
    kept: &'a mut Kept,
    row: &'a mut [u8],
    ghost can: { CanReadDamaged damage.now.set.now damage.now.end (I.seen images.now).attached kept.now row.now } by { Prim.hlevel props },
}

impl<'a, I: Images> DamagedDevice<'a, I> {
    /// The volume of a set of parameters over the attached images, by what was read of them. Images of a set with bases of their own are
    /// padded before. Nothing is read. `kept` is new memory for the set, and `row` room for a sector of each member.
    pub fn new(
        images: &'a mut I,
        damage: &'a Damage<'a>,
        kept: &'a mut Kept,
        row: &'a mut [u8],
    ) -> DamagedDevice<'a, I>
        requires set { IsServed damage.now.set.now.geo damage.now.end (I.seen images.old).attached }
        requires memory { IsNew damage.now.set.now.geo kept.old }
        requires row { length row.old ≡ 512 * length damage.now.set.now.geo.slots.items }
        ensures same_reference { result.images.ghost_name ≡ images.entry.ghost_name }
        ensures within { result.images.now ≡ images.old }
        ensures damage { result.damage.now ≡ damage.now }
    {
        DamagedDevice {
            images,
            damage,
            kept,
            row,
        }
    }
}

impl<'a, I: Images> BlockDevice for DamagedDevice<'a, I> {
    ghost content = { λ d. salvaged_told (told_all (I.seen d.images.now).attached) d.damage.now.rescue.now d.damage.now.set.now d.damage.now.end };

    ghost size = { λ d. volume_sectors_of d.damage.now.set.now.geo.head d.damage.now.end };

    ghost lost = { λ d. is_lost d.damage.now.rescue.now d.damage.now.set.now };

    ghost faults = { λ d. (I.seen d.images.now).faults };

    ghost fixed = { λ d. fixed_behind I.seen d.images };

    // No more sectors of the images are read than the writing of those that are asked for reads, and none where one of these is lost.
    ghost reads = { λ before asked failed after.
        Answers (damaged_cost before.damage.now.rescue.now before.damage.now.set.now asked) failed (counts_of (I.seen before.images.now)) (counts_of (I.seen after.images.now))
        × (after.damage.now ≡ before.damage.now) };

    ghost whole = { λ d. salvaged_whole (told_all (I.seen d.images.now).attached) d.damage.now.rescue.now d.damage.now.set.now d.damage.now.end };

    ghost fails = { λ before asked failed after read. fails_by (is_any_lost (is_lost before.damage.now.rescue.now before.damage.now.set.now) asked)
        (reads_for_all before.damage.now.rescue.now before.damage.now.set.now asked.first asked.count) failed (counts_of (I.seen before.images.now)) (counts_of (I.seen after.images.now)) read.0 };

    fn sectors(&self) -> u64 {
        volume_sectors(&self.damage.set.geo.head, self.damage.end)
    }

    fn read(&mut self, first: u64, to: &mut [u8]) -> Result<(), Failed> {
        if has_lost(self.damage, first, (to.len() / SECTOR) as u64) {
            return Err(Failed);
        }
        read_steps(self.images, self.damage, self.kept, self.row, first, to)
    }
}
