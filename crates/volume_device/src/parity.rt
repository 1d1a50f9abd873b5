//! The volume of a set of level 0, 4, 5 or 6 as a device.
ghost use Rattle.std.specs.Prelude.{◌≡◌, false};
ghost use Rattle.std.proofs.Props.{props};
ghost use Rattle.block_device.specs.Content.{fixed_behind};
ghost use Rattle.block_device.specs.Reading.{Costs, counts_of, fails_never_lost};
ghost use Rattle.outside.specs.Attached.{told_all};
ghost use Rattle.raid_params.specs.Size.{volume_sectors as volume_sectors_of};
ghost use Rattle.virtual_volume.specs.Served.{IsServed};
ghost use Rattle.volume_device.specs.Cost.{range_cost};
ghost use Rattle.volume_device.specs.Kept.{CanRead, IsNew, most_kept};
ghost use Rattle.volume_device.specs.Lengths.{volume_told, volume_whole};

use crate::kept::Kept;
use crate::ranges::read_range;
use address_map::volume_sectors;
use block_device::BlockDevice;
use outside::{Failed, Images};
use raid_params::Geometry;

/// The volume of a set over attached images, as a device.
///
/// Its memory is taken before, a region for each member, and lent to it. A read takes none.
#[derive(Drop)]
pub struct ParityDevice<'a, I: Images> {
    images: &'a mut I,
    geo: &'a Geometry,
    end: u64,
    kept: &'a mut Kept,
    ghost can: { CanRead geo.now end (most_kept geo.now.head) (I.seen images.now).attached kept.now } by { Prim.hlevel props },
}

impl<'a, I: Images> ParityDevice<'a, I> {
    /// The volume of a set of parameters over the attached images. Only whole rows before the image sector `end` count. Nothing
    /// is read. `kept` is new memory for the set.
    pub fn new(
        images: &'a mut I,
        geo: &'a Geometry,
        end: u64,
        kept: &'a mut Kept,
    ) -> ParityDevice<'a, I>
        requires set { IsServed geo.now end (I.seen images.old).attached }
        requires memory { IsNew geo.now kept.old }
        ensures same_reference { result.images.ghost_name ≡ images.entry.ghost_name }
        ensures within { result.images.now ≡ images.old }
        ensures volume { (result.geo.now ≡ geo.now) × (result.end ≡ end) }
    {
        ParityDevice {
            images,
            geo,
            end,
            kept,
        }
    }
}

impl<'a, I: Images> BlockDevice for ParityDevice<'a, I> {
    ghost content = { λ d. volume_told (told_all (I.seen d.images.now).attached) d.geo.now d.end };

    ghost size = { λ d. volume_sectors_of d.geo.now.head d.end };

    ghost lost = { λ d v. false };

    ghost faults = { λ d. (I.seen d.images.now).faults };

    ghost fixed = { λ d. fixed_behind I.seen d.images };

    // No more sectors of the images are read than those that are asked for cost, and a reading fails just where an image does.
    ghost reads = { λ before asked failed after.
        Costs (range_cost before.geo.now asked.first asked.count) failed (counts_of (I.seen before.images.now)) (counts_of (I.seen after.images.now))
        × (after.geo.now ≡ before.geo.now) × (after.end ≡ before.end) };

    ghost whole = { λ d. volume_whole (told_all (I.seen d.images.now).attached) d.geo.now d.end };

    ghost fails = { λ before asked failed after read. fails_never_lost asked failed (I.seen before.images.now).faults (I.seen after.images.now).faults read.0.faults };

    fn sectors(&self) -> u64 {
        volume_sectors(&self.geo.head, self.end)
    }

    fn read(&mut self, first: u64, to: &mut [u8]) -> Result<(), Failed> {
        read_range(self.images, self.kept, self.geo, self.end, first, to)
    }
}
