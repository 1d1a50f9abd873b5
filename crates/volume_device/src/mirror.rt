//! The volume of a mirror as a device.
ghost use Rattle.std.specs.Prelude.{◌≡◌, false};
ghost use Rattle.block_device.specs.Content.{fixed_behind};
ghost use Rattle.block_device.specs.Reading.{Costs, counts_of, fails_never_lost};
ghost use Rattle.outside.specs.Attached.{told_all};
ghost use Rattle.near_mirror.specs.Copies.{near_sectors};
ghost use Rattle.near_volume.specs.Mirrored.{IsMirrored};
ghost use Rattle.volume_device.specs.Lengths.{mirror_told, mirror_whole};

use block_device::BlockDevice;
use near_mirror::NearSet;
use near_volume::read_near;
use outside::{Failed, Images};

/// The volume of a mirror over attached images, as a device. It takes no memory.
#[derive(Drop)]
pub struct MirrorDevice<'a, I: Images> {
    images: &'a mut I,
    set: &'a NearSet,
    end: u64,
    ghost mirrored: { IsMirrored set.now end (I.seen images.now).attached },
}

impl<'a, I: Images> MirrorDevice<'a, I> {
    /// The volume of a mirror over the attached images. Only whole rows before the image sector `end` count. Nothing is read.
    pub fn new(images: &'a mut I, set: &'a NearSet, end: u64) -> MirrorDevice<'a, I>
        requires set { IsMirrored set.now end (I.seen images.old).attached }
        ensures same_reference { result.images.ghost_name ≡ images.entry.ghost_name }
        ensures within { result.images.now ≡ images.old }
        ensures volume { (result.set.now ≡ set.now) × (result.end ≡ end) }
    {
        MirrorDevice { images, set, end }
    }
}

impl<'a, I: Images> BlockDevice for MirrorDevice<'a, I> {
    ghost content = { λ d. mirror_told (told_all (I.seen d.images.now).attached) d.set.now d.end };

    ghost size = { λ d. near_sectors d.set.now.head d.end };

    ghost lost = { λ d v. false };

    ghost faults = { λ d. (I.seen d.images.now).faults };

    ghost fixed = { λ d. fixed_behind I.seen d.images };

    // No more sectors of the images are read than are asked for, and a reading fails just where an image does.
    ghost reads = { λ before asked failed after. Costs asked.count failed (counts_of (I.seen before.images.now)) (counts_of (I.seen after.images.now)) };

    ghost whole = { λ d. mirror_whole (told_all (I.seen d.images.now).attached) d.set.now d.end };

    ghost fails = { λ before asked failed after read. fails_never_lost asked failed (I.seen before.images.now).faults (I.seen after.images.now).faults read.faults };

    fn sectors(&self) -> u64 {
        self.set.head.volume_sectors(self.end)
    }

    fn read(&mut self, first: u64, to: &mut [u8]) -> Result<(), Failed> {
        read_near(self.images, self.set, self.end, first, to)
    }
}
