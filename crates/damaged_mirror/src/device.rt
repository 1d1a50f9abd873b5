//! The volume of a mirror of damaged images as a device.
ghost use Rattle.std.specs.Prelude.{◌≡◌};
ghost use Rattle.block_device.specs.Content.{fixed_behind};
ghost use Rattle.block_device.specs.Reading.{Answers, counts_of, is_any_lost};
ghost use Rattle.outside.specs.Attached.{told_all};
ghost use Rattle.damaged_device.specs.Cost.{fails_by};
ghost use Rattle.near_mirror.specs.Copies.{near_sectors};
ghost use Rattle.near_volume.specs.Mirrored.{IsMirrored};
ghost use Rattle.damaged_mirror.specs.Damaged.{is_lost, mended_cost};
ghost use Rattle.damaged_mirror.specs.Lengths.{mended_told, mended_whole};

use crate::good::MirrorDamage;
use crate::reading::read_damaged;
use block_device::BlockDevice;
use outside::{Failed, Images};

/// The volume of a mirror over attached images that have unreadable areas, as a device. It takes no memory.
#[derive(Drop)]
pub struct DamagedMirror<'a, I: Images> {
    images: &'a mut I,
    damage: &'a MirrorDamage<'a>,
    ghost mirrored: { IsMirrored damage.now.set.now damage.now.end (I.seen images.now).attached },
}

impl<'a, I: Images> DamagedMirror<'a, I> {
    /// The volume of a mirror over the attached images, by what was read of them. Only whole rows before the end count. Nothing is read.
    pub fn new(images: &'a mut I, damage: &'a MirrorDamage<'a>) -> DamagedMirror<'a, I>
        requires set { IsMirrored damage.now.set.now damage.now.end (I.seen images.old).attached }
        ensures same_reference { result.images.ghost_name ≡ images.entry.ghost_name }
        ensures within { result.images.now ≡ images.old }
        ensures damage { result.damage.now ≡ damage.now }
    {
        DamagedMirror { images, damage }
    }
}

impl<'a, I: Images> BlockDevice for DamagedMirror<'a, I> {
    ghost content = { λ d. mended_told (told_all (I.seen d.images.now).attached) d.damage.now.rescue.now d.damage.now.set.now d.damage.now.end };

    ghost size = { λ d. near_sectors d.damage.now.set.now.head d.damage.now.end };

    ghost lost = { λ d. is_lost d.damage.now.rescue.now d.damage.now.set.now d.damage.now.end };

    ghost faults = { λ d. (I.seen d.images.now).faults };

    ghost fixed = { λ d. fixed_behind I.seen d.images };

    // No more sectors of the images are read than are asked for, and none where one of these is lost.
    ghost reads = { λ before asked failed after.
        Answers (mended_cost before.damage.now.rescue.now before.damage.now.set.now before.damage.now.end asked) failed (counts_of (I.seen before.images.now)) (counts_of (I.seen after.images.now))
        × (after.damage.now ≡ before.damage.now) };

    ghost whole = { λ d. mended_whole (told_all (I.seen d.images.now).attached) d.damage.now.rescue.now d.damage.now.set.now d.damage.now.end };

    ghost fails = { λ before asked failed after read. fails_by (is_any_lost (is_lost before.damage.now.rescue.now before.damage.now.set.now before.damage.now.end) asked)
        asked.count failed (counts_of (I.seen before.images.now)) (counts_of (I.seen after.images.now)) read.0 };

    fn sectors(&self) -> u64 {
        self.damage.set.head.volume_sectors(self.damage.end)
    }

    fn read(&mut self, first: u64, to: &mut [u8]) -> Result<(), Failed> {
        read_damaged(self.images, self.damage, first, to)
    }
}
