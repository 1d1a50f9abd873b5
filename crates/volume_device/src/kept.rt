//! Sectors of all members, kept in memory.
ghost use Rattle.std.specs.Prelude.{ℕ, List, ◌≡◌, ◌+◌, ◌*◌, ◌%◌, ◌/◌, ◌^◌, ◌<◌, ◌≤◌, IfOk, OnOk, length, true};
ghost use Rattle.outside.specs.Causes.{HasCause};
ghost use Rattle.raid_params.specs.Size.{data_blocks};
ghost use Rattle.raid_params.specs.declared.types.Geometry.{Geometry as Set};
ghost use Rattle.member_regions.specs.Regions.{IsRoomFor};
ghost use Rattle.lost_members.specs.Needs.{HoldData};
ghost use Rattle.volume_device.specs.Kept.{CanKeep, HasRead, IsNew, is_among};
ghost use Rattle.volume_device.specs.Sectors.{AreData, run_of};

use lost_members::Members;
use member_regions::BLOCK;
use outside::{Failed, Images, Memory, SECTOR};
use raid_params::Geometry;
use std::alloc::Global;

/// The memory of a [`ParityDevice`](crate::ParityDevice): sectors of all members, side by side in regions, with the lost data among them
/// found. They stay until others are asked for.
#[derive(Drop)]
pub struct Kept {
    regions: Members,
    /// The first member sector.
    first: u64,
    /// How many there are.
    count: usize,
}

impl Kept {
    /// Room for a chunk of each member of a set, or for `BLOCK` sectors where chunks are smaller. None is kept.
    pub fn new(alloc: Global, geo: &Geometry) -> Result<Kept, Memory>
        ensures { IfOk result (IsNew geo.now) }
    {
        let sectors = geo.head.chunk.max(BLOCK as u64) as usize;
        let regions = Members::new(alloc, geo.slots.len(), sectors)?;
        Ok(Kept {
            regions,
            first: 0,
            count: 0,
        })
    }

    /// Whether `count` member sectors from `first` on are kept.
    pub(crate) fn has(&self, first: u64, count: usize) -> bool
        requires near { first + count < 2 ^ 55 }
        requires kept { self.now.first + self.now.count < 2 ^ 55 }
        ensures { result ≡ is_among self.now.first self.now.count first count }
    {
        self.first <= first && first + count as u64 <= self.first + self.count as u64
    }

    /// Has `count` member sectors from `first` on kept: reads of the members what the data are found by, and finds the lost
    /// data, unless they are kept.
    pub(crate) fn fill<I: Images>(
        &mut self,
        images: &mut I,
        geo: &Geometry,
        first: u64,
        count: usize,
    ) -> Result<(), Failed>
        requires can { CanKeep geo.now first count (I.seen images.old).attached self.old }
        requires some { 1 ≤ count }
        ensures among { OnOk result (is_among self.new.first self.new.count first count ≡ true) }
        ensures still { is_among self.old.first self.old.count first count ≡ true →
            (self.new ≡ self.old) × (I.seen images.new ≡ I.seen images.old) }
        ensures read { HasRead geo.now (data_blocks geo.now.head * count) (I.seen images.old) (I.seen images.new) self.old self.new }
        ensures cause { HasCause (I.seen images.old).faults (I.seen images.new).faults result }
    {
        if self.has(first, count) {
            return Ok(());
        }
        self.count = 0;
        self.regions.read_needed(geo, images, first, count)?;
        self.regions.solve_data(geo, first, count);
        self.first = first;
        self.count = count;
        Ok(())
    }

    /// Copies kept sectors of the member of a slot, from member sector `sector` on.
    pub(crate) fn copy(&self, slot: usize, sector: u64, to: &mut [u8])
        requires room { IsRoomFor (slot + 1) self.now.count self.now.regions }
        requires kept { self.now.first + self.now.count < 2 ^ 55 }
        requires whole { length to.old % 512 ≡ 0 }
        requires among { is_among self.now.first self.now.count sector (length to.old / 512) ≡ true }
        ensures { (images : List (List ℕ)) (geo : Set) → slot < length geo.slots.items →
            HoldData images geo self.now.regions.stride self.now.first self.now.count self.now.regions.bytes →
            AreData geo slot sector (length to.old / 512) → to.new ≡ run_of images geo slot sector (length to.old / 512) }
    {
        let at = (sector - self.first) as usize;
        to.copy_from_slice(self.regions.region(slot, at, to.len() / SECTOR));
    }
}
