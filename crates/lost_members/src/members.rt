//! The members of a set in memory, of which lost ones are found.
ghost use Rattle.std.specs.Prelude.{ℕ, List, ◌≡◌, ◌+◌, ◌*◌, ◌^◌, ◌<◌, ◌≤◌, All, IfOk, IfSome, None, OnOk, length, replicate, slice_index_or, slice_range};
ghost use Rattle.outside.specs.Attached.{told_all};
ghost use Rattle.outside.specs.Causes.{HasCause};
ghost use Rattle.outside.specs.Seen.{OnlyReads};
ghost use Rattle.member_regions.specs.Members.{HoldBytes, IsTestable, Reaches};
ghost use Rattle.member_regions.specs.Regions.{HoldSlot, IsRoomFor, KeepsRoom};
ghost use Rattle.lost_members.specs.Needs.{HoldData, HoldNeeded, needed_sectors};

use crate::reading::read_needed;
use crate::solving::{find_data, find_parity};
use member_regions::zeros;
use outside::{Failed, Images, Memory, SECTOR};
use raid_params::Geometry;
use std::alloc::Global;
use std::marker::Model;

/// A region of sectors for each member of a set, one region after the other, in which lost members are found.
///
/// Contracts see for how many members, the bytes of a region and all bytes.
#[derive(Drop)]
pub struct Members {
    members: usize,
    /// The bytes of a region.
    stride: usize,
    sectors: Vec<u8>,
}

impl Model for Members {
    ghost use Rattle.std.specs.Prelude.{◌≡◌, ◌*◌, length};
    ghost use Rattle.member_regions.specs.Regions.{Room};

    ghost Value = { Room };

    ghost view = { λ r. record { members = r.members; stride = r.stride; bytes = r.sectors.items } };

    ghost invariant = { λ r. length r.sectors.items ≡ r.stride * r.members };
}

impl Members {
    /// Room for `sectors` sectors of each of `members` members.
    pub fn new(alloc: Global, members: usize, sectors: usize) -> Result<Members, Memory>
        ensures room { IfOk result (λ r. (r.members ≡ members) × (r.stride ≡ 512 * sectors)) }
        ensures zeros { IfOk result (λ r. r.bytes ≡ replicate (512 * sectors * members) 0) }
    {
        let stride = sectors.checked_mul(SECTOR).ok_or(Memory)?;
        let bytes = stride.checked_mul(members).ok_or(Memory)?;
        let sectors = zeros(alloc, bytes)?;
        Ok(Members {
            members,
            stride,
            sectors,
        })
    }

    /// Reads those of `count` sectors of each member, from member sector `first` on, that the data are
    /// found by.
    #[tactic(auto, using(member_regions::proofs::Room::room_inside))]
    pub fn read_needed<I: Images>(
        &mut self,
        geo: &Geometry,
        images: &mut I,
        first: u64,
        count: usize,
    ) -> Result<(), Failed>
        requires room { IsRoomFor (length geo.now.slots.items) count self.old }
        requires set { IsTestable geo.now }
        requires held { All (Reaches (I.seen images.old).attached (geo.now.head.offset + (first + count)))
            geo.now.slots.items }
        requires near { geo.now.head.offset + (first + count) < 2 ^ 55 }
        requires some { 1 ≤ count }
        ensures room { KeepsRoom self.old self.new }
        ensures told { OnOk result (IfSome (told_all (I.seen images.old).attached)
            (λ bytes. HoldNeeded bytes geo.now self.new.stride first count self.new.bytes)) }
        ensures reads { OnlyReads (I.seen images.old) (I.seen images.new) (needed_sectors geo.now first count) }
        ensures cause { HasCause (I.seen images.old).faults (I.seen images.new).faults result }
    {
        read_needed(images, geo, &mut self.sectors, self.stride, first, count)
    }

    /// Finds the lost data among the `count` sectors of each missing member, from member sector `first`
    /// on, by the needed ones. What else the regions hold may change.
    #[tactic(auto, using(member_regions::proofs::Room::room_inside))]
    pub fn solve_data(&mut self, geo: &Geometry, first: u64, count: usize)
        requires room { IsRoomFor (length geo.now.slots.items) count self.old }
        requires set { IsTestable geo.now }
        requires first { first + count < 2 ^ 55 }
        ensures room { KeepsRoom self.old self.new }
        ensures found { (bytes : List (List ℕ)) →
            HoldNeeded bytes geo.now self.old.stride first count self.old.bytes →
            HoldData bytes geo.now self.new.stride first count self.new.bytes }
    {
        find_data(geo, &mut self.sectors, self.stride, first, count);
    }

    /// Finds the lost parity among the `count` sectors of the missing member of a slot, from member sector
    /// `first` on, by the data, read or found.
    #[tactic(auto, using(member_regions::proofs::Room::room_inside))]
    pub fn solve_parity(&mut self, geo: &Geometry, slot: usize, first: u64, count: usize)
        requires room { IsRoomFor (length geo.now.slots.items) count self.old }
        requires set { IsTestable geo.now }
        requires slot { slot < length geo.now.slots.items }
        requires missing { slice_index_or geo.now.slots.items slot None ≡ None }
        requires first { first + count < 2 ^ 55 }
        ensures room { KeepsRoom self.old self.new }
        ensures found { (bytes : List (List ℕ)) → HoldBytes bytes →
            HoldData bytes geo.now self.old.stride first count self.old.bytes →
            HoldSlot bytes geo.now self.new.stride first count slot self.new.bytes }
    {
        find_parity(geo, slot, &mut self.sectors, self.stride, first, count);
    }

    /// The `count` sectors of the region of a slot from its sector `at` on.
    #[tactic(auto, using(member_regions::proofs::Room::room_inside, row_parity::proofs::Regions::region_inside))]
    pub fn region(&self, slot: usize, at: usize, count: usize) -> &[u8]
        requires room { IsRoomFor (slot + 1) (at + count) self.now }
        ensures long { length result.now ≡ 512 * count }
        ensures sectors { result.now ≡ slice_range self.now.bytes (self.now.stride * slot + 512 * at)
            (self.now.stride * slot + 512 * at + 512 * count) }
    {
        let start = self.stride * slot + SECTOR * at;
        &self.sectors[start..start + SECTOR * count]
    }
}
