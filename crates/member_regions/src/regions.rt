//! Room for regions of sectors, one a member.
ghost use Rattle.std.specs.Prelude.{ℕ, List, ◌≡◌, ◌+◌, ◌*◌, ◌^◌, ◌<◌, ◌≤◌, All, IfOk, IfSome, None, OnOk, length, replicate, slice_index_or, slice_range};
ghost use Rattle.outside.specs.Attached.{told_all};
ghost use Rattle.outside.specs.Causes.{HasCause};
ghost use Rattle.outside.specs.Seen.{OnlyReads};
ghost use Rattle.raid_terms.specs.Parity.{is_sound, IsRow};
ghost use Rattle.row_parity.specs.Regions.{region_column};
ghost use Rattle.member_regions.specs.Members.{held, Reaches};
ghost use Rattle.member_regions.specs.Regions.{HoldRead, IsRoomFor, KeepsRoom};

use crate::reading::read_member;
use outside::{Failed, Images, Memory, SECTOR};
use raid_params::Cell;
use row_parity::sectors_hold;
use std::alloc::Global;
use std::marker::Model;

/// The sectors of a member that are read at once where no more are needed, 128 KiB: a read then costs
/// little beside the bytes that it brings, and the regions of 24 members take 3 MiB.
pub const BLOCK: usize = 256;

/// A region of sectors for each member, one region after the other.
///
/// Contracts see for how many members, the bytes of a region and all bytes.
#[derive(Drop)]
pub struct Regions {
    members: usize,
    /// The bytes of a region.
    stride: usize,
    sectors: Vec<u8>,
}

impl Model for Regions {
    ghost use Rattle.std.specs.Prelude.{◌≡◌, ◌*◌, length};
    ghost use Rattle.member_regions.specs.Regions.{Room};

    ghost Value = { Room };

    ghost view = { λ r. record { members = r.members; stride = r.stride; bytes = r.sectors.items } };

    ghost invariant = { λ r. length r.sectors.items ≡ r.stride * r.members };
}

impl Regions {
    /// Room for `sectors` sectors of each of `members` members.
    pub fn new(alloc: Global, members: usize, sectors: usize) -> Result<Regions, Memory>
        ensures room { IfOk result (λ r. (r.members ≡ members) × (r.stride ≡ 512 * sectors)) }
        ensures zeros { IfOk result (λ r. r.bytes ≡ replicate (512 * sectors * members) 0) }
    {
        let stride = sectors.checked_mul(SECTOR).ok_or(Memory)?;
        let bytes = stride.checked_mul(members).ok_or(Memory)?;
        let sectors = zeros(alloc, bytes)?;
        Ok(Regions {
            members,
            stride,
            sectors,
        })
    }

    /// Reads `count` sectors of the image in each slot that holds one into the slot's region: the members begin at image
    /// sector `offset`, and are read from their sector `first` on.
    #[tactic(auto, using(crate::proofs::Room::room_inside, row_parity::proofs::Regions::region_inside))]
    pub fn read<I: Images>(
        &mut self,
        images: &mut I,
        slots: &[Option<u8>],
        offset: u64,
        first: u64,
        count: usize,
    ) -> Result<(), Failed>
        requires room { IsRoomFor (length slots.now) count self.old }
        requires held { All (Reaches (I.seen images.old).attached (offset + (first + count))) slots.now }
        requires near { offset + (first + count) < 2 ^ 55 }
        requires some { 1 ≤ count }
        ensures room { KeepsRoom self.old self.new }
        ensures told { OnOk result (IfSome (told_all (I.seen images.old).attached) (λ bytes.
            HoldRead bytes slots.now offset self.new.stride first (512 * count) (length slots.now) self.new.bytes)) }
        ensures reads { OnlyReads (I.seen images.old) (I.seen images.new) (held slots.now * count) }
        ensures cause { HasCause (I.seen images.old).faults (I.seen images.new).faults result }
    {
        let stride = self.stride;
        let sectors = self.sectors.as_mut_slice();
        for (slot, held) in slots.iter().enumerate() {
            let at = stride * slot;
            let to = &mut sectors[at..at + SECTOR * count];
            read_member(images, *held, offset, first, to)?;
        }
        Ok(())
    }

    /// Whether the sectors number `j` of the regions are a sound row of these cells.
    #[tactic(auto, using(crate::proofs::Room::room_inside))]
    pub fn is_sound(&self, cells: &[Cell], j: usize) -> bool
        requires cells { IsRow cells.now }
        requires room { IsRoomFor (length cells.now) (j + 1) self.now }
        ensures { result ≡ is_sound cells.now (region_column (length cells.now) self.now.stride self.now.bytes j) }
    {
        sectors_hold(cells, &self.sectors, self.stride, j)
    }

    /// The `count` sectors of the region of a slot from its sector `at` on.
    #[tactic(auto, using(crate::proofs::Room::room_inside, row_parity::proofs::Regions::region_inside))]
    pub fn region(&self, slot: usize, at: usize, count: usize) -> &[u8]
        requires room { IsRoomFor (slot + 1) (at + count) self.now }
        ensures long { length result.now ≡ 512 * count }
        ensures sectors { result.now ≡ slice_range self.now.bytes (self.now.stride * slot + 512 * at)
            (self.now.stride * slot + 512 * at + 512 * count) }
    {
        let start = self.stride * slot + SECTOR * at;
        &self.sectors[start..start + SECTOR * count]
    }
}

/// A list of `count` bytes of 0.
pub fn zeros(alloc: Global, count: usize) -> Result<Vec<u8>, Memory>
    ensures zeros { IfOk result (λ bytes. bytes.items ≡ replicate count 0) }
    ensures length { IfOk result (λ bytes. length bytes.items ≡ count) }
{
    let bytes = vec![in alloc; 0u8; count].map_err(|_| Memory)?;
    Ok(bytes)
}
