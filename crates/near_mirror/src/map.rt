//! The map from the sectors of the volume to those of the members.
ghost use Rattle.std.specs.Prelude.{◌≡◌, ◌<◌, ◌≤◌, ◌^◌, IsTrue};
ghost use Rattle.near_mirror.specs.Copies.{HasCopy, IsCopy, first_chunks as first_chunks_of, near_chunks, near_rows, near_sectors, slot_of};
ghost use Rattle.near_mirror.specs.Heads.{is_valid_near};
ghost use Rattle.near_mirror.specs.Volume.{HasHome, IsMirror, held_copy as held_copy_of, is_held as is_held_of};

use crate::types::{NearHead, NearSet};
use crate::validity::are_members;
use raid_params::is_chunk;

/// Where a copy of a sector of the volume lies.
#[derive(Clone, Copy, Debug, PartialEq, Eq)]
pub struct CopyPlace {
    /// The slot that holds the copy.
    pub slot: u8,
    /// The member sector, counted from the data offset.
    pub sector: u64,
}

impl NearHead {
    /// Whether the layout, the members and the chunk are those of a mirror: from `FEWEST_COPIES` to `MOST_COPIES` copies,
    /// no fewer members than copies and at most `MOST`, and a chunk that is a power of two from 1 to `LARGEST_CHUNK`.
    pub fn is_valid(&self) -> bool
        ensures { result ≡ is_valid_near self.now }
    {
        are_members(self.layout, self.members as usize) && is_chunk(self.chunk)
    }

    /// How many whole rows of chunks lie before the image sector `end`.
    pub fn rows(&self, end: u64) -> u64
        requires { 1 ≤ self.now.chunk }
        ensures { result ≡ near_rows self.now end }
    {
        end.saturating_sub(self.offset) / self.chunk
    }

    /// How many chunks the volume has: as many as there are copies of in the rows before the image sector `end`.
    #[tactic(auto, using(crate::proofs::Chunks::valid_chunk, crate::proofs::Heads::few_cells, crate::proofs::Heads::some_copies))]
    pub fn volume_chunks(&self, end: u64) -> u64
        requires head { IsTrue (is_valid_near self.now) }
        requires end { end < 2 ^ 55 }
        ensures { result ≡ near_chunks self.now end }
    {
        self.layout.chunks(self.members, self.rows(end))
    }

    /// How many chunks the volume has of the first ones, of which there are as many as members. All others stand on the slots
    /// of these.
    #[tactic(auto, using(crate::proofs::Chunks::valid_chunk, crate::proofs::Heads::first_cells, crate::proofs::Heads::some_copies, crate::proofs::Homes::first_chunks_are))]
    pub fn first_chunks(&self, end: u64) -> u64
        requires { IsTrue (is_valid_near self.now) }
        ensures { result ≡ first_chunks_of self.now end }
    {
        let rows = self.rows(end).min(u64::from(self.layout.copies));
        self.layout.chunks(self.members, rows)
    }

    /// The slot of a copy of a chunk.
    #[tactic(auto, using(crate::proofs::Heads::some_members, crate::proofs::Heads::few_copies))]
    pub fn slot(&self, copy: u8, chunk: u64) -> u8
        requires head { IsTrue (is_valid_near self.now) }
        requires chunk { chunk < 2 ^ 60 }
        ensures { result ≡ slot_of self.now.layout.copying self.now.members self.now.layout.copies copy chunk }
    {
        self.layout.slot(self.members, copy, chunk)
    }

    /// How many sectors the volume has.
    #[tactic(auto, using(crate::proofs::Heads::volume_fits))]
    pub fn volume_sectors(&self, end: u64) -> u64
        requires head { IsTrue (is_valid_near self.now) }
        requires end { end < 2 ^ 55 }
        ensures { result ≡ near_sectors self.now end }
    {
        self.volume_chunks(end) * self.chunk
    }

    /// Where a copy of a sector of the volume lies, None exactly from the end of the volume on and from the last copy on.
    /// Only whole rows before the image sector `end` count.
    pub fn copy_place(&self, end: u64, copy: u8, volume_sector: u64) -> Option<CopyPlace>
        requires head { IsTrue (is_valid_near self.now) }
        requires end { end < 2 ^ 55 }
        ensures { HasCopy self.now end volume_sector copy result }
    {
        if volume_sector < self.volume_sectors(end) && copy < self.layout.copies {
            Some(self.place(end, copy, volume_sector))
        } else {
            None
        }
    }

    /// Where a copy of a sector of the volume lies.
    fn place(&self, end: u64, copy: u8, volume_sector: u64) -> CopyPlace
        requires head { IsTrue (is_valid_near self.now) }
        requires end { end < 2 ^ 55 }
        requires copy { copy < self.now.layout.copies }
        requires within { volume_sector < near_sectors self.now end }
        ensures { IsCopy self.now end volume_sector copy result }
    {
        let chunk = volume_sector / self.chunk;
        let row = self.layout.row(self.members, self.rows(end), copy, chunk);
        CopyPlace {
            slot: self.layout.slot(self.members, copy, chunk),
            sector: row * self.chunk + volume_sector % self.chunk,
        }
    }
}

impl NearSet {
    /// Where a sector of the volume is read: its first copy whose slot holds an image. None exactly from the end of the
    /// volume on. Only whole rows before the image sector `end` count.
    pub fn home(&self, end: u64, volume_sector: u64) -> Option<CopyPlace>
        requires set { IsMirror self.now end }
        requires end { end < 2 ^ 55 }
        ensures { HasHome self.now end volume_sector result }
    {
        if volume_sector < self.head.volume_sectors(end) {
            let copy = self.held_copy(volume_sector / self.head.chunk)?;
            Some(self.head.place(end, copy, volume_sector))
        } else {
            None
        }
    }

    /// The first copy of a chunk whose slot holds an image.
    #[tactic(auto, using(crate::proofs::Heads::some_members, crate::proofs::Heads::few_copies), unfolding(crate::specs::Volume::held_copy))]
    pub fn held_copy(&self, chunk: u64) -> Option<u8>
        requires head { IsTrue (is_valid_near self.now.head) }
        requires chunk { chunk < 2 ^ 60 }
        ensures { result ≡ held_copy_of self.now chunk }
    {
        (0..self.head.layout.copies).find(|copy: &u8| self.is_held(chunk, *copy))
    }

    /// Whether the slot of a copy of a chunk holds an image.
    fn is_held(&self, chunk: u64, copy: u8) -> bool
        requires head { IsTrue (is_valid_near self.now.head) }
        requires chunk { chunk < 2 ^ 60 }
        ensures { result ≡ is_held_of self.now chunk copy }
    {
        let slot = usize::from(self.head.slot(copy, chunk));
        slot < self.slots.len() && self.slots[slot].is_some()
    }
}
