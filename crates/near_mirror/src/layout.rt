//! Where the copies of a chunk lie.
ghost use Rattle.std.specs.Prelude.{◌≡◌, ◌*◌, ◌<◌, ◌≤◌, ◌^◌};
ghost use Rattle.near_mirror.specs.Copies.{chunks_of, row_of, slot_of};

use crate::types::{CopyLayout, Copying};

impl CopyLayout {
    /// How many chunks stand in so many rows of so many members.
    pub(crate) fn chunks(&self, members: u8, rows: u64) -> u64
        requires copies { 1 ≤ self.now.copies }
        requires cells { rows * members < 2 ^ 64 }
        ensures { result ≡ chunks_of self.now.copying members self.now.copies rows }
    {
        let copies = u64::from(self.copies);
        let members = u64::from(members);
        match self.copying {
            Copying::Near => rows * members / copies,
            Copying::Far => rows / copies * members,
            Copying::Offset => rows / copies * members,
        }
    }

    /// The slot of a copy of a chunk.
    pub(crate) fn slot(&self, members: u8, copy: u8, chunk: u64) -> u8
        requires copies { self.now.copies ≤ 4 }
        requires members { 1 ≤ members }
        requires chunk { chunk < 2 ^ 60 }
        ensures { result ≡ slot_of self.now.copying members self.now.copies copy chunk }
    {
        let place = match self.copying {
            Copying::Near => u64::from(self.copies) * chunk + u64::from(copy),
            Copying::Far => chunk + u64::from(copy),
            Copying::Offset => chunk + u64::from(copy),
        };
        (place % u64::from(members)) as u8
    }

    /// The row of a copy of a chunk, where the members have so many rows.
    pub(crate) fn row(&self, members: u8, rows: u64, copy: u8, chunk: u64) -> u64
        requires copies { (1 ≤ self.now.copies) × (self.now.copies ≤ 4) }
        requires copy { copy < self.now.copies }
        requires members { 1 ≤ members }
        requires rows { rows < 2 ^ 55 }
        requires chunk { chunk < 2 ^ 60 }
        ensures { result ≡ row_of self.now.copying members self.now.copies rows copy chunk }
    {
        let copies = u64::from(self.copies);
        let members = u64::from(members);
        let copy = u64::from(copy);
        match self.copying {
            Copying::Near => (copies * chunk + copy) / members,
            Copying::Far => chunk / members + copy * (rows / copies),
            Copying::Offset => copies * (chunk / members) + copy,
        }
    }
}
