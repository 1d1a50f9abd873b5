//! A device in memory.
ghost use Rattle.std.specs.Prelude.{◌≡◌, ◌+◌, ◌-◌, ◌^◌, ◌/◌, min, false, Some, length};
ghost use Rattle.block_device.specs.Reading.{RisesWith, fails_never_lost};
ghost use Rattle.outside.specs.Seen.{whole_sectors};
ghost use Rattle.nbd_rows.specs.Whole.{nothing_below, whole_length};

use block_device::BlockDevice;
use outside::{Failed, SECTOR};

/// The whole sectors of these bytes, as a device of which one read fails.
#[derive(Drop)]
pub struct MemDevice {
    /// Its bytes, and fewer than a sector after them.
    pub bytes: Vec<u8>,
    /// The number of the read that fails, counted from 1, or 0.
    pub failing: u64,
    /// The number of reads so far.
    pub reads: u64,
    /// The number of reads that failed.
    pub faults: u64,
}

impl BlockDevice for MemDevice {
    ghost content = { λ d. Some (whole_sectors d.bytes.items) };

    ghost size = { λ d. length d.bytes.items / 512 };

    ghost lost = { λ d v. false };

    ghost faults = { λ d. d.faults };

    ghost fixed = { λ d. nothing_below };

    // A reading is counted, and fails where a fault is.
    ghost reads = { λ before asked failed after. (after.reads ≡ min (before.reads + 1) (2 ^ 64 - 1)) × RisesWith failed before.faults after.faults };

    ghost whole = { λ d. whole_length d.bytes.items };

    ghost fails = { λ before asked failed after read. fails_never_lost asked failed before.faults after.faults read.1 };

    fn sectors(&self) -> u64 {
        (self.bytes.len() / SECTOR) as u64
    }

    fn read(&mut self, first: u64, to: &mut [u8]) -> Result<(), Failed> {
        self.reads = self.reads.saturating_add(1);
        if self.reads == self.failing {
            self.faults = self.faults.saturating_add(1);
            return Err(Failed);
        }
        let start = SECTOR * first as usize;
        to.copy_from_slice(&self.bytes[start..start + to.len()]);
        Ok(())
    }
}
