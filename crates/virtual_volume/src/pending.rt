//! Small pieces are put many at once, and large ones as they are.
ghost use Rattle.std.specs.Prelude.{◌≡◌, [], ◌++◌, ◌+◌, ◌%◌, ◌≤◌, length, IfOk, OnOk};
ghost use Rattle.outside.specs.Causes.{HasCause};
ghost use Rattle.virtual_volume.specs.Waiting.{Passed};

use member_regions::{BLOCK, zeros};
use outside::{Failed, Memory, SECTOR, Sink};
use std::alloc::Global;
use std::marker::Model;

/// The bytes that wait at most.
pub(crate) const PENDING: usize = BLOCK * SECTOR;

/// Pieces of this many bytes and more are put at once, after what waits, and never copied. The chunks of a
/// volume are all of one length, so its puts are of no less than this but the last one.
const LARGE: usize = 64 * SECTOR;

/// Whole sectors that wait to be put. Contracts see their bytes.
#[derive(Drop)]
pub(crate) struct Pending {
    room: Vec<u8>,
    filled: usize,
}

impl Model for Pending {
    ghost use Rattle.std.specs.Prelude.{ℕ, List, ◌≡◌, ◌%◌, ◌≤◌, length, take};
    ghost use Rattle.virtual_volume.specs.declared.pending.TheConstants.{PENDING};

    ghost Value = { List ℕ };

    ghost view = { λ p. take p.filled p.room.items };

    ghost invariant = { λ p. (length p.room.items ≡ PENDING) × (p.filled ≤ PENDING) × (p.filled % 512 ≡ 0) };
}

impl Pending {
    /// Room with no byte in it.
    pub(crate) fn new(alloc: Global) -> Result<Pending, Memory>
        ensures { IfOk result (λ pending. pending ≡ []) }
    {
        let room = zeros(alloc, PENDING)?;
        Ok(Pending { room, filled: 0 })
    }

    /// Puts what waits, where anything does.
    pub(crate) fn flush<K: Sink>(&mut self, sink: &mut K) -> Result<(), Failed>
        ensures passed { Passed (K.gained sink.old) (K.gained sink.new) self.old self.new result [] }
        ensures none { OnOk result (self.new ≡ []) }
        ensures cause { HasCause (K.faults sink.old) (K.faults sink.new) result }
    {
        if self.filled == 0 {
            return Ok(());
        }
        sink.put(&self.room[..self.filled])?;
        self.filled = 0;
        Ok(())
    }

    /// How many more bytes may wait.
    fn left(&self) -> usize
        ensures { length self.now + result ≡ PENDING }
    {
        PENDING - self.filled
    }

    /// Lets whole sectors wait.
    fn push(&mut self, bytes: &[u8])
        requires room { length self.old + length bytes.now ≤ PENDING }
        requires whole { length bytes.now % 512 ≡ 0 }
        ensures { self.new ≡ self.old ++ bytes.now }
    {
        let end = self.filled + bytes.len();
        self.room[self.filled..end].copy_from_slice(bytes);
        self.filled = end;
    }

    /// Makes room for a small piece of `bytes` bytes.
    fn make_room<K: Sink>(&mut self, sink: &mut K, bytes: usize) -> Result<(), Failed>
        requires small { bytes ≤ LARGE }
        ensures passed { Passed (K.gained sink.old) (K.gained sink.new) self.old self.new result [] }
        ensures room { OnOk result (length self.new + bytes ≤ PENDING) }
        ensures cause { HasCause (K.faults sink.old) (K.faults sink.new) result }
    {
        if bytes <= self.left() {
            return Ok(());
        }
        self.flush(sink)
    }

    /// Appends whole sectors: they wait, or are put after all that waits.
    pub(crate) fn put<K: Sink>(&mut self, sink: &mut K, bytes: &[u8]) -> Result<(), Failed>
        requires whole { length bytes.now % 512 ≡ 0 }
        ensures passed { Passed (K.gained sink.old) (K.gained sink.new) self.old self.new result bytes.now }
        ensures few { OnOk result (length self.new ≤ PENDING) }
        ensures cause { HasCause (K.faults sink.old) (K.faults sink.new) result }
    {
        if bytes.len() >= LARGE {
            self.flush(sink)?;
            return sink.put(bytes);
        }
        self.make_room(sink, bytes.len())?;
        self.push(bytes);
        Ok(())
    }
}
