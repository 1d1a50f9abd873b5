//! The bytes of one line.
ghost use Rattle.std.specs.Prelude.{◌≡◌, [], ◌++◌, ◌+◌, ◌≤◌, decimal, length, IfOk};
ghost use Rattle.relation_lines.specs.Text.{mark_text};

use crate::style::{Mark, Style};
use itoa::Buffer;
use outside::Memory;
use std::alloc::Global;
use std::marker::Model;

/// The most bytes of a line: what the longest one can take, with 64 images.
pub(crate) const LONGEST: usize = 524_288;

/// The bytes of one line, in room that is taken once. Contracts see them as a list.
#[derive(Drop)]
pub(crate) struct LineBytes {
    room: Vec<u8>,
    filled: usize,
}

impl Model for LineBytes {
    ghost use Rattle.std.specs.Prelude.{ℕ, List, ◌≡◌, ◌≤◌, length, take};
    ghost use Rattle.relation_lines.specs.declared.line.TheConstants.{LONGEST};

    ghost Value = { List ℕ };

    ghost view = { λ l. take l.filled l.room.items };

    ghost invariant = { λ l. (length l.room.items ≡ LONGEST) × (l.filled ≤ LONGEST) };
}

impl LineBytes {
    /// Room with no byte in it.
    pub(crate) fn new(alloc: Global) -> Result<LineBytes, Memory>
        ensures { IfOk result (λ line. line ≡ []) }
    {
        let room = vec![in alloc; 0u8; LONGEST].map_err(|_| Memory)?;
        Ok(LineBytes { room, filled: 0 })
    }

    /// Takes all bytes away.
    pub(crate) fn clear(&mut self)
        ensures { self.new ≡ [] }
    {
        self.filled = 0;
    }

    /// The bytes.
    pub(crate) fn as_slice(&self) -> &[u8]
        ensures { result.now ≡ self.now }
    {
        &self.room[..self.filled]
    }

    /// Appends bytes.
    pub(crate) fn push(&mut self, bytes: &[u8])
        requires room { length self.old + length bytes.now ≤ LONGEST }
        ensures { self.new ≡ self.old ++ bytes.now }
    {
        let end = self.filled + bytes.len();
        self.room[self.filled..end].copy_from_slice(bytes);
        self.filled = end;
    }

    /// Appends a mark.
    pub(crate) fn push_mark(&mut self, style: Style, mark: Mark)
        requires room { length self.old + 12 ≤ LONGEST }
        ensures text { self.new ≡ self.old ++ mark_text style mark }
        ensures short { length self.new ≤ length self.old + 12 }
    {
        self.push(mark.text(style).as_bytes());
    }

    /// Appends a number in decimal.
    pub(crate) fn push_number(&mut self, number: u64)
        requires room { length self.old + 20 ≤ LONGEST }
        ensures text { self.new ≡ self.old ++ decimal number }
        ensures short { length self.new ≤ length self.old + 20 }
    {
        let mut buffer = Buffer::new();
        self.push(buffer.format(number).as_bytes());
    }
}
