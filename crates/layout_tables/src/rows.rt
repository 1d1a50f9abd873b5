//! What the slots of a row are for.
ghost use Rattle.std.specs.Prelude.{◌≡◌, ◌==◌, ◌+◌, ◌%◌, ◌<◌, ◌≤◌, IfSome, length, position};
ghost use Rattle.layout_tables.specs.Tables.{cell_of, item_of, items_of, p_of, parities_of, period_of, q_of, row_at, slot_with, slots_of, spares_of};

use crate::cell::{TableCell, cell_with};
use crate::limits::{MOST_TABLE_ROWS, MOST_TABLE_SLOTS, P_BYTE, Q_BYTE, SPARE_BYTE};
use crate::shape::times;
use crate::table::Table;

impl Table {
    /// The number of slots, 2 to 24.
    pub fn slots(&self) -> u8
        ensures { result ≡ slots_of self.now }
    {
        self.slots
    }

    /// The number of rows of the period, 1 to 64, after which the rows repeat.
    pub fn period(&self) -> u8
        ensures { result ≡ period_of self.now }
    {
        self.period
    }

    /// The number of data items of a row, at least 2.
    pub fn items(&self) -> u8
        ensures { result ≡ items_of self.now }
    {
        self.items
    }

    /// The number of parities of a row: 0 at level 0, 1 at level 5, 2 at level 6.
    pub fn parities(&self) -> u8
        ensures { result ≡ parities_of self.now }
    {
        self.parities
    }

    /// The number of a row in its period.
    fn place(&self, row: u64) -> usize
        ensures place { result ≡ row % period_of self.now }
        ensures below { result < MOST_TABLE_ROWS }
    {
        (row % u64::from(self.period)) as usize
    }

    /// The bytes of a row.
    pub(crate) fn row(&self, row: u64) -> &[u8]
        ensures bytes { result.now ≡ row_at self.entry.now row }
        ensures slots { length result.now ≡ slots_of self.entry.now }
        ensures few { length result.now ≤ MOST_TABLE_SLOTS }
    {
        let bytes = &self.grid[self.place(row)];
        &bytes[..usize::from(self.slots)]
    }

    /// What a slot is for in a row.
    #[tactic(auto, unfolding(crate::specs::Tables::cell_of))]
    pub fn cell(&self, row: u64, slot: u8) -> TableCell
        requires { slot < slots_of self.now }
        ensures { result ≡ cell_of self.now row slot }
    {
        cell_with(self.row(row)[usize::from(slot)])
    }

    /// The slot of a byte in a row.
    #[tactic(auto, unfolding(crate::specs::Tables::slot_with))]
    fn slot_with(&self, row: u64, byte: u8) -> Option<u8>
        ensures { result ≡ slot_with self.now row byte }
    {
        match position_of(byte, self.row(row)) {
            Some(slot) => Some(slot as u8),
            None => None,
        }
    }

    /// The slot of a data item in a row.
    pub fn slot_of_item(&self, row: u64, item: u8) -> u8
        requires { item < items_of self.now }
        ensures there { result ≡ item_of self.now row item }
        ensures below { result < slots_of self.now }
    {
        self.slot_with(row, item).unwrap_or(0)
    }

    /// The slot of P in a row, None exactly at level 0.
    pub fn p_slot(&self, row: u64) -> Option<u8>
        ensures { result ≡ p_of self.now row }
    {
        self.slot_with(row, P_BYTE)
    }

    /// The slot of Q in a row, None exactly below level 6.
    pub fn q_slot(&self, row: u64) -> Option<u8>
        ensures { result ≡ q_of self.now row }
    {
        self.slot_with(row, Q_BYTE)
    }

    /// The number of slots of a row that are no spares: as many in each row.
    pub fn used(&self) -> u8
        ensures { result ≡ items_of self.now + parities_of self.now }
    {
        self.items + self.parities
    }

    /// The number of spares in a row.
    pub fn spares(&self, row: u64) -> u8
        ensures { result ≡ spares_of self.now row }
    {
        times(SPARE_BYTE as usize, self.row(row)) as u8
    }
}

/// The first place of a byte in a row.
fn position_of(byte: u8, row: &[u8]) -> Option<usize>
    ensures place { result ≡ position (λ other. other == byte) row.now }
    ensures below { IfSome result (λ slot. slot < length row.now) }
{
    row.iter().position(|other| *other == byte)
}
