//! Tables.
ghost use Rattle.std.proofs.Props.{props};
ghost use Rattle.layout_tables.specs.Shape.{IsDrawn};

use crate::limits::{MOST_TABLE_ROWS, MOST_TABLE_SLOTS};

/// A row of a table, one byte a slot.
pub(crate) type RowBytes = [u8; MOST_TABLE_SLOTS];

/// All rows of a table.
pub(crate) type Grid = [RowBytes; MOST_TABLE_ROWS];

/// A layout that a user has drawn: what each slot is for in the rows of one period, which repeats.
#[derive(Clone, Copy)]
pub struct Table {
    /// The rows, with spares behind them.
    pub(crate) grid: Grid,
    /// The slots of a row.
    pub(crate) slots: u8,
    /// The rows of the period.
    pub(crate) period: u8,
    /// The data items of a row.
    pub(crate) items: u8,
    /// The parities of a row, 0 to 2.
    pub(crate) parities: u8,
    ghost drawn: { IsDrawn grid slots period items parities } by { Prim.hlevel props },
}
