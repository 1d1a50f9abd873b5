//! The limits of a table, and the bytes of its cells.

/// The most slots of a table.
pub const MOST_TABLE_SLOTS: usize = 24;

/// The most rows of the period of a table.
pub const MOST_TABLE_ROWS: usize = 64;

/// The most bytes of a spelling: the names of cells have at most two, and a byte stands before each.
pub const LONGEST_TABLE: usize = 3 * MOST_TABLE_SLOTS * MOST_TABLE_ROWS;

/// The byte of P. A data item has its number, which is smaller.
pub(crate) const P_BYTE: u8 = 24;

/// The byte of Q.
pub(crate) const Q_BYTE: u8 = 25;

/// The byte of a spare, the greatest of all.
pub(crate) const SPARE_BYTE: u8 = 26;
