//! The cells of a table.
ghost use Rattle.std.specs.Prelude.{◌≡◌};
ghost use Rattle.layout_tables.specs.Cells.{cell_with as cell_of_byte};

use crate::limits::{P_BYTE, Q_BYTE, SPARE_BYTE};

/// What a slot is for in a row.
#[derive(Clone, Copy, Debug, PartialEq, Eq)]
pub enum TableCell {
    /// It holds this data item of the row, counted from 0.
    Item(u8),
    /// It holds the parity P.
    P,
    /// It holds the syndrome Q.
    Q,
    /// It is a spare: no equation has it.
    Spare,
}

/// The cell of a byte.
pub(crate) fn cell_with(byte: u8) -> TableCell
    ensures { result ≡ cell_of_byte byte }
{
    match byte {
        P_BYTE => TableCell::P,
        Q_BYTE => TableCell::Q,
        SPARE_BYTE => TableCell::Spare,
        item => TableCell::Item(item),
    }
}
