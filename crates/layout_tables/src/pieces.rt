//! The pieces of a spelling: the cells of a row, and the rows of a table.
ghost use Rattle.std.specs.Prelude.{◌≡◌, ◌≢◌, ℕ, [], ◌∷◌, MatchOption};
ghost use Rattle.layout_tables.specs.Cells.{AreCells, IsCell, cell_name};
ghost use Rattle.layout_tables.specs.Spelling.{row_name};

use crate::joined::{Piece, joined};
use crate::limits::{MOST_TABLE_ROWS, MOST_TABLE_SLOTS, P_BYTE, Q_BYTE, SPARE_BYTE};
use arrayvec::ArrayVec;

/// The cells of a row, slot 0 first, each as its byte.
pub(crate) type Row = ArrayVec<u8, MOST_TABLE_SLOTS>;

/// The rows of a period.
pub(crate) type Rows = ArrayVec<Row, MOST_TABLE_ROWS>;

/// A cell: P, Q, a dash for a spare, or the number of a data item.
impl Piece for u8 {
    ghost name = { cell_name };

    ghost IsPiece = { IsCell };

    fn read(text: &[u8]) -> Option<u8> {
        match text {
            [byte] => read_byte(*byte),
            [tens, units] => read_digits(*tens, *units),
            _ => None,
        }
    }
}

/// A row: its cells with a full stop between them.
impl Piece for Row {
    ghost name = { λ row. row_name row.items };

    ghost IsPiece = { λ row. AreCells row.items };

    fn read(text: &[u8]) -> Option<Row> {
        joined(text, b'.')
    }
}

/// The cell whose name is this byte.
fn read_byte(byte: u8) -> Option<u8>
    ensures { MatchOption result
        ((cell : ℕ) → IsCell cell → byte ∷ [] ≢ cell_name cell)
        (λ cell. IsCell cell × (byte ∷ [] ≡ cell_name cell)) }
{
    match byte {
        b'P' => Some(P_BYTE),
        b'Q' => Some(Q_BYTE),
        b'-' => Some(SPARE_BYTE),
        b'0'..=b'9' => Some(byte - b'0'),
        _ => None,
    }
}

/// The data item whose number has these two digits, of which the first is no zero.
fn read_digits(tens: u8, units: u8) -> Option<u8>
    ensures { MatchOption result
        ((cell : ℕ) → IsCell cell → tens ∷ units ∷ [] ≢ cell_name cell)
        (λ cell. IsCell cell × (tens ∷ units ∷ [] ≡ cell_name cell)) }
{
    if b'1' <= tens && tens <= b'9' && b'0' <= units && units <= b'9' {
        let item = 10 * (tens - b'0') + (units - b'0');
        if item < P_BYTE {
            return Some(item);
        }
    }
    None
}
