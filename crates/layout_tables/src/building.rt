//! The table that rows make.
ghost use Rattle.std.specs.Prelude.{◌≡◌, ◌≤◌, MatchOption, length, true, false};
ghost use Rattle.layout_tables.specs.Cells.{cells_in};
ghost use Rattle.layout_tables.specs.Shape.{grid_of, is_table as are_table, padded as padded_row};
ghost use Rattle.layout_tables.specs.Tables.{rows_of};

use crate::limits::{MOST_TABLE_ROWS, MOST_TABLE_SLOTS, P_BYTE, Q_BYTE, SPARE_BYTE};
use crate::pieces::Row;
use crate::shape::{data_in, is_table, times};
use crate::table::{Grid, RowBytes, Table};

/// The table with these rows, or None if they make none.
pub(crate) fn drawn(rows: &[Row]) -> Option<Table>
    ensures { MatchOption result
        (are_table (cells_in rows.now) ≡ false)
        (λ table. (are_table (cells_in rows.now) ≡ true) × (rows_of table ≡ cells_in rows.now)) }
{
    if is_table(rows) {
        Some(table_with(rows))
    } else {
        None
    }
}

/// The table with these rows.
fn table_with(rows: &[Row]) -> Table
    requires { are_table (cells_in rows.now) ≡ true }
    ensures { rows_of result ≡ cells_in rows.now }
{
    let first = rows[0].as_slice();
    let parities = times(P_BYTE as usize, first) + times(Q_BYTE as usize, first);
    Table {
        grid: grid_with(rows),
        slots: first.len() as u8,
        period: rows.len() as u8,
        items: data_in(first) as u8,
        parities: parities as u8,
    }
}

/// Rows with spares behind them.
fn grid_with(rows: &[Row]) -> Grid
    requires { length rows.now ≤ MOST_TABLE_ROWS }
    ensures { result ≡ grid_of (cells_in rows.now) }
{
    let mut grid = [[SPARE_BYTE; MOST_TABLE_SLOTS]; MOST_TABLE_ROWS];
    for (at, row) in rows.iter().enumerate() {
        grid[at] = padded(row.as_slice());
    }
    grid
}

/// A row with spares behind it.
fn padded(row: &[u8]) -> RowBytes
    requires { length row.now ≤ MOST_TABLE_SLOTS }
    ensures { result ≡ padded_row row.now }
{
    let mut bytes = [SPARE_BYTE; MOST_TABLE_SLOTS];
    bytes[..row.len()].copy_from_slice(row);
    bytes
}
