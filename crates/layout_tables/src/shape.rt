//! Which rows make a table.
ghost use Rattle.std.specs.Prelude.{◌≡◌, ◌≤◌, length, nat_eq, nat_le, slice_index_or};
ghost use Rattle.std.specs.List.{list_all, range_with_len};
ghost use Rattle.layout_tables.specs.Cells.{cells_in};
ghost use Rattle.layout_tables.specs.Shape.{data_in as data_of, is_first as is_first_row, is_row as is_row_like, is_table as are_table, is_used as is_used_in, times as times_in};

use crate::limits::{MOST_TABLE_ROWS, MOST_TABLE_SLOTS, P_BYTE, Q_BYTE, SPARE_BYTE};
use crate::pieces::Row;

/// How many cells of a row have this byte.
#[tactic(auto, unfolding(crate::specs::Shape::times))]
pub(crate) fn times(byte: usize, row: &[u8]) -> usize
    ensures count { result ≡ times_in byte row.now }
    ensures few { result ≤ length row.now }
{
    row.iter()
        .filter(|other| usize::from(**other) == byte)
        .count()
}

/// How many cells of a row are data items.
#[tactic(auto, unfolding(crate::specs::Shape::data_in))]
pub(crate) fn data_in(row: &[u8]) -> usize
    ensures count { result ≡ data_of row.now }
    ensures few { result ≤ length row.now }
{
    row.iter().filter(|byte| **byte < P_BYTE).count()
}

/// Whether a table may begin with a row.
#[tactic(auto, unfolding(crate::specs::Shape::is_first))]
fn is_first(row: &[u8]) -> bool
    ensures { result ≡ is_first_row row.now }
{
    let p = times(P_BYTE as usize, row);
    2 <= row.len()
        && row.len() <= MOST_TABLE_SLOTS
        && 2 <= data_in(row)
        && p <= 1
        && times(Q_BYTE as usize, row) <= p
}

/// Whether each byte of a row stands for a cell.
fn are_cells(row: &[u8]) -> bool
    ensures { result ≡ list_all (λ byte. nat_le byte SPARE_BYTE) row.now }
{
    row.iter().all(|byte| *byte <= SPARE_BYTE)
}

/// Whether a row may stand in a table with this first row.
#[tactic(auto, unfolding(crate::specs::Shape::is_row))]
fn is_row(first: &[u8], row: &[u8]) -> bool
    ensures { result ≡ is_row_like first.now row.now }
{
    let items = data_in(first);
    are_cells(row)
        && row.len() == first.len()
        && data_in(row) == items
        && times(P_BYTE as usize, row) == times(P_BYTE as usize, first)
        && times(Q_BYTE as usize, row) == times(Q_BYTE as usize, first)
        && has_items(items, row)
}

/// Whether a row has each of so many data items once.
fn has_items(items: usize, row: &[u8]) -> bool
    ensures { result ≡ list_all (λ item. nat_eq (times_in item row.now) 1) (range_with_len 0 items) }
{
    (0..items).all(|item| times(item, row) == 1)
}

/// Whether each row may stand in a table with this first row.
fn are_rows(first: &[u8], rows: &[Row]) -> bool
    ensures { result ≡ list_all (is_row_like first.now) (cells_in rows.now) }
{
    rows.iter().all(|row| is_row(first, row.as_slice()))
}

/// Whether the slot of a row is a spare, or past the slots of the row.
fn is_spare(row: &Row, slot: usize) -> bool
    ensures { result ≡ nat_eq (slice_index_or row.now.items slot SPARE_BYTE) SPARE_BYTE }
{
    row.as_slice().get(slot).copied().unwrap_or(SPARE_BYTE) == SPARE_BYTE
}

/// Whether a slot is no spare in some row.
#[tactic(auto, unfolding(crate::specs::Shape::is_used))]
fn is_used(rows: &[Row], slot: usize) -> bool
    ensures { result ≡ is_used_in (cells_in rows.now) slot }
{
    rows.iter().any(|row| !is_spare(row, slot))
}

/// Whether each of so many slots is no spare in some row.
fn are_used(rows: &[Row], slots: usize) -> bool
    ensures { result ≡ list_all (is_used_in (cells_in rows.now)) (range_with_len 0 slots) }
{
    (0..slots).all(|slot| is_used(rows, slot))
}

/// Whether the rows of a period make a table.
#[tactic(auto, unfolding(crate::specs::Shape::is_table))]
pub(crate) fn is_table(rows: &[Row]) -> bool
    ensures { result ≡ are_table (cells_in rows.now) }
{
    match rows.first() {
        Some(first) => {
            let first = first.as_slice();
            rows.len() <= MOST_TABLE_ROWS
                && is_first(first)
                && are_rows(first, rows)
                && are_used(rows, first.len())
        }
        None => false,
    }
}
