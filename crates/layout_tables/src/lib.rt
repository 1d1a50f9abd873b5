//! Layouts that a user draws as a table of one period, which may have spares.
//!
//! [`parse`] reads a table from its text, and [`Table::spell`] writes it. [`Table::cell`] says what a slot is for in a row, and
//! [`Table::slot_of_item`], [`Table::p_slot`] and [`Table::q_slot`] where a row has a cell. [`Table::least_period`] finds out whether the
//! drawing repeats itself. Which rows make a table stands in `specs/Shape`, how they are spelled in `specs/Spelling`, what is asked
//! of a table in `specs/Tables` and `specs/Periods`, and what holds of all tables in `specs/Laws`. A row is kept as one byte a slot.
#![tactic(auto)]

mod building;
mod cell;
mod joined;
mod laws;
mod limits;
mod order;
mod periods;
mod pieces;
mod reading;
mod rows;
mod shape;
mod spelling;
mod table;

// The tests stand in `layout_rows`.

pub use cell::TableCell;
pub use laws::{
    each_cell_has_one_slot, each_slot_has_a_cell, each_slot_is_used, least_periods_are_least,
    numbers_are_in_range, rows_have_equal_counts, rows_repeat, slots_are_those_of_cells,
    tables_have_one_spelling,
};
pub use limits::{LONGEST_TABLE, MOST_TABLE_ROWS, MOST_TABLE_SLOTS};
pub use reading::parse;
pub use spelling::TableText;
pub use table::Table;
