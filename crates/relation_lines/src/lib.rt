//! What is said of how images depend on one another, row by row.
//!
//! A [`Report`] takes the rows of 2 to 64 images one after the other, each with its table (`row_relations`), and puts a line for each
//! run of neighbouring rows with the same table as soon as the run has ended; then what is common to all rows: which sets of images
//! the ties of a row connect, and in how many rows, which images no tie holds, and how many rows have no tie.
//!
//! Which lines these are stands in `specs/Reports`, runs in `specs/Runs`, the sets of a row in `specs/Sets`, their order in
//! `specs/Shared`, how a line is written in `specs/Text`, and the table of a row, computed, in `specs/Tables`. [`laws`] says that
//! what a report puts row by row is the report of all rows, and that the parts of a row are what its ties connect.
#![tactic(auto)]

pub mod laws;
mod line;
mod lists;
mod report;
mod saying;
mod sets;
mod shared;
mod style;

pub use report::{MOST_ROWS, Report};
pub use style::Style;
