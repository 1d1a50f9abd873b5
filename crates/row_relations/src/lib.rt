//! How the sectors of a row depend on one another.
//!
//! A row is one sector of each of 1 to 64 images, at one place. In the field of `gf256` its sectors are vectors of 512 bytes. An
//! image is zero where its sector is, dependent where it is a weighed sum of the sectors of the independent images before it, and
//! else independent. [`RowTable`] finds this for one row after the other. A relation is a list of weights, one for each image,
//! with which each column adds up to 0: the parity equations of an array are relations of its rows. [`laws`] says that the table of
//! a row is the only one, and that the relations of the row are just the sums of multiples of what it shows.
//!
//! Rows stand in `specs/Rows`, tables in `specs/Tables`, and the laws in `specs/Laws`.
#![tactic(auto)]

mod combination;
mod elimination;
pub mod laws;
mod row_table;
mod standing;

pub use row_table::RowTable;
pub use standing::{MOST_IMAGES, Standing};
