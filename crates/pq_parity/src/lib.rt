//! What the missing blocks of a row held, by its parity. It is the front of `row_parity` too, which tests rows.
//!
//! [`solve`] finds one lost sector of a row whose sectors stand one after the other. Where they lie in regions of the
//! members, two functions find lost sectors of many rows with the same cells. [`solve_data`] finds the data, and asks
//! of the regions no parity that these are not found by: where P tells the one lost block, its sums go straight into the
//! region; elsewhere each lost block takes the two sums of the row times its factors, whose tables are made once.
//! [`solve_parity`] finds a parity block by all data of its row: their sums go straight into the region. [`laws`] says
//! that lost bytes are found in one way only.
//!
//! Lost bytes stand in `Solving` of `raid_terms`, what data are found by in `specs/Needs`, and what parity is found by in
//! `specs/DataThere`.
#![tactic(auto)]

mod fills;
mod finders;
pub mod laws;
mod lost_data;
mod lost_parity;
mod solving;
mod weights;

pub use lost_data::solve_data;
pub use lost_parity::solve_parity;
pub use row_parity::{row_holds, sectors_hold};
pub use solving::solve;
