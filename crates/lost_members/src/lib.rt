//! What lost members of a set held, found by the members that are there.
//!
//! [`Members`] has a region of sectors for each member. [`Members::read_needed`] reads what the data are found by: the data
//! that are there, and for each lost data block of a row one of its parity blocks. [`Members::solve_data`] finds the lost
//! data by it, and [`Members::solve_parity`] the parity of a lost member by all data. [`find_sector`] does so for one sector, and
//! takes no memory. What is needed stands in
//! `specs/Needs`, and [`laws`] says how much that is. `virtual_volume` and `member_rebuild` write what is found.
#![tactic(auto)]

pub mod laws;
mod members;
mod needs;
mod reading;
mod sector;
mod solving;

pub use members::Members;
pub use sector::find_sector;
