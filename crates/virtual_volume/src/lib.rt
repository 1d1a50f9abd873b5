//! The volume of an array, written out whole or read a sector at a time.
//!
//! [`write_volume`] reads of the members what the volume is found by, in batches of whole rows, finds the
//! lost data by parity, and puts the data in the volume's order. `set_jobs` has it do `write`. The members
//! stand in the regions of `member_regions`. The volume stands in `Volume` of `raid_terms`, what is asked of
//! a set in `specs/Served`, its parts in `specs/Parts` and `Waiting`.
#![tactic(auto)]

mod batch;
mod pending;
mod sector;
mod volume;

pub use sector::read_volume;
pub use volume::{VolumeFault, write_volume};
