//! The member of an empty slot, found from the others and written out.
//!
//! [`rebuild`] takes 128 KiB of each member at a time, holds no more, and reads only what the data are found by.
//! `set_jobs` has it do `rebuild`. The member stands in `Volume` of `raid_terms`, its parts in
//! `specs/Sectors`; room and faults are those of `virtual_volume`.
#![tactic(auto)]

mod member;

pub use member::rebuild;
