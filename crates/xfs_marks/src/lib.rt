//! Sectors of XFS: the superblock, and the two heads of an allocation group (AGF and AGI).
//!
//! [`read_super`] says how large blocks and groups are, [`read_group`] which head of which group it is.
//! The definitions stand in `specs/Superblock` and `Group`. The law that such a sector is of no other kind
//! is in `survey_engine`, which looks for them.
#![tactic(auto)]

mod group;
mod superblock;

// The tests stand in `mark_rows`.

pub use group::{XfsGroup, read_group};
pub use superblock::{XfsSuper, read_super};
