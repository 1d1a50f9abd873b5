//! Sectors of ext2, ext3 and ext4: the copies of the superblock that lie in later groups.
//!
//! [`read_ext`] says of which group a copy is and at which sector of its file system it lies. The
//! definitions stand in `specs/Copy`.
#![tactic(auto)]

mod copy;

// The tests stand in `mark_rows`.

pub use copy::{ExtSuper, MAGIC, read_ext};
