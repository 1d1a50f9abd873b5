//! Sectors of btrfs and of LVM2: the superblock of the one, the label of the other.
//!
//! [`read_btrfs`] says which file system it is and at which address the superblock lies, [`read_lvm`] the
//! sector of its physical volume that a label lies in. The definitions stand in `specs/Btrfs` and `Lvm`.
//! A sector may be both; which of two kinds it then counts as is not told here.
#![tactic(auto)]

mod btrfs;
mod lvm;

// The tests stand in `mark_rows`.

pub use btrfs::{BtrfsSuper, read_btrfs};
pub use lvm::read_lvm;
