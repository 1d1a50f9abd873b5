//! Sectors of ext4 that hold two inodes with checksums, and where inodes lie.
//!
//! The checksum of an inode covers its number, which the inode itself does not hold: [`read_any_pair`] sees that there is
//! such a number even where the file system is not known, and [`InodePair::number`] says which it is in one that is.
//! [`read_copy`] says of a copy of a superblock where group descriptors lie, and [`InodeTables::copied_place`] by those
//! behind the copy where an inode lies. The definitions stand in `specs/Inode` and `Tables`.
#![tactic(auto)]

mod inode;
mod tables;

// The tests stand in `inode_rows`.

pub use inode::{InodePair, LEAST_EXTRA, MOST_EXTRA, read_any_pair};
pub use tables::{COPY_BYTES, COPY_SECTORS, InodeTables, read_copy};
