//! Inodes of XFS of version 5, and where they lie.
//!
//! [`read_inode`] says of bytes that an inode with a right checksum begins, and which; [`read_start`] that one may begin in
//! a sector, and [`read_larger`] how many bytes it has if it has more than the sector; [`read_inodes`] what a superblock
//! says of where inodes lie: so [`XfsInodes::inode_sector`] is the place of an inode. The definitions stand in
//! `specs/Inode` and `Places`.
#![tactic(auto)]

mod inode;
mod places;

// The tests stand in `inode_rows`.

pub use inode::{
    LARGEST_INODE, LARGEST_SECTORS, VERSION, XfsInode, read_inode, read_larger, read_start,
};
pub use places::{XfsInodes, read_inodes};
