//! CRC-32C of bytes, forward and backward.
//!
//! [`after`] is the register that bytes leave, [`before`] the one register with which given bytes leave a given one: so
//! what a checksum begins with can be told from the checksum. The definitions stand in `specs/Register`, by the
//! polynomial bit by bit; the tables that the calls go by are proved to be those of it.
//!
//! What a file system keeps: ext4 the register itself, from a seed; XFS and btrfs the register from all ones, inverted.
#![tactic(auto)]

mod register;
mod tables;

// The tests stand in `inode_rows`.

pub use register::{after, before};
