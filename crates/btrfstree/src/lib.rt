//! Tree blocks of btrfs, and where their addresses lie on one device.
//!
//! [`read_block`] says of a sector that a tree block begins in it that counts as a mark, and which. [`is_whole`] says whether
//! the checksum of a block is right, [`read_leaf_chunk`] of a leaf of the tree of chunks where the addresses of one of its
//! chunks lie, once or twice ([`Chunk::first_place`], [`Chunk::second_place`]). The definitions stand in `specs/Header`,
//! `Whole` and `Chunks`; that places are near, `proofs/Told` says.
#![tactic(auto)]

mod chunks;
mod fields;
mod header;
mod whole;

// The tests stand in `inode_rows`.

pub use chunks::{Chunk, read_leaf_chunk};
pub use header::{TreeBlock, read_block};
pub use whole::is_whole;
