//! Objects that the tests of several crates take: a gate at which pieces of a scan meet, images that count what is read of
//! them, images of which some sectors cannot be read, images that are attached one after the other, how long they are, and sectors of XFS.
//!
//! They stand here, below the crates of tests, so that each is written once.
#![tactic(auto)]

mod counted;
mod holed;
mod joining;
mod lengths;
mod meeting;
mod xfs_sectors;

pub use counted::Counted;
pub use holed::Holed;
pub use joining::{NAMES, attached, join, sectors};
pub use lengths::{FAR, all_reach, are_below};
pub use meeting::Meeting;
pub use xfs_sectors::{LARGE_INODE, LARGE_SUPER, LARGEST_SUPER};
