//! The survey of images: it finds landmark sectors, and makes the plan of a search from them.
//!
//! [`survey`] sweeps the attached images side by side in sector order. A sector that is a GPT header, an
//! NTFS boot sector or file record, an XFS superblock, AGF, AGI or inode, a superblock or tree block of btrfs, a label of
//! LVM2, a copy of a superblock of ext2 to ext4 or two inodes of ext4 is a sighting. Of each kind the first 4,096 count. They make the groups of the
//! plan, one for the partition table, one for each file system and one for each label. The entries after a GPT
//! header say at which volume sectors a file system may begin. The blocks of a partition table have 512 bytes or
//! 4,096, as is asked.
//!
//! The sweep takes its memory once, 128 KiB an image however long the images are, reads a block of each image in one call an
//! image, and each sector once: `specs/Sweep`.
//!
//! A tree block of btrfs has its logical address alone. Where that lies is told by leaves of the tree of chunks, which are
//! read after the sweep, in any order: that the newest decide is the law [`newest_leaves_decide`]. An inode of ext4 has
//! not even its number: that, and where the inode lies, is told by a copy of a
//! superblock of ext and the descriptors behind it: `specs/Telling`. Of an inode of XFS of 1,024 or 2,048 bytes the sweep
//! sees the first sector alone, and what lies past it is read then: `specs/Sizing`. Where it lies, the superblocks of its file
//! system say; if they differ, most of them decide: `specs/Systems`. File records of NTFS are read then too: whole records 0
//! among them tell where a volume has the others, and each of their tables makes a group: `specs/Tables`.
//!
//! What a sector may be stands in `specs/Landmarks`, which are sightings and count in `specs/Sightings`,
//! groups and the rules of their marks in `specs/Owners`, the origins in `specs/Origins`, and the plan in
//! `specs/Surveys`. Each filters one list of all sectors; the code looks at each sector once. That no sector is by its
//! front of two kinds is the law [`no_sector_is_of_two_kinds`]; a superblock of btrfs or ext is what is none of them, an inode of XFS of
//! 512 bytes what is none of these, a tree block what is no such inode either, two inodes of ext4 what is no tree block either,
//! what may begin a larger inode of XFS what is none of these, and a file record or boot sector of `mft` what is nothing else. That no inode of XFS is passed over that may be a mark is the law
//! [`no_mark_is_passed_over`].
#![tactic(auto)]

mod ask;
mod copies;
mod count;
mod excluding;
mod gathering;
mod grouping;
mod hints;
mod landmark;
mod majority;
mod newest;
mod owner;
mod planning;
mod sighting;
mod sizing;
mod stretches;
mod sweep;
mod systems;
mod tables;
mod telling;

pub use ask::Ask;
pub use excluding::no_sector_is_of_two_kinds;
pub use majority::most_superblocks_decide;
pub use newest::newest_leaves_decide;
pub use planning::{SurveyFault, survey};
pub use search_plan::{DropAt, Kinds};
pub use stretches::no_mark_is_passed_over;
