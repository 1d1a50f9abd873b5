//! Tests of the readers of inodes and tree blocks: checksums of RFC 3720, and sectors that `mke2fs`, `mkfs.xfs` and
//! `mkfs.btrfs` wrote, with numbers and places that `dumpe2fs`, `debugfs`, `xfs_db` and `btrfs inspect-internal` print.
#![tactic(auto)]

#[cfg(test)]
mod btrfs;
#[cfg(test)]
mod btrfs_blocks;
#[cfg(test)]
mod btrfs_leaves;
#[cfg(test)]
mod btrfs_parts;
#[cfg(test)]
mod checksums;
#[cfg(test)]
mod ext;
#[cfg(test)]
mod ext_copies;
#[cfg(test)]
mod ext_sectors;
#[cfg(test)]
mod sectors;
#[cfg(test)]
mod xfs;
#[cfg(test)]
mod xfs_sectors;
