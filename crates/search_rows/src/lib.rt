//! Tests of the libraries of the search, over objects in memory.
//!
//! What each answers was worked out by hand: `products` the sets of a plan by rank, `prefixes` which beginnings of slot
//! lists may pass, `row_counts` and `many_sets` the rows of sets, `listings` pages, `sampled` what rows that are kept refuse, `surveys` the
//! plans of images, and `extinodes`, `trees` and `ntfs` those of inodes of ext4, of tree blocks of btrfs and of file records of NTFS.
//! The tests stand here, since a library with tests is proved a second time with them. Their plans stand in `plans`,
//! lists and images in `objects`, and what surveys ask for in `surveying`.
#![tactic(auto)]

#[cfg(test)]
mod extinodes;
#[cfg(test)]
mod listings;
#[cfg(test)]
mod many_sets;
#[cfg(test)]
mod ntfs;
#[cfg(test)]
mod objects;
#[cfg(test)]
mod plans;
#[cfg(test)]
mod prefixes;
#[cfg(test)]
mod products;
#[cfg(test)]
mod row_counts;
#[cfg(test)]
mod sampled;
#[cfg(test)]
mod surveying;
#[cfg(test)]
mod surveys;
#[cfg(test)]
mod trees;
#[cfg(test)]
mod xfs_sectors;
