//! Tests of the readers of landmark sectors.
//!
//! `fields` reads the fields of a sector, `gpt`, `ntfs`, `xfs`, `btrfs`, `lvm` and `ext` sectors that other programs
//! wrote, and sectors at and past the bounds of these. `sectors` makes them. The tests stand here, since a library
//! with tests is proved a second time with them.
#![tactic(auto)]

#[cfg(test)]
mod btrfs;
#[cfg(test)]
mod ext;
#[cfg(test)]
mod fields;
#[cfg(test)]
mod gpt;
#[cfg(test)]
mod lvm;
#[cfg(test)]
mod ntfs;
#[cfg(test)]
mod sectors;
#[cfg(test)]
mod xfs;
