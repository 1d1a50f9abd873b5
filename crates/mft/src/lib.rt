//! File records of NTFS, and where a volume's table of them says that they lie.
//!
//! [`read_boot`] says of a boot sector how large clusters and records are and where the table and its mirror begin;
//! clusters may have up to 2 MiB here. [`read_start`] says of a sector that a record begins in it, and which, and
//! [`is_whole`] whether all sectors of a record belong together. [`read_table`] reads from record 0 in which runs of
//! clusters the table lies, and [`MftTable::place`] says where the volume has a record. The definitions stand in
//! `specs/Boot`, `Start`, `Fields`, `Runs` and `Places`.
#![tactic(auto)]

mod boot;
mod fields;
mod places;
mod runs;
mod start;

// The tests stand in `mft_rows`.

pub use boot::{MftBoot, is_near, is_record_size, read_boot};
pub use places::{MftPlace, MftTable, read_table};
pub use runs::{MOST_RUNS, Run, Runs};
pub use start::{LARGEST_RECORD, RecordStart, is_whole, read_start};
