//! Sectors of NTFS: the boot sector and the file records of the master file table (NTFS 3.1).
//!
//! [`read_boot`] says where the table and its mirror begin and how large a record is, [`read_record`] the
//! number of a record and its size. The definitions stand in `specs/Boot`, `RecordSize` and `FileRecord`.
//! The law that such a sector is of no other kind is in `survey_engine`, which looks for them.
#![tactic(auto)]

mod boot;
mod file_record;
mod record_size;

// The tests stand in `mark_rows`.

pub use boot::{NtfsBoot, read_boot};
pub use file_record::{NtfsRecord, read_record};
