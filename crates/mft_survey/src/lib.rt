//! File records of NTFS on images: which are whole, which tables records 0 among them tell, and where the volumes have the
//! records by these tables.
//!
//! [`read_records`] reads each record of which the first sector was seen, [`marks_by`] says where records lie by a table. The
//! definitions stand in `specs/Records` and `Marks`.
#![tactic(auto)]

mod marks;
mod records;

pub use marks::{RecordMark, marks_by, most_marks};
pub use records::{MOST_TABLES, ReadFault, RecordSeen, Records, is_same_boot, read_records};
