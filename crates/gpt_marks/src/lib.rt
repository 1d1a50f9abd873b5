//! Sectors of GUID partition tables: the header and the entries (UEFI 2.10, 5.3).
//!
//! [`read_header`] recognizes a header by its signature, size and checksum, [`own_table`] says whether it
//! is that of the image itself, and [`read_entries`] where the partitions of a sector of the table begin.
//! Entries are taken to have 128 bytes. The definitions stand in `specs/Header`, `Entry` and `Crc`. The
//! law that such a sector is of no other kind is in `survey_engine`, which looks for them.
#![tactic(auto)]

mod crc;
mod entries;
mod header;

// The tests stand in `mark_rows`.

pub use crc::crc32;
pub use entries::read_entries;
pub use header::{GptHeader, own_table, read_header};
