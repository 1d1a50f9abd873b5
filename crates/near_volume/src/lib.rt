//! The volume of a mirror, written out.
//!
//! [`write_near`] reads each chunk from its first copy whose slot holds an image, and puts it, 128 KiB at a time. It takes the memory for
//! one such block before it reads. Small far chunks are read in runs, some rows of them by one call a slot. The volume stands in
//! `specs/Sectors`, what is asked of a set in `specs/Mirrored`, and what is read in runs in `specs/Columns`; where copies lie, and which
//! one is read, is said by `near_mirror`.
#![tactic(auto)]

mod columns;
mod rows;
mod spreading;
mod writing;

// The tests stand in `volume_rows`.

pub use writing::{read_copy, read_near, write_near};
