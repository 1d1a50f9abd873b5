//! The job of the command `classes`: which sets of a listing give the same volume.
//!
//! Its source has the lines of a listing. What is read from them, and what the answer is, stands in `volume_classes`; what
//! the job is in `specs/Classing`. It reads no image.
#![tactic(auto)]

mod classing;
mod laws;

pub use classing::classes;
pub use laws::lists_have_one_reading;
