//! The job of the command `salvage`: the volume of a set whose images have unreadable areas, or what of it is lost.
//!
//! Its source has the rescue text, which says what was read of the images. How that is read, and what the volume is, stands in
//! `rescue_map`; what the job is in `specs/Salvaging`.
#![tactic(auto)]

mod salvaging;

pub use salvaging::{Ready, prepare, rescue_left, salvage};
