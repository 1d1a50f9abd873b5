//! The commands over one parameter set: [`map`] says where a sector of its volume lies, [`write`] writes the
//! volume, and [`rebuild`] a lost member.
//!
//! A job answers with its output on `out`, or with the `Stop` that says why there is none. Refusals and
//! outputs stand in `specs/Mapping` and `Writing`.
#![tactic(auto)]

mod mapping;
mod writing;

pub use mapping::{images_end, map};
pub use writing::{rebuild, served_end, stop_of, write};
