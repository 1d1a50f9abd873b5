//! The jobs of the commands `mirrors` and `mirrorwrite`: the mirrors that pass, and the volume of one.
//!
//! Which mirrors pass stands in `near_search`, the volume in `near_volume`; what the jobs refuse and print stands in
//! `specs/Mirroring` and `specs/MirrorWriting`.
#![tactic(auto)]

mod mirror_writing;
mod mirroring;

pub use mirror_writing::{mirrored_end, mirrorwrite};
pub use mirroring::{MirrorWords, mirrors};
