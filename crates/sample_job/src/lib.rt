//! The command `sample`: it generates an array, surveys its images, and says whether its set is on the first
//! page of what passes.
//!
//! It answers with six lines on `out`, or with the `Stop` that says why there are none. What it refuses and
//! prints stands in `specs/Sampling`, the array in `sample_arrays`. The images are the command's own, and they
//! never fail: `specs/Own`.
#![tactic(auto)]

mod own;
mod sampling;

pub use sampling::sample;
