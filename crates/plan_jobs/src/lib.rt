//! The commands over a plan: [`list`] prints the parameter sets that pass, and [`check`] tests one.
//!
//! A job answers with its output on `out`, or with the `Stop` that says why there is none. Its contract holds
//! the first refusal in the order of work, and the bytes of its output, each as a function of what the words,
//! the plan and the images say. What a text says as a plan stands in `specs/Plans`, refusals and outputs in
//! `specs/Listing` and `Checking`.
#![tactic(auto)]

mod checking;
mod listing;
mod preparing;
mod reporting;

pub use checking::check;
pub use listing::{Listing, list};
