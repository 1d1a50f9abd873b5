//! The command `survey`: it looks for landmarks on the images, and prints the plan that `list` then searches.
//!
//! It answers with the plan on `out`, or with the `Stop` that says why there is none. What it refuses and
//! prints stands in `specs/Surveying`, the survey itself in `survey_engine`. That no plan is too long to be read again is
//! the law [`no_plan_is_too_long`].
#![tactic(auto)]

mod laws;
mod surveying;

pub use laws::no_plan_is_too_long;
pub use surveying::{ask_of, survey};
