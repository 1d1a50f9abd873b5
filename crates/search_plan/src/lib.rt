//! What is searched: a plan, apart from its text.
//!
//! A [`Plan`] says over which images a search goes, which parameter sets it tries, and how their rows and
//! landmarks are tested. [`Plan::scope`] is what it says of rows alone, [`tested_rows`] of how many rows of sectors that is.
//! Which plans there are stands in `specs/Plans`, the tested rows in `specs/Rows`; the parameter sets of a plan are those of
//! `plan_sets`. `plan_text` reads and writes plans; what walks and surveys stands on this crate.
#![tactic(auto)]

mod limits;
mod plan;
mod testing;

pub use limits::PLAN_BYTES;
pub use mark_kinds::{DropAt, Kinds, MOST_DROPS};
pub use plan::Plan;
pub use raid_params::Placed;
pub use search_scope::Limits;
pub use testing::tested_rows;
