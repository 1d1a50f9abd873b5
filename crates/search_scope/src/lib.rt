//! The scope of a search: what of the images it tests, and within which bounds its parameters lie.
//!
//! A [`Scope`] says how long the images are, where the array ends in them, and how rows are tested. It knows no landmark, so
//! what reads rows stands on it and not on plans. [`tested_rows`] says of how many rows of sectors that is. Which scopes and
//! which bounds there are stands in `specs/Scopes`, the tested rows in `specs/Rows`.
#![tactic(auto)]

mod scope;
mod testing;

pub use scope::{Limits, Scope};
pub use testing::tested_rows;
