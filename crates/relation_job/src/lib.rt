//! The job of the command `relations`: how the images of an array depend on one another, before any layout is known.
//!
//! It looks at rows at a step, each one sector of each image, and puts a line for each run of rows with the same table as soon as the
//! run has ended (`relation_lines`). Which rows it looks at stands in `specs/Sampling`, what it refuses and prints in `specs/Relating`,
//! how rows are read that lie beside each other in `specs/Blocks`, what it puts of some of the rows in `specs/Looking`, and two laws of
//! the rows in `specs/Laws`. Its memory is taken before anything is read.
#![tactic(auto)]

mod laws;
mod looking;
mod reading;
mod relating;
mod sampling;

pub use laws::{default_step_is_the_least, rows_are_those_below_the_end};
pub use relating::relations;
