//! A walk over the lists of a space that leaves out what a family refuses.
//!
//! A [`Family`] means a space of slot lists and a test of prefixes. [`Survivors`] gives the lists
//! of a range of ranks whose every prefix passes that test, in order of rank. It goes from one
//! untested prefix to the next by counts, which stand in a table of the space, changes its prefix in
//! place, keeps no list of ranks, and takes no memory. What a family keeps of a prefix, it makes from
//! what it keeps of the prefix without its last place, so that a test need not look at all places. [`Steps`] counts the tests
//! of a walk, for contracts alone.
//!
//! `head_walk` and `near_search` walk the slot lists of a head with it. What survives stands in
//! `specs/Survivors`, how many tests a walk may take in `specs/Tests`, and where it stands in
//! `specs/Left`; what it keeps of its prefix and of the beginnings in `specs/Kept`, and the table in
//! `specs/Counts`. The laws: the leaves by their ranks, and that each leaf holds the list of its rank.
#![tactic(auto)]

mod counts;
mod family;
mod going;
mod laws;
mod leaf;
mod search;
mod steps;
mod survivors;
mod walk;

pub use family::Family;
pub use laws::{survivors_are_lists, survivors_by_rank};
pub use leaf::Leaf;
pub use steps::Steps;
pub use survivors::Survivors;
