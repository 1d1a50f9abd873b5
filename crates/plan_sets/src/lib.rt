//! The parameter sets of a plan: which there are, in which order, and which of them pass.
//!
//! It runs nothing: `specs/Sets` is what the contracts of the crates that walk, count and list sets speak of. Its examples are
//! small arrays whose answers were worked out by hand.
#![tactic(auto)]
