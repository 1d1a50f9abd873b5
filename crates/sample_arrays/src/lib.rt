//! Generated arrays: the images of a set over a volume of random words, for trying the tool.
//!
//! [`sample`] fills a volume with the words of SplitMix64, and, where it is asked for, writes the first
//! sectors of the groups of an XFS over them. Each filled slot of the set gives an image. No volume is kept:
//! any sector of it is made alone, since the state of the generator rises by one constant a word.
//!
//! `sample_job` surveys the images and lists what passes. The words stand in `specs/Words`, the sectors of the
//! XFS in `specs/Marks`, the members in `specs/Arrays`, and what follows of them in `laws`: the data lie where
//! the address map says, and the equations of P and Q hold in every sector row
//! ([`laws::rows_of_generated_arrays_are_sound`]).
#![tactic(auto)]

mod arrays;
pub mod laws;
mod marks;
mod members;
mod words;

// The tests stand in `layout_rows`.

pub use arrays::{LEAST_MARKED, MOST_SAMPLED, count_held, sample};
