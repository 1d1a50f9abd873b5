//! Rescue texts: which ranges of damaged images were read, as the map files of GNU ddrescue say.
//!
//! A text has a section for each image that has a map file: a line `map I`, and the lines of that file. [`read_rescue`]
//! reads it. What the lines say stands in `specs/Lines`, and what a text says in `specs/RescueText`: the law
//! [`sections_are_of_images_in_order`] says which sections that may be.
#![tactic(auto)]

mod block;
mod draft;
mod fault;
mod good;
mod laws;
mod marker;
mod number;
mod rescue;
mod section;
mod words;

pub use block::{Block, Status};
pub use fault::RescueFault;
pub use laws::sections_are_of_images_in_order;
pub use rescue::{Rescue, read_rescue};
pub use section::Section;
