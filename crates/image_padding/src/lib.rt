//! Images of disks whose data begin at different sectors, seen as images whose data begin at one sector.
//!
//! Each image has a base, the sector at which its data begin. [`Padded`] is an [`Images`] over others: before each
//! image it puts sectors of zero, as many as its base lacks of the greatest base. What that means stands in
//! `specs/Padded`. The plan of images so padded is made by `padded_images`.
#![tactic(auto)]

mod padded;

pub use padded::{BASES_END, Padded, greatest_of};
