//! The plan of images of disks whose data begin at different sectors, once they are padded so that all data begin at one sector.
//!
//! [`Padded`] pads the images, by `image_padding`. [`pad_plan`] is the plan of the images so padded: their lengths grow, and
//! the marks move with them; `specs/Plans` says what it is.
#![tactic(auto)]

mod plans;

pub use image_padding::{BASES_END, Padded};
pub use plans::pad_plan;
