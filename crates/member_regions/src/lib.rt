//! The members of a set in memory: a region of sectors for each, read and tested there.
//!
//! [`Regions`] takes its memory once, and is filled as often as need be. `row_scan` tests rows in it, and the tables of rows
//! compare whole images in it. [`read_member`] reads into bytes that the caller has. What regions hold stands in
//! `specs/Regions`, what is asked of the members in `specs/Members`. `lost_members` finds lost members in regions of its own.
//!
//! [`sum_images`] adds up the sectors of all images at each place, where each image has a region: `row_scan` and the tables
//! of rows test rows by these sums. What they say stands in `specs/ImageSums`.
#![tactic(auto)]

mod image_sums;
mod reading;
mod regions;
mod turning;

pub use image_sums::{ImageSum, sum_images};
pub use reading::read_member;
pub use regions::{BLOCK, Regions, zeros};
pub use turning::turn_to;
