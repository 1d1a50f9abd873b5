//! Which parameter sets give the same volume, whatever the images hold.
//!
//! A byte of a volume is a sum, over the images, of a coefficient times the image's byte in the same column. The
//! coefficients are those of the set alone; they stay the same while its parity stays, and repeat after a period. So
//! [`same_volume`] compares them where the parity of a set moves, and sets that break no rule are alike exactly where they
//! are equal ([`coefficients_tell`]). [`classes`] reads a list of sets and
//! numbers their classes.
//!
//! When sets are alike stands in `specs/Alike`, coefficients in `specs/Coefficients`, set lists in `specs/SetLists`, and
//! the numbers of classes in `specs/Classes`.
#![tactic(auto)]

mod alike;
mod classing;
mod coefficients;
mod fault;
mod laws;
mod numbering;
mod reading;
mod stretches;
mod tables;
mod units;
mod writing;

// The tests stand in `text_rows`.

pub use alike::same_volume;
pub use classing::classes;
pub use fault::ClassFault;
pub use laws::{coefficients_tell, each_item_is_weighed, rows_repeat, volumes_are_sums};
