//! The product of a plan whose images may have offsets of their own: every parameter set within its bounds, in one order.
//!
//! Where the images of a plan have a common offset, this is the product of `set_product`. Otherwise a list of bases, an offset for
//! each image, stands in the place of the offset: the lists come in lexicographic order. A set's rank is its position.
//!
//! No list of bases is kept and none is walked past: a rank is a number whose digits are the places of a set's values, of its
//! bases and of its slot list. Each list of bases with what a head has beside its offset is a [`Part`] of the product:
//! [`part_at`] gives the one in which a rank lies. What the sets are, and which of them pass, stands in `specs/Sets`.
#![tactic(auto)]

mod base_lists;
mod groups;
mod laws;
mod padded_part;
mod parts;
mod product;

pub use laws::{parts_make_the_product, ranks_and_sets_undo};
pub use padded_part::PaddedPart;
pub use parts::{Part, part_at};
pub use product::{product_rank, product_set, product_total};
