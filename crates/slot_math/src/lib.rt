//! Counting and numbering slot lists.
//!
//! A [`Space`] is all slot lists of `members` places over `images` images, with distinct images and from
//! `low` to `high` empty places, in lexicographic order with an empty place last. It has a length, each
//! prefix has a number of lists that begin with it, each list has a rank, and each rank a list. Nothing
//! is kept in memory: the numbers come from counts.
//!
//! `set_product` ranks slot lists with it, and `candidate_enum` walks them. The lists of a space stand in
//! `specs/Space`, over `SlotLists` of `raid_terms`; how prefixes go on, in `specs/Ways`. The laws: each
//! list stands once, each has the right shape, and ranks and lists undo each other.
#![tactic(auto)]

mod counts;
mod laws;
mod places;
mod ranks;
mod space;

pub use laws::{each_list_is_shaped, each_list_once, ranks_and_lists_undo};
pub use space::Space;
