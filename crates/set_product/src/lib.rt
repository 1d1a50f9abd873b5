//! The product of a plan: every parameter set within its bounds, in one order.
//!
//! A set's rank is its position there. The product is counted, and each set found by its rank and
//! ranked, from the numbers of values and of slot lists: no set is kept, and none is walked past. A rank is a number
//! whose digits are the places of a set's values and of its slot list, and counts stop where no rank is as large.
//!
//! `page_engine` makes pages of the sets that pass. The sets of a plan stand in `Sets` of `plan_sets`.
//! The laws: ranks and sets undo each other, and two sets are the same exactly where they are equal.
#![tactic(auto)]

mod block;
mod digits;
mod heads;
mod laws;
mod opened;
mod product;
mod slot_space;

pub use heads::{HeadSets, Heads};
pub use laws::{
    heads_hold_their_ranks, heads_make_the_product, ranks_and_sets_undo, same_sets_are_equal,
};
pub use product::{product_rank, product_set, product_total};
