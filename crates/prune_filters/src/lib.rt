//! Which prefixes of slot lists may still lead to a parameter set that passes.
//!
//! A search goes through the slot lists of a head place by place. A prefix is hopeful where nothing in it rules
//! out yet that a set whose slots begin so passes: the groups of marks may still hold, and no more rows are known
//! to be unsound than may be. [`prefix_may_pass`] answers it, by two tables that are built once: a [`MarkTable`]
//! for a head counts the marks by group, origin, slot and image, and an [`XorTable`] for a chunk, a delay and an offset
//! counts the tested rows of sectors in which the images differ. [`needs_table`] says which heads need the second,
//! and [`rows_decide`] for which it answers the parity test of their sets already.
//!
//! Where images do not belong together, the first rows show it: an [`EarlyTable`] is made in one reading for all
//! chunks and delays of an offset, which ends where further rows could tell nothing more of the levels of the plan. By it
//! [`HeadRows`] holds, once for a head, what breaks where an image stands in a slot, and [`early_may_pass`] answers by
//! them as [`prefix_may_pass`] does by the whole table.
//!
//! What is hopeful stands in `specs/Hopeful`, over `specs/Marks` of `mark_tables` and `specs/Rows` of `xor_tables`;
//! what the tables hold, in the `specs/` of these two, which this crate passes on with their names. The laws: each prefix of a set that passes is hopeful, whatever
//! bytes the images hold; of a whole slot list as much is asked of the marks as by the landmark test; and at level 5,
//! where every slot list holds every image, as much of the rows as by the parity test ([`rows_decide_level_five`]).
#![tactic(auto)]

mod laws;
mod prefix;

pub use laws::{
    passing_sets_are_hopeful, rows_decide_level_five, whole_lists_take_the_landmark_test,
};
pub use mark_tables::MarkTable;
pub use prefix::{early_may_pass, prefix_may_pass};
pub use xor_tables::{
    EarlyTable, HeadRows, Pace, TableFault, XorTable, most_rows, needs_samples, needs_table,
    rows_decide,
};
