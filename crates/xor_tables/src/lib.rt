//! What the rows of sectors refuse of slot lists, where every slot list holds every image.
//!
//! There the exclusive or of all images is that of all members in any order. So one reading of the images tells in
//! how many tested rows of sectors no level 5 can be sound, and, for each image, in how many no level 6 can be that
//! puts this image on Q. [`needs_table`] says of which heads that is asked, and [`rows_decide`] for which it answers
//! the parity test of each set.
//!
//! An [`XorTable`] counts all tested rows of a chunk and an offset, by the turns of a delay: a [`Pace`] says how long Q
//! stays on a slot. An [`EarlyTable`] is made together with those of other paces of its offset in one reading, which ends
//! where further rows could tell nothing more of the levels of the plan. By them tell [`rows_may_hold`] and, for the prefixes of one head, [`HeadRows`] of a prefix whether more rows
//! are known to be unsound than may be.
//!
//! The rows that are read for such tables are offered to a sampler (`row_samples`), so that none is read for it alone. [`needs_samples`]
//! says of which heads rows are asked.
//!
//! What is known of a prefix stands in `specs/Rows`, and what the tables hold in `specs/Xors`, `specs/Early` and `specs/Heads`, and
//! what paces there are in `specs/Paces`.
//! `prune_filters` asks it beside what the marks refuse.
#![tactic(auto)]

mod breaks;
mod early_table;
mod head_rows;
mod most_tested;
mod pace;
mod row_counts;
mod row_sums;
mod row_tally;
mod rows;
mod sampling;
mod settling;
mod xor_table;

pub use early_table::EarlyTable;
pub use head_rows::HeadRows;
pub use most_tested::most_rows;
pub use pace::Pace;
pub use rows::{needs_samples, needs_table, rows_decide, rows_may_hold};
pub use xor_table::{TableFault, XorTable};
