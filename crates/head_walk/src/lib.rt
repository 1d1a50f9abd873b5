//! The parameter sets of one head that pass, over some images and a plan.
//!
//! [`gather_head`] walks the slot lists of a head, place by place, and gathers the sets of a range of its ranks into a
//! page in the making, [`Gathered`]. A head without a whole row has none. A prefix of a slot list is passed over with all
//! that begins so where some group of marks cannot hold any more, or where the images differ in more rows than may be
//! unsound. No set that passes is left out: that is a law of `prune_filters`.
//!
//! The sets that a walk admits are hopeful: they pass where they meet the parity test. They wait, also from one head to the
//! next, until as many do as a scan may test (`row_scan`), or those that are known to pass fill the page; then they are
//! tested in one pass over the images. [`finish`] tests those that wait at the end of a range. Of a set of which nothing can
//! break a row, or whose test the tables of rows decide, no row has to be tested: it takes part in the scan as one that is
//! known to pass.
//!
//! A table of marks is held at a time. Of each offset, tables of rows for all chunks and delays together and some whole rows
//! are kept in [`KeptTables`] for all pages of a call; they are made where the first head needs them. By the relations of the rows a
//! prefix is passed over with all that begins so, and a whole slot list before it waits (`relation_prefix`): which rows are asked
//! stands in `specs/Relations`.
//!
//! `common_pages` walks the heads of a plan with it. What a walk keeps stands in `specs/Walk`, and how many sets of a range
//! are hopeful, with what is read for them, in `specs/Counts`.
#![tactic(auto)]

mod asking;
mod gathering;
mod hopeful;
mod parts;
mod row_tables;
mod scanning;
mod waiting;
mod walking;

pub use gathering::Gathered;
pub use parts::{Line, Lines, Paging, WalkFault};
pub use row_tables::{KeptTables, OffsetTables};
pub use scanning::finish;
pub use waiting::Waiting;
pub use walking::gather_head;
