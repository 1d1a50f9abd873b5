//! What the marks of a plan refuse of slot lists that begin with a prefix.
//!
//! A [`MarkTable`] is built once for a head: it counts the marks of each group by origin, slot and image. By it
//! [`groups_may_hold`] tells of a prefix whether each group of marks may still hold at one of its origins: the marks
//! of the images that the prefix places count where they lie, and of the other images the most that each can add.
//!
//! What a prefix leaves possible stands in `specs/Marks`, and what a table holds in `specs/Tables`. `prune_filters`
//! asks it beside what the rows of sectors refuse.
#![tactic(auto)]

mod counting;
mod counts;
mod groups;
mod mark_table;

pub use groups::groups_may_hold;
pub use mark_table::MarkTable;
