//! Landmarks: where the marks of images lie on the volume of a parameter set, and whether they lie where
//! file systems and partition tables put them.
//!
//! A mark is a landmark sector of an image with the rule that says where on the volume it may lie. The marks of one
//! partition table or file system form a group. [`groups_hold`] is the landmark test of a parameter set, and
//! [`held_origin`] says from where a group holds. A group may have bounds of its own ([`bounds_for`]). [`tally`] counts, and [`sector_in`] says which sector of the
//! volume a slot holds at a sector of its image. Rules stand in `specs/Rules`, where marks lie in `specs/Marks`,
//! the test and what a plan may hold in `specs/Groups`. Which kinds there are is `mark_kinds`' matter.
#![tactic(auto)]

mod counting;
mod limits;
mod marks;
mod testing;

// The tests stand in `layout_rows`.

pub use counting::{fits, sector_in, tally};
pub use limits::{MOST_MARKS, MOST_ORIGINS};
pub use mark_kinds::{GROUPS, GroupKind, KINDS, Kind, MOST_GROUPS};
pub use marks::{Group, Groups, Mark, MarkBounds, MarkCount, MarkTests, Marks, Rule};
pub use testing::{bounds_for, groups_hold, held_origin, origins_for};
