//! A line of the groups of a plan.
use landmark_rules::{GroupKind, Mark, MarkBounds};

/// A line of the groups of a plan.
#[derive(Clone, Copy)]
pub enum Entry {
    /// The last line.
    Done,
    /// The line that begins a group.
    Group(GroupKind),
    /// The bounds of the group that was begun last.
    Bounds(MarkBounds),
    /// A mark of the group that was begun last.
    Mark(Mark),
}
