//! Groups as they are read.
use landmark_rules::{Group, Groups};
use mark_kinds::{GROUP_COUNT, KIND_COUNT};

/// Groups as they are read, the last of them still open, and how many there are.
#[derive(Drop)]
pub struct Draft {
    /// The groups that are closed.
    pub closed: Groups,
    /// The group that was begun last, whose marks are being read.
    pub last: Option<Group>,
    /// The groups of each kind, by its place.
    pub groups: [usize; GROUP_COUNT],
    /// The marks of each kind in all groups, by its place.
    pub marks: [usize; KIND_COUNT],
}
