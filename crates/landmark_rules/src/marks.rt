//! Marks, groups of marks, and what is asked of them.

use crate::MOST_ORIGINS;
use arrayvec::ArrayVec;
use mark_kinds::{GroupKind, Kind};
use outside::ListOf;

/// Where a mark may lie: its distances, in sectors, from the sector of the volume at which its partition
/// table or file system begins.
#[derive(Clone, Copy)]
pub enum Rule {
    /// At this distance.
    At(u64),
    /// At one of these two.
    Either(u64, u64),
    /// At `k * step + plus`, for each `k` below `count`.
    Every {
        /// The sectors from one distance to the next.
        step: u64,
        /// How many distances there are.
        count: u64,
        /// The first distance.
        plus: u64,
    },
}

/// A landmark sector of an image.
#[derive(Clone, Copy)]
pub struct Mark {
    /// What the sector is.
    pub kind: Kind,
    /// The number of the image.
    pub image: u8,
    /// The sector of the image.
    pub sector: u64,
    /// Where on the volume it may lie.
    pub rule: Rule,
}

/// Marks in their order.
pub type Marks = ListOf<Mark>;

/// How many marks of a group may lie where their rules do not let them, and how many have to lie where they do.
#[derive(Clone, Copy, Debug, PartialEq, Eq)]
pub struct MarkBounds {
    /// The most marks of a group that may lie where their rules do not let them.
    pub misfits: u64,
    /// The fewest marks of a group that have to lie where their rules let them; all of them, in a group with
    /// fewer.
    pub least: u64,
}

/// The marks of one partition table or file system.
#[derive(Drop)]
pub struct Group {
    /// What they belong to.
    pub kind: GroupKind,
    /// The marks, by sector, and on one sector by image.
    pub marks: Marks,
    /// The bounds of this group alone, which take the place of those that are asked of all groups.
    pub bounds: Option<MarkBounds>,
}

/// Groups in their order.
pub type Groups = ListOf<Group>;

/// What is asked of groups.
#[derive(Drop)]
pub struct MarkTests {
    /// The sectors of the volume at which a file system may begin.
    pub origins: ArrayVec<u64, MOST_ORIGINS>,
    /// The most marks of a group without bounds of its own that may lie where their rules do not let them.
    pub misfits: u64,
    /// The fewest marks of a group without bounds of its own that have to lie where their rules let them; all of
    /// them, in a group with fewer.
    pub least: u64,
}

/// How many marks lie where their rules let them, and how many elsewhere.
#[derive(Clone, Copy, Debug, PartialEq, Eq)]
pub struct MarkCount {
    /// Those that lie where their rules let them.
    pub fits: u64,
    /// Those that lie elsewhere.
    pub misfits: u64,
}
