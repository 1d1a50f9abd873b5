//! What a survey is asked for.
use arrayvec::ArrayVec;
use landmark_rules::MarkTests;
use raid_params::Bounds;
use search_plan::{DropAt, Kinds, Limits, MOST_DROPS};

/// What a survey is asked for: what the plan repeats, and which sectors are looked at.
#[derive(Drop)]
pub struct Ask {
    /// The parameters to try. No sector below the smallest offset is looked at.
    pub bounds: Bounds,
    /// The image sector after the last one that may belong to the array.
    pub end: u64,
    /// How rows are tested.
    pub limits: Limits,
    /// How landmarks are tested, with the origins that are known.
    pub tests: MarkTests,
    /// The kinds to look for.
    pub kinds: Kinds,
    /// The sectors to pass over.
    pub drops: ArrayVec<DropAt, MOST_DROPS>,
    /// Whether each image has an offset of its own.
    pub each: bool,
    /// The sectors of a block of a partition table: 1 where blocks have 512 bytes, 8 where they have 4,096.
    pub unit: u64,
}
