//! What of the images a search tests.
use arrayvec::ArrayVec;
use raid_params::MOST;

/// How much of the members is tested, and how much of it may be unsound.
#[derive(Clone, Copy)]
pub struct Limits {
    /// The most tested sector rows that may be unsound.
    pub badrows: u64,
    /// Only member sectors below this are tested.
    pub window: u64,
}

/// What of the images a search tests, whatever parameters it tries.
#[derive(Drop)]
pub struct Scope {
    /// The lengths of the images, in sectors.
    pub lengths: ArrayVec<u64, MOST>,
    /// The image sector after the last one that may belong to the array.
    pub end: u64,
    /// How the rows are tested.
    pub limits: Limits,
}
