//! Parts of a plan that stand on lines one after the other.
use arrayvec::ArrayVec;
use landmark_rules::{MOST_ORIGINS, MarkTests};
use raid_params::{
    Bounds, Level, MOST_CHUNKS, MOST_DELAYS, MOST_LESS_ONE, MOST_LEVELS, MOST_OFFSETS,
    MOST_PATTERNS, MOST_SYNDROMES, Pattern, Syndrome,
};
use search_plan::Limits;

/// The arrays to try: their levels, members and layouts.
#[derive(Drop)]
pub struct Arrays {
    pub levels: ArrayVec<Level, MOST_LEVELS>,
    pub members: ArrayVec<u8, MOST_LESS_ONE>,
    pub patterns: ArrayVec<Pattern, MOST_PATTERNS>,
    pub delays: ArrayVec<u64, MOST_DELAYS>,
    pub syndromes: ArrayVec<Syndrome, MOST_SYNDROMES>,
}

/// What stands on the line after the patterns.
#[derive(Drop)]
pub enum AfterPatterns {
    /// Delays, which are others than one alone.
    Delays(ArrayVec<u64, MOST_DELAYS>),
    /// The orders of Q: parity stays for one row.
    Syndromes(ArrayVec<Syndrome, MOST_SYNDROMES>),
}

/// Where data and file systems may begin, in sectors, and the chunk sizes.
#[derive(Drop)]
pub struct Sizes {
    pub chunks: ArrayVec<u64, MOST_CHUNKS>,
    pub offsets: ArrayVec<u64, MOST_OFFSETS>,
    pub origins: ArrayVec<u64, MOST_ORIGINS>,
}

/// What may be missing, foreign or wrong, and how much is tested.
#[derive(Clone, Copy)]
pub struct Counts {
    pub missing: u8,
    pub foreign: u8,
    pub badrows: u64,
    pub window: u64,
    pub misfits: u64,
    pub least: u64,
}

/// What is searched in the images, and how it is tested.
#[derive(Drop)]
pub struct Search {
    pub end: u64,
    pub bounds: Bounds,
    pub limits: Limits,
    pub tests: MarkTests,
}
