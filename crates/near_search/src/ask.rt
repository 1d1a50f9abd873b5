//! What is asked of a search for mirrors.
use arrayvec::ArrayVec;
use near_mirror::CopyLayout;
use raid_params::{MOST_CHUNKS, MOST_LESS_ONE, MOST_OFFSETS};

/// The most layouts to try: three ways in which two to four copies lie.
pub const MOST_LAYOUTS: usize = 9;

/// Which mirrors a search goes through, every combination of these values over the attached images, and which of them pass.
#[derive(Drop)]
pub struct NearAsk {
    /// The layouts to try.
    pub layouts: ArrayVec<CopyLayout, MOST_LAYOUTS>,
    /// The numbers of members to try.
    pub members: ArrayVec<u8, MOST_LESS_ONE>,
    /// The chunks to try, in sectors.
    pub chunks: ArrayVec<u64, MOST_CHUNKS>,
    /// The image sectors to try at which the data of each member may begin.
    pub offsets: ArrayVec<u64, MOST_OFFSETS>,
    /// The most empty slots.
    pub missing: u8,
    /// The most images that stand in no slot.
    pub foreign: u8,
    /// The most tested sectors that may be torn, over each two of their copies.
    pub badrows: u64,
    /// The most member sectors of each slot that are tested, of far copies in each part.
    pub window: u64,
    /// The image sector at which the members end.
    pub end: u64,
}
