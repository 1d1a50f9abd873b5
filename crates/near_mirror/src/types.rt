//! The parameters of a mirror, and why they may make no sense.
use raid_params::Slots;

/// How the copies of a chunk lie: the layouts of RAID 10 of the Linux md driver.
#[derive(Clone, Copy, Debug, PartialEq, Eq)]
pub enum Copying {
    /// In cells beside each other, row by row.
    Near,
    /// Each in a part of its own of the members, a slot further on.
    Far,
    /// Each in the row below, a slot further on.
    Offset,
}

/// A layout of copies.
#[derive(Clone, Copy, Debug, PartialEq, Eq)]
pub struct CopyLayout {
    /// How the copies of a chunk lie.
    pub copying: Copying,
    /// How many copies of each chunk there are: from `FEWEST_COPIES` to `MOST_COPIES`.
    pub copies: u8,
}

/// The parameters of a mirror but for its slots.
#[derive(Clone, Copy)]
pub struct NearHead {
    /// The number of members: of slots, empty ones too.
    pub members: u8,
    /// The chunk, in sectors.
    pub chunk: u64,
    /// The image sector at which the data of each member begin.
    pub offset: u64,
    /// How the copies lie.
    pub layout: CopyLayout,
}

/// The parameter set of a mirror: RAID 10 of the Linux md driver in one of its layouts near, far or offset.
#[derive(Drop)]
pub struct NearSet {
    /// What does not depend on the images.
    pub head: NearHead,
    /// What each slot holds, the first slot first.
    pub slots: Slots,
}

/// Why a parameter set makes no sense, with the value that breaks the rule.
#[derive(Clone, Copy, Debug, PartialEq, Eq)]
pub enum NearRule {
    /// Fewer members than copies or than 2, more than `MOST`, or not as many as there are slots; or no number of copies.
    Members(u8),
    /// The chunk, in sectors, is no power of two from 1 to `LARGEST_CHUNK`.
    Chunk(u64),
    /// A slot names an image that does not exist: the first such number.
    Image(u8),
    /// An image stands in two slots: the first number that is met again.
    Repeat(u8),
    /// Of two near copies: empty slots that leave a chunk no copy, or more than one where there is no row. Their number.
    Missing(u8),
    /// No whole row lies between the offset and the end, or fewer than copies that are not near: the offset, in sectors.
    NoRow(u64),
    /// Of other layouts: a chunk of which no slot holds an image, the first such chunk.
    NoCopy(u64),
}
