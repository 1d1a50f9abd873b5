//! The types of parameters.
use crate::limits::{
    MOST, MOST_CHUNKS, MOST_DELAYS, MOST_LESS_ONE, MOST_LEVELS, MOST_OFFSETS, MOST_PATTERNS,
    MOST_SYNDROMES,
};
use arrayvec::ArrayVec;

/// A RAID level. RAID 4 is `Raid5` with the pattern `ParityLast`.
#[derive(Clone, Copy, Default)]
pub enum Level {
    /// Striping without parity.
    #[default]
    Raid0,
    /// One parity block P in each row.
    Raid5,
    /// Two parity blocks, P and Q, in each row.
    Raid6,
}

/// How the parity of a row moves from row to row, and where the data lie beside it. The names
/// are md's: left and right say which way P moves, symmetric that the data begin after it. Those
/// with a 6 rotate as at level 5 over all slots but the last, which holds Q.
#[derive(Clone, Copy, Default)]
pub enum Pattern {
    /// No parity: level 0.
    #[default]
    Plain,
    /// Left-asymmetric.
    La,
    /// Right-asymmetric.
    Ra,
    /// Left-symmetric.
    Ls,
    /// Right-symmetric.
    Rs,
    /// Parity on the first slots.
    ParityFirst,
    /// Parity on the last slots.
    ParityLast,
    /// DDF's N restart.
    NRestart,
    /// DDF's N continue.
    NContinue,
    /// Left-asymmetric over all slots but the last.
    La6,
    /// Right-asymmetric over all slots but the last.
    Ra6,
    /// Left-symmetric over all slots but the last.
    Ls6,
    /// Right-symmetric over all slots but the last.
    Rs6,
    /// Parity on the first slot, and Q on the last.
    ParityFirst6,
}

/// In what order the Q syndrome of a row counts its data blocks.
#[derive(Clone, Copy, Default)]
pub enum Syndrome {
    /// No Q: levels 0 and 5.
    #[default]
    NoQ,
    /// From the slot after Q on, round the slots: md's own order.
    AfterQ,
    /// By the number of the data item in the row.
    ByData,
    /// By the number of the slot: the order of the DDF layouts.
    BySlot,
}

/// The parameters of an array but for its slots.
#[derive(Clone, Copy)]
pub struct Head {
    /// The RAID level.
    pub level: Level,
    /// The number of members: of slots, empty ones too.
    pub members: u8,
    /// How the parity rotates.
    pub pattern: Pattern,
    /// For how many rows the parity stays before it moves on: 1 in all layouts of md, mostly 16 with the
    /// delayed parity of Smart Array controllers.
    pub delay: u64,
    /// In what order Q counts the data blocks.
    pub syndrome: Syndrome,
    /// The chunk, in sectors.
    pub chunk: u64,
    /// The image sector at which the data of each member begin.
    pub offset: u64,
}

/// What each slot holds: an image by its number, or nothing where the member is missing.
pub type Slots = ArrayVec<Option<u8>, MOST>;

/// The parameter set of an array.
#[derive(Drop)]
pub struct Geometry {
    /// What does not depend on the images.
    pub head: Head,
    /// What each slot holds, the first slot first.
    pub slots: Slots,
}

/// What a block of a row is for the parity equations.
#[derive(Clone, Copy, Default)]
pub enum Part {
    /// A data block, which Q weighs by 2 to this power in the field of 256 elements.
    Block(u8),
    /// The parity block.
    #[default]
    P,
    /// The block of the Q syndrome.
    Q,
}

/// A block of a row, and whether its member is missing.
#[derive(Clone, Copy, Default)]
pub struct Cell {
    /// What the block is for the equations.
    pub part: Part,
    /// Whether its member is missing, so that the block cannot be read.
    pub missing: bool,
}

/// Which parameter sets a search goes through: every combination of these values that makes
/// sense, with at most `missing` empty slots and at most `foreign` images in no slot.
#[derive(Drop)]
pub struct Bounds {
    /// The levels to try.
    pub levels: ArrayVec<Level, MOST_LEVELS>,
    /// The numbers of members to try.
    pub members: ArrayVec<u8, MOST_LESS_ONE>,
    /// The patterns to try.
    pub patterns: ArrayVec<Pattern, MOST_PATTERNS>,
    /// The delays to try.
    pub delays: ArrayVec<u64, MOST_DELAYS>,
    /// The orders of Q to try.
    pub syndromes: ArrayVec<Syndrome, MOST_SYNDROMES>,
    /// The chunks to try, in sectors.
    pub chunks: ArrayVec<u64, MOST_CHUNKS>,
    /// The image sectors to try at which the data of each member may begin.
    pub offsets: ArrayVec<u64, MOST_OFFSETS>,
    /// The most empty slots.
    pub missing: u8,
    /// The most images that stand in no slot.
    pub foreign: u8,
}

/// Why a parameter set makes no sense, with the value that breaks the rule.
#[derive(Clone, Copy)]
pub enum GeoFault {
    /// Too few or too many members, or not as many as there are slots.
    Members(u8),
    /// The pattern is none of the level's.
    Pattern(Pattern),
    /// An order of Q without Q, or Q without an order.
    Syndrome(Syndrome),
    /// The chunk is no power of two from 1 to `LARGEST_CHUNK`.
    Chunk(u64),
    /// A slot names an image that does not exist.
    Image(u8),
    /// An image stands in two slots.
    Repeat(u8),
    /// More empty slots than the level survives.
    Missing(u8),
    /// No whole row lies between the offset and the end.
    NoRow(u64),
    /// The delay is none from 1 to `LONGEST_DELAY`, or above 1 where the parity does not move.
    Delay(u64),
}
