//! The limits of an array and of a search over its parameters, each once.

/// The most images, members, slots, lengths and cells.
pub const MOST: usize = 24;

/// The most numbers of members in a plan: those from 2 to `MOST`.
pub const MOST_LESS_ONE: usize = MOST - 1;

/// The number of levels, which are 0, 5 and 6.
pub const MOST_LEVELS: usize = 3;

/// The number of patterns.
pub const MOST_PATTERNS: usize = 14;

/// The number of orders of Q, with that of no Q.
pub const MOST_SYNDROMES: usize = 4;

/// The longest delay: parity stays on its slots for at most so many rows.
pub const LONGEST_DELAY: u64 = 1024;

/// The most delays in a plan.
pub const MOST_DELAYS: usize = 16;

/// The most chunk sizes in a plan: all powers of two from 1 to `LARGEST_CHUNK`.
pub const MOST_CHUNKS: usize = 16;

/// The most data offsets in a plan.
pub const MOST_OFFSETS: usize = 64;

/// The largest chunk, in sectors. A chunk is a power of two from 1 to this.
pub const LARGEST_CHUNK: u64 = 1 << (MOST_CHUNKS - 1);

/// Every number of sectors of an image, and every data offset, is below this.
pub const SECTORS_END: u64 = 1 << 55;

/// The most empty slots that a plan may allow: no level survives more.
pub const MOST_MISSING: u8 = 2;
