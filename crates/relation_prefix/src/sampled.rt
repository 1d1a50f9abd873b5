//! Rows by which prefixes of slot lists are tested, and what is asked of them.
use crate::row_ties::RowTies;
use raid_params::Head;

/// A row of sectors, and its ties.
#[derive(Clone, Copy)]
pub struct SampledRow {
    /// The row, in sectors from the offset on.
    pub row: u64,
    /// Its ties.
    pub ties: RowTies,
}

/// What is asked of rows, whatever the prefix.
#[derive(Clone, Copy)]
pub struct PrefixTest {
    /// The head whose slots begin so.
    pub head: Head,
    /// How many of the first rows of sectors are tested.
    pub tested: u64,
    /// How many of them may be unsound.
    pub badrows: u64,
    /// The most empty slots of a set.
    pub missing: u8,
}
