//! Pages and their parts.
use near_mirror::NearSet;
use outside::ListOf;

/// A mirror that passes, with its rank.
#[derive(Drop)]
pub struct NearLine {
    /// Its position in the product, counted from 0.
    pub rank: u64,
    /// The parameter set.
    pub set: NearSet,
}

/// The lines of a page.
pub type NearLines = ListOf<NearLine>;

/// A page: its lines, the rank from which the next page goes on, and the number of all ranks.
#[derive(Drop)]
pub struct NearPage {
    /// The mirrors that pass, by rank.
    pub lines: NearLines,
    /// The rank from which the next page goes on.
    pub next: u64,
    /// How many parameter sets there are.
    pub total: u64,
}

/// Why there is no page.
#[derive(Clone, Copy, Debug, PartialEq, Eq)]
pub enum NearFault {
    /// There are 2 to the power 64 parameter sets or more.
    Many,
    /// The first rank asked for is past the total.
    Cursor {
        /// The first rank asked for.
        from: u64,
        /// How many parameter sets there are.
        total: u64,
    },
    /// The images failed.
    ReadFault,
    /// Memory ran out.
    Memory,
}
