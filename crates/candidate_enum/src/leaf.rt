//! A list with its rank.
use raid_params::Slots;

/// A slot list and its rank: its position among the lists of a space, counted from 0.
#[derive(Drop)]
pub struct Leaf {
    /// The position of the list.
    pub rank: u64,
    /// The list.
    pub slots: Slots,
}
