//! The parameters of a striped array: its level, how parity rotates over the members and for how many
//! rows it stays, in what order the Q syndrome counts the data, the chunk size, where the data begin on each member,
//! and which image stands in which slot.
//!
//! The layouts are those of the Linux md driver for RAID 0, 4, 5 and 6 and the DDF layouts of
//! RAID 6 as md has them. RAID 4 places its blocks as RAID 5 with the pattern `ParityLast`.
//!
//! The limits of an array stand here, each by its name, and nearly every crate above uses these types. How
//! large an array is stands in `specs/Size`, what slots hold in `specs/Slots`, and the rules that a set has
//! to keep in `specs/Validity`, the order of levels, patterns and orders of Q in `specs/Places`, and offsets that differ from image to image
//! in `specs/Bases` and `specs/Wide`. What the parameters mean for the sectors is in `raid_terms`.
#![tactic(auto)]

mod limits;
mod places;
mod slots;
mod types;
mod validity;
mod wide;

pub use limits::{
    LARGEST_CHUNK, LONGEST_DELAY, MOST, MOST_CHUNKS, MOST_DELAYS, MOST_LESS_ONE, MOST_LEVELS,
    MOST_MISSING, MOST_OFFSETS, MOST_PATTERNS, MOST_SYNDROMES, SECTORS_END,
};
pub use places::Placed;
pub use slots::{count_empty, stands_among};
pub use types::{Bounds, Cell, GeoFault, Geometry, Head, Level, Part, Pattern, Slots, Syndrome};
pub use validity::{first_absent, first_repeat, is_chunk};
pub use wide::{Wide, WideFault};
