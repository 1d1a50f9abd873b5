//! Mirrors: RAID 10 of the Linux md driver in its layouts near, far and offset, of two to four copies.
//!
//! The volume is cut into chunks, and each chunk stands as often as there are copies, on as many slots. Near copies stand in
//! cells beside each other, which are numbered row by row; of far copies each has a part of the members to itself, a slot
//! further on; of offset copies each stands in the row below, a slot further on. [`NearSet::validate`] says which parameter
//! sets make sense, and [`read_near`] and [`near_line`] read and write their words. [`NearHead::copy_place`] goes from a
//! sector of the volume to the places of its copies, and [`NearSet::home`] to the one that is read.
//!
//! The rules stand in `specs/Validity`, the words in `specs/Words`, and where copies lie in `specs/Copies`.
#![tactic(auto)]

mod laws;
mod layout;
mod map;
mod names;
mod types;
mod validity;
mod word;

// The tests stand in `text_rows`.

pub use laws::{copies_are_apart, copies_share_no_sector, near_words_have_one_spelling};
pub use map::CopyPlace;
pub use types::{CopyLayout, Copying, NearHead, NearRule, NearSet};
pub use validity::{FEWEST_COPIES, MOST_COPIES};
pub use word::{near_line, read_near};
