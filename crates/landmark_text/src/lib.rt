//! The texts of what is said of landmarks: kinds of landmark sectors and of groups, and sectors that are passed over.
//!
//! They are spelled as the values of `value_text` are, by the names in the table of `mark_kinds`: [`read_kind`],
//! [`kind_until`] and [`read_group`] read them, [`read_groups`] and [`read_drops`] lists of them. Plans and the words of the
//! command line are made of these texts; what needs no landmark stands on `value_text` alone. How they are spelled stands in
//! `specs/Names`.
#![tactic(auto)]

mod kinds;
mod lists;

// The tests stand in `text_rows`.

pub use kinds::{group_name, kind_until, read_group, read_kind};
pub use lists::{read_drops, read_groups};
