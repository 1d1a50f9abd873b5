//! The one table of the kinds of landmarks: which sectors are landmarks, which groups they make, how they are
//! named, where the groups begin and how many of them a plan may have.
//!
//! A landmark sector is of one [`Kind`]; the marks of one partition table or file system form a group, which is of
//! one [`GroupKind`]. [`Kind::row`] and [`GroupKind::row`] are the table, [`KINDS`] and [`GROUPS`] its order. What
//! surveys images, reads plans and words, and tests marks takes names, places and numbers from here, so a kind more
//! is a row more. [`Kinds`] says which of them are looked for, [`DropAt`] which sectors are passed over.
//!
//! The table stands in `specs/Table`, as contracts see it.
#![tactic(auto)]

mod table;

pub use table::{
    Begin, DropAt, GROUP_COUNT, GROUPS, GroupKind, GroupRow, KIND_COUNT, KINDS, Kind, KindRow,
    Kinds, MOST_DROPS, MOST_GROUPS,
};
