//! What stands outside the program, as the program sees it: images by number, a source and a sink of bytes.
//!
//! The crates above are written against [`Images`], [`Source`] and [`Sink`]. Each counts its faults: the count never
//! falls, a call fails only where it rose, and where a call does not fail it stays. What the traits mean stands in
//! `specs/Seen`, `Attached`, `Causes` and `Streams`.
//!
//! It stands on no other crate. The objects themselves, in memory and over files and streams, are in `image_source`.
#![tactic(auto)]

mod images;
mod lists;
mod streams;

pub use images::Images;
pub use lists::ListOf;
pub use streams::{Sink, Source};

/// The bytes of a sector.
pub const SECTOR: usize = 512;

/// The most images that one `Images` is asked to attach.
pub const MOST_ATTACHED: usize = 65536;

/// An outside object failed.
#[derive(Clone, Copy, Debug, PartialEq, Eq)]
pub struct Failed;

/// Out of memory.
#[derive(Clone, Copy, Debug, PartialEq, Eq)]
pub struct Memory;
