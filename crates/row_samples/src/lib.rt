//! Rows of an offset that are kept, with what they say of how the images depend on one another.
//!
//! A [`RowSampler`] is offered rows that stand in regions of sectors, one region an image, and keeps some of them with their ties
//! (`relation_prefix`), spread over the offset: of each of as many equal parts as there is room for the first row that tells much, and
//! beside these the first that is not zeros. [`read_rows`] reads rows for it where nothing else is read of an offset. Which rows are
//! wanted and kept stands in `specs/Spreads`: each is a row of the images, and none comes twice.
#![tactic(auto)]

mod reading;
mod row_bytes;
mod sampler;
mod spread;

pub use reading::{SampleFault, TRIES, read_rows};
pub use sampler::RowSampler;
pub use spread::Spread;
