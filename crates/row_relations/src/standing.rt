//! How an image stands in a row.

/// The most images of a row.
pub const MOST_IMAGES: usize = 64;

/// What the sector of an image is beside those of the images before it.
#[derive(Clone, Copy, Debug, PartialEq, Eq)]
pub enum Standing {
    /// It is zeros.
    Zero,
    /// It is no weighed sum of the sectors of independent images before it.
    Independent,
    /// It is not zeros, and is a weighed sum of the sectors of independent images before it.
    Dependent,
}
