//! Sections of a rescue text.
use crate::block::Block;
use outside::ListOf;

/// What the map file of an image says.
#[derive(Debug, Drop)]
pub struct Section {
    /// The number of the image.
    pub image: u8,
    /// Its blocks, each from the end of the one before it.
    pub blocks: ListOf<Block>,
}
