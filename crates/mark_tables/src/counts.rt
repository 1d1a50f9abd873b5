//! What the marks of an image count in a slot.
use raid_params::MOST;

/// What the marks of an image count where the image stands in a slot, from one origin.
#[derive(Clone, Copy, Default)]
pub struct SlotCount {
    /// Those that lie where their rules let them.
    pub fits: u16,
    /// Those that lie elsewhere.
    pub misfits: u16,
    /// The most that lie where their rules let them, in this slot or a later one.
    pub most: u16,
}

/// A count for each image.
pub type ImageCounts = [SlotCount; MOST];

/// A count for each slot and image, from one origin.
pub type OriginTable = [ImageCounts; MOST];
