//! A space of slot lists.

/// All slot lists of `members` places over the images below `images`, in which no image stands
/// twice and from `low` to `high` places are empty. Their order is lexicographic, with an empty
/// place last. Where `low` is above `high` there are none.
#[derive(Clone, Copy)]
pub struct Space {
    /// How many images there are.
    pub images: u8,
    /// How many places a list has.
    pub members: u8,
    /// The fewest empty places.
    pub low: u8,
    /// The most empty places.
    pub high: u8,
}
