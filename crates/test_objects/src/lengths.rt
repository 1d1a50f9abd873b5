//! How many images are attached, and how long they are.
ghost use Rattle.std.specs.Prelude.{◌≡◌, ◌≤◌, ◌<◌, All, IsSomeAnd, IsTrue, length, slice_get};

use outside::Images;

/// 2^55: no image has so many sectors, and no word names so many.
pub const FAR: u64 = 36_028_797_018_963_968;

/// Whether `count` images are attached, each of fewer than `most` sectors.
pub fn are_below<I: Images>(images: &I, count: u8, most: u64) -> bool
    ensures { IsTrue result → (length (I.seen images.now).attached ≡ count) × All (λ a. a.sectors < most) (I.seen images.now).attached }
{
    for i in 0..count {
        if !is_below(images, i as u32, most) {
            return false;
        }
    }
    images.length(count as u32).is_none()
}

/// Whether there is an image of this number, of fewer than `most` sectors.
fn is_below<I: Images>(images: &I, image: u32, most: u64) -> bool
    ensures { IsTrue result → IsSomeAnd (slice_get (I.seen images.now).attached image) (λ a. a.sectors < most) }
{
    match images.length(image) {
        Some(sectors) => sectors < most,
        None => false,
    }
}

/// Whether `count` images are attached, and each reaches to the end.
pub fn all_reach<I: Images>(images: &I, count: u8, end: u64) -> bool
    ensures { IsTrue result → (length (I.seen images.now).attached ≡ count) × All (λ a. end ≤ a.sectors) (I.seen images.now).attached }
{
    for i in 0..count {
        if !reaches(images, i as u32, end) {
            return false;
        }
    }
    images.length(count as u32).is_none()
}

/// Whether there is an image of this number, and it reaches to the end.
fn reaches<I: Images>(images: &I, image: u32, end: u64) -> bool
    ensures { IsTrue result → IsSomeAnd (slice_get (I.seen images.now).attached image) (λ a. end ≤ a.sectors) }
{
    match images.length(image) {
        Some(sectors) => end <= sectors,
        None => false,
    }
}
