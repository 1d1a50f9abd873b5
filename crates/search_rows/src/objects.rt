//! Lists and images in memory, as the tests have them.
ghost use Rattle.std.specs.Prelude.{◌≡◌, ◌≤◌, length, All, IsSomeAnd, IsTrue, slice_get};
ghost use Rattle.image_source.specs.Memory.{seen_of};
ghost use Rattle.search_plan.specs.Plans.{AgreeWith};

use arrayvec::ArrayVec;
use image_source::MemImages;
use outside::{Images, Memory};
use search_plan::Plan;
use std::alloc::Global;
use test_objects::{NAMES, join};

// The elements, in order.
pub fn filled<T: Copy + Default, const N: usize>(items: &[T]) -> ArrayVec<T, N>
    requires { length items.now ≤ N }
    ensures { result.items ≡ items.now }
{
    let mut list = ArrayVec::new();
    for item in items {
        list.push(*item);
    }
    list
}

/// Fields of a sector: where each stands, and its bytes.
pub type Field = (usize, &'static [u8]);

/// Fields of a sector of an image: the image's number, the sector's, and the fields.
pub type Placed = (usize, usize, &'static [Field]);

// Writes the fields of a sector that begins at `start`.
fn put_all(image: &mut [u8], start: usize, fields: &[Field]) {
    for (at, field) in fields {
        let from = start.saturating_add(*at);
        for (place, byte) in field.iter().enumerate() {
            if let Some(old) = image.get_mut(from.saturating_add(place)) {
                *old = *byte;
            }
        }
    }
}

// The bytes of an image of so many sectors, zero but for these fields.
fn image_of(
    alloc: Global,
    number: usize,
    sectors: usize,
    base: &[Placed],
    placed: &[Placed],
) -> Result<Vec<u8>, Memory> {
    let mut bytes = vec![in alloc; 0u8; sectors.saturating_mul(512)].map_err(|_| Memory)?;
    for (image, sector, fields) in base.iter().chain(placed) {
        if *image == number {
            put_all(&mut bytes, sector.saturating_mul(512), fields);
        }
    }
    Ok(bytes)
}

/// Images of these numbers of sectors, attached in this order, zero but for the fields of both lists, one after the other.
pub fn images_of(
    alloc: Global,
    lengths: &[usize],
    base: &[Placed],
    placed: &[Placed],
) -> Result<MemImages, Memory> {
    let mut images = MemImages::new(alloc)?;
    for (number, sectors) in lengths.iter().enumerate() {
        let bytes = image_of(alloc, number, *sectors, base, placed)?;
        join(&mut images, NAMES[number.min(23)], &bytes)?;
    }
    Ok(images)
}

// Whether the attached images have the planned lengths.
pub fn agree<I: Images>(images: &I, plan: &Plan) -> bool
    ensures { IsTrue result → AgreeWith plan.now (I.seen images.now).attached }
{
    let planned = plan.lengths.as_slice();
    for (image, sectors) in planned.iter().enumerate() {
        if images.length(image as u32) != Some(*sectors) {
            return false;
        }
    }
    images.length(planned.len() as u32).is_none()
}

fn reaches(images: &MemImages, image: u32, end: u64) -> bool
    ensures { IsTrue result → IsSomeAnd (slice_get (seen_of images.now).attached image) (λ a. end ≤ a.sectors) }
{
    match images.length(image) {
        Some(sectors) => end <= sectors,
        None => false,
    }
}

// Whether three images are attached, and each reaches to the end.
pub fn three_reach(images: &MemImages, end: u64) -> bool
    ensures { IsTrue result → (length (seen_of images.now).attached ≡ 3) × All (λ a. end ≤ a.sectors) (seen_of images.now).attached }
{
    if !reaches(images, 0, end) || !reaches(images, 1, end) || !reaches(images, 2, end) {
        return false;
    }
    images.length(3).is_none()
}
