//! Images that are attached one after the other.
ghost use Rattle.std.specs.Prelude.{◌≡◌, ◌+◌, ◌*◌, IfOk, OnOk, length, min};
ghost use Rattle.image_source.specs.Memory.{seen_of};

use image_source::MemImages;
use outside::{Images, Memory, SECTOR};
use std::alloc::Global;

/// The names of images, in their order.
pub const NAMES: [&str; 24] = [
    "a", "b", "c", "d", "e", "f", "g", "h", "i", "j", "k", "l", "m", "n", "o", "p", "q", "r", "s",
    "t", "u", "v", "w", "x",
];

/// Adds an image beside at most 64 and attaches it, where memory is left and no call is to fail.
#[tactic(auto, using(crate::proofs::Joined::joined, crate::proofs::Joined::few))]
pub fn join(images: &mut MemImages, name: &str, bytes: &[u8]) -> Result<(), Memory>
    ensures one { OnOk result (length (seen_of images.new).attached ≡ length (seen_of images.old).attached + 1) }
{
    if images.length(64).is_some() {
        return Err(Memory);
    }
    images.add(name, bytes)?;
    match images.attach(name) {
        Ok(_) => Ok(()),
        Err(_) => Err(Memory),
    }
}

/// A sector of each byte, one after the other.
pub fn sectors(alloc: Global, bytes: &[u8]) -> Result<Vec<u8>, Memory>
    ensures whole { IfOk result (λ all. length all.items ≡ 512 * length bytes.now) }
{
    let mut all = Vec::new(alloc);
    for place in 0..bytes.len() {
        all.extend_from_slice(&[bytes[place]; SECTOR])
            .map_err(|_| Memory)?;
    }
    Ok(all)
}

/// Images of a sector of each byte, attached in this order under their names, 24 at the most.
pub fn attached(alloc: Global, each: &[&[u8]]) -> Result<MemImages, Memory>
    ensures all { IfOk result (λ images. length (seen_of images).attached ≡ min (length each.now) 24) }
{
    let mut images = MemImages::new(alloc)?;
    for place in 0..each.len().min(NAMES.len()) {
        join(&mut images, NAMES[place], &sectors(alloc, each[place])?)?;
    }
    Ok(images)
}
