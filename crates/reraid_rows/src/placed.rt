//! Landmark sectors, put into images of zeros.
use outside::{Memory, SECTOR};
use std::alloc::Global;

/// A field of a landmark sector: where it stands, and its bytes.
pub type Field = (usize, &'static [u8]);

/// Fields of a landmark sector: the number of its image, its own, and the fields.
pub type Placed = (usize, usize, &'static [Field]);

/// The front of a header of a partition table, of 92 bytes and for four entries of 128 bytes, but for its checksum and the blocks of itself,
/// of the other header and of the entries.
pub const HEADER: &[Field] = &[
    (0, b"EFI PART"),
    (10, &[1]),
    (12, &[92]),
    (80, &[4]),
    (84, &[128]),
];

/// Images of these lengths in bytes, zero but for these sectors.
pub fn images(alloc: Global, lengths: &[usize], placed: &[Placed]) -> Result<Vec<Vec<u8>>, Memory> {
    let mut made = Vec::new(alloc);
    for length in lengths {
        let bytes = vec![in alloc; 0u8; *length].map_err(|_| Memory)?;
        made.push(bytes).map_err(|_| Memory)?;
    }
    put_all(&mut made, placed);
    Ok(made)
}

/// Puts each of these sectors into its image.
pub fn put_all(images: &mut Vec<Vec<u8>>, placed: &[Placed]) {
    for (image, sector, fields) in placed {
        if let Some(bytes) = images.get_mut(*image) {
            put(bytes, *sector, fields);
        }
    }
}

/// Puts the fields of a sector, where it lies within the image.
fn put(bytes: &mut Vec<u8>, sector: usize, fields: &[Field]) {
    for (at, field) in fields {
        let start = sector.saturating_mul(SECTOR).saturating_add(*at);
        for (place, byte) in field.iter().enumerate() {
            if let Some(old) = bytes.get_mut(start.saturating_add(place)) {
                *old = *byte;
            }
        }
    }
}
