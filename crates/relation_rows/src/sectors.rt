//! Sectors that are sums of others.
use gf256::mul;
use std::alloc::{AllocError, Global};

/// A sector: a sum of others, each by its weight and the number from which it is generated. No term is zeros.
pub type Terms = &'static [(u8, u32)];

/// Bytes of a generated sector.
pub const A: Terms = &[(1, 1)];

pub const B: Terms = &[(1, 2)];

pub const C: Terms = &[(1, 3)];

pub const D: Terms = &[(1, 4)];

pub const E: Terms = &[(1, 5)];

pub const F: Terms = &[(1, 6)];
/// Zeros.
pub const NONE: Terms = &[];
/// Seven times the first.
pub const SEVEN: Terms = &[(7, 1)];
/// The parity of two members.
pub const AB: Terms = &[(1, 1), (1, 2)];

pub const CD: Terms = &[(1, 3), (1, 4)];
/// The parity P of six members, and Q.
pub const P: Terms = &[(1, 1), (1, 2), (1, 3), (1, 4), (1, 5), (1, 6)];

pub const Q: Terms = &[(1, 1), (2, 2), (4, 3), (8, 4), (16, 5), (32, 6)];

/// Appends a sector.
fn push_sector(bytes: &mut Vec<u8>, terms: Terms) -> Result<(), AllocError> {
    let mut sector = [0u8; 512];
    for (weight, seed) in terms {
        let mut number = *seed;
        for place in 0..512 {
            number = number.wrapping_mul(75).wrapping_add(74) % 65537;
            sector[place] ^= mul(*weight, (number % 256) as u8);
        }
    }
    bytes.extend_from_slice(&sector)
}

/// Sectors one after the other: a row of images, or an image.
pub fn row_of(alloc: Global, each: &[Terms]) -> Result<Vec<u8>, AllocError> {
    let mut bytes = Vec::new(alloc);
    for terms in each {
        push_sector(&mut bytes, terms)?;
    }
    Ok(bytes)
}
