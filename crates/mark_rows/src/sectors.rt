//! Sectors made of a few bytes.

/// A sector with these bytes from `at` on, as far as it reaches.
pub fn with(mut sector: [u8; 512], at: usize, bytes: &[u8]) -> [u8; 512] {
    for (place, byte) in bytes.iter().enumerate() {
        if let Some(old) = sector.get_mut(at.saturating_add(place)) {
            *old = *byte;
        }
    }
    sector
}
