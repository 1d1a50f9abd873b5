//! Sectors that begin with a few bytes, or of which a byte is turned, and the identifier of most file systems.
ghost use Rattle.std.specs.Prelude.{◌<◌};

/// The identifier with which most of the file systems were made.
pub const MADE: [u8; 16] = [
    0x01, 0x23, 0x45, 0x67, 0x89, 0xab, 0xcd, 0xef, 0x01, 0x23, 0x45, 0x67, 0x89, 0xab, 0xcd, 0xef,
];

/// A sector that begins with these bytes.
pub fn sector_of(front: &[u8]) -> [u8; 512] {
    let mut sector = [0; 512];
    for (to, byte) in sector.iter_mut().zip(front) {
        *to = *byte;
    }
    sector
}

/// A sector with the bits of a byte turned.
pub fn turned(mut sector: [u8; 512], at: usize) -> [u8; 512]
    requires { at < 512 }
{
    sector[at] ^= 0xFF;
    sector
}
