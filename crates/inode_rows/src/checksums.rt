//! The examples of RFC 3720, B.4, whose checksums begin with all ones and are inverted, and the check value that is
//! printed of CRC-32C, that of the nine digits.

use crc32c::{after, before};

const ALL_ONES: u32 = 0xFFFF_FFFF;

// The bytes from 0 to 31.
fn rising() -> [u8; 32] {
    let mut bytes = [0; 32];
    for (place, byte) in bytes.iter_mut().enumerate() {
        *byte = place as u8;
    }
    bytes
}

// The checksum of the bytes, as the RFC has it.
fn checksum(bytes: &[u8]) -> u32 {
    after(ALL_ONES, bytes) ^ ALL_ONES
}

#[test]
fn checksums_of_the_rfc(rt: HostRuntime) {
    assert!(rt; checksum(b"123456789") == 0xE306_9283);
    assert!(rt; checksum(&[0; 32]) == 0x8A91_36AA);
    assert!(rt; checksum(&[0xFF; 32]) == 0x62A8_AB43);
    assert!(rt; checksum(&rising()) == 0x46DD_794E);
    assert!(rt; after(0x1234_5678, &[]) == 0x1234_5678);
}

#[test]
fn backward_from_the_checksums(rt: HostRuntime) {
    assert!(rt; before(0xE306_9283 ^ ALL_ONES, b"123456789") == ALL_ONES);
    assert!(rt; before(0x8A91_36AA ^ ALL_ONES, &[0; 32]) == ALL_ONES);
    assert!(rt; before(0x46DD_794E ^ ALL_ONES, &rising()) == ALL_ONES);
    assert!(rt; before(0x1234_5678, &[]) == 0x1234_5678);
}
