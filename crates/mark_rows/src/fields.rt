//! Fields of a sector whose bytes count up.
use sector_fields::{has_bytes, u16_be, u16_le, u32_be, u32_le, u64_le, uuid_at};

// Each byte is its place, from 0 again at 256.
fn counting() -> [u8; 512] {
    let mut sector = [0u8; 512];
    for i in 0..512 {
        sector[i] = (i % 256) as u8;
    }
    sector
}

#[test]
fn numbers(rt: HostRuntime) {
    let sector = counting();
    assert!(rt; u16_le(&sector, 1) == 0x0201);
    assert!(rt; u32_le(&sector, 1) == 0x0403_0201);
    assert!(rt; u64_le(&sector, 504) == 0xfffe_fdfc_fbfa_f9f8);
    assert!(rt; u16_be(&sector, 1) == 0x0102);
    assert!(rt; u32_be(&sector, 508) == 0xfcfd_feff);
}

#[test]
fn bytes(rt: HostRuntime) {
    let sector = counting();
    assert!(rt; uuid_at(&sector, 2).as_bytes()[15] == 17);
    assert!(rt; has_bytes(&sector, 510, &[254, 255]) && !has_bytes(&sector, 511, &[255, 0]));
}
