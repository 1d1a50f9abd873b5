//! Labels that `pvcreate` wrote, and the bounds of a label on both sides.
use crate::sectors::with;
use more_marks::read_lvm;

// truncate -s 64M a.img; losetup /dev/loop0 a.img; pvcreate /dev/loop0
// The first 32 bytes of sector 1.
const LABEL: [u8; 32] = [
    0x4c, 0x41, 0x42, 0x45, 0x4c, 0x4f, 0x4e, 0x45, 0x01, 0x00, 0x00, 0x00, 0x00, 0x00, 0x00, 0x00,
    0x8f, 0x19, 0x6a, 0x8b, 0x20, 0x00, 0x00, 0x00, 0x4c, 0x56, 0x4d, 0x32, 0x20, 0x30, 0x30, 0x31,
];

// The same with `pvcreate --labelsector 3`: the first 32 bytes of sector 3.
const LATER_LABEL: [u8; 32] = [
    0x4c, 0x41, 0x42, 0x45, 0x4c, 0x4f, 0x4e, 0x45, 0x03, 0x00, 0x00, 0x00, 0x00, 0x00, 0x00, 0x00,
    0x18, 0x42, 0x59, 0xbe, 0x20, 0x00, 0x00, 0x00, 0x4c, 0x56, 0x4d, 0x32, 0x20, 0x30, 0x30, 0x31,
];

// The first label, changed there.
fn label_with(at: usize, bytes: &[u8]) -> Option<u64> {
    read_lvm(&with(with([0; 512], 0, &LABEL), at, bytes))
}

#[test]
fn labels_of_pvcreate(rt: HostRuntime) {
    assert!(rt; label_with(0, &[]) == Some(1));
    assert!(rt; label_with(0, &LATER_LABEL) == Some(3));
    // Its checksum is not looked at.
    assert!(rt; label_with(16, &[0; 4]) == Some(1));
}

#[test]
fn bounds_of_a_label(rt: HostRuntime) {
    for (number, read) in [
        (0, true),
        ((1 << 55) - 1, true),
        (1 << 55, false),
        (u64::MAX, false),
    ] {
        assert!(rt;
            label_with(8, &number.to_le_bytes()).is_some() == read,
            "{number}"
        );
    }
    assert!(rt; label_with(0, b"l").is_none() && label_with(7, b"F").is_none());
    assert!(rt; label_with(24, b"LVM2 002").is_none() && label_with(24, b"LVM1 001").is_none());
}
