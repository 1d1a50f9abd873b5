//! Sectors that `mkfs.btrfs` wrote, and what makes no superblock.
use crate::sectors::with;
use more_marks::{BtrfsSuper, read_btrfs};
use uuid::Uuid;

// truncate -s 300G a.img; mkfs.btrfs -U 01234567-89ab-cdef-0123-456789abcdef a.img
// `btrfs inspect-internal dump-super -a` prints bytenr 65536, 67108864 and 274877906944.
// The first 80 bytes of sector 128.
const SUPER: [u8; 80] = [
    0x05, 0x16, 0xf8, 0x61, 0x00, 0x00, 0x00, 0x00, 0x00, 0x00, 0x00, 0x00, 0x00, 0x00, 0x00, 0x00,
    0x00, 0x00, 0x00, 0x00, 0x00, 0x00, 0x00, 0x00, 0x00, 0x00, 0x00, 0x00, 0x00, 0x00, 0x00, 0x00,
    0x01, 0x23, 0x45, 0x67, 0x89, 0xab, 0xcd, 0xef, 0x01, 0x23, 0x45, 0x67, 0x89, 0xab, 0xcd, 0xef,
    0x00, 0x00, 0x01, 0x00, 0x00, 0x00, 0x00, 0x00, 0x01, 0x00, 0x00, 0x00, 0x00, 0x00, 0x00, 0x00,
    0x5f, 0x42, 0x48, 0x52, 0x66, 0x53, 0x5f, 0x4d, 0x06, 0x00, 0x00, 0x00, 0x00, 0x00, 0x00, 0x00,
];

// Bytes 48 to 55 of sectors 131072 and 536870912.
const SECOND: [u8; 8] = [0x00, 0x00, 0x00, 0x04, 0x00, 0x00, 0x00, 0x00];

const THIRD: [u8; 8] = [0x00, 0x00, 0x00, 0x00, 0x40, 0x00, 0x00, 0x00];

// The superblock, changed there.
fn super_with(at: usize, bytes: &[u8]) -> Option<BtrfsSuper> {
    read_btrfs(&with(with([0; 512], 0, &SUPER), at, bytes))
}

// What the superblock is read as, with this address.
fn at_address(address: u64) -> Option<BtrfsSuper> {
    let fsid = Uuid::from_bytes([
        0x01, 0x23, 0x45, 0x67, 0x89, 0xab, 0xcd, 0xef, 0x01, 0x23, 0x45, 0x67, 0x89, 0xab, 0xcd,
        0xef,
    ]);
    Some(BtrfsSuper { fsid, address })
}

#[test]
fn superblocks_of_mkfs(rt: HostRuntime) {
    assert!(rt; super_with(0, &[]) == at_address(65_536));
    assert!(rt; super_with(48, &SECOND) == at_address(67_108_864));
    assert!(rt; super_with(48, &THIRD) == at_address(274_877_906_944));
}

#[test]
fn no_superblocks(rt: HostRuntime) {
    for address in [
        0,
        65_535,
        65_537,
        67_108_863,
        67_108_865,
        274_877_906_943,
        274_877_906_945,
        65_536 + (1 << 32),
        1 << 50,
        u64::MAX,
    ] {
        assert!(rt;
            super_with(48, &address.to_le_bytes()).is_none(),
            "{address}"
        );
    }
    assert!(rt; super_with(64, b"-").is_none() && super_with(71, b"m").is_none());
}
