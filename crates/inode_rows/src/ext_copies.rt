//! Copies of superblocks of ext4 with the descriptors behind them, and inodes beside each other, of file systems that
//! `mke2fs` made of a folder with 60 files. Numbers and places are those that `debugfs` prints.

use crate::sectors::turned;
use inode_marks::{COPY_BYTES, read_any_pair, read_copy};

type Field = (usize, &'static [u8]);

// truncate -s 32M a.img
// mke2fs -t ext4 -b 1024 -I 256 -N 8192 -O metadata_csum,64bit,^flex_bg,^resize_inode,^has_journal
//     -U 01234567-89ab-cdef-0123-456789abcdef -d FOLDER a.img
// The copy of group 1, from block 8,193 on, with the first sector of the descriptors.
const SMALL_COPY: &[Field] = &[
    (
        1,
        &[
            0x20, 0, 0, 0, 0x80, 0, 0, 0x66, 6, 0, 0, 0xa8, 0x77, 0, 0, 0xb9, 0x1f, 0, 0, 1,
        ],
    ),
    (
        33,
        &[
            0x20, 0, 0, 0, 0x20, 0, 0, 0, 8, 0, 0, 0, 0, 0, 0, 0xf4, 0xe7, 0x0d, 0x6b, 0, 0, 0xff,
            0xff, 0x53, 0xef, 0, 0, 1, 0, 0, 0, 0xf4, 0xe7, 0x0d, 0x6b,
        ],
    ),
    (
        76,
        &[
            1, 0, 0, 0, 0, 0, 0, 0, 0x0b, 0, 0, 0, 0, 1, 1, 0, 0x28, 0, 0, 0, 0xc2, 0, 0, 0, 0x6b,
            4, 0, 0, 1, 0x23, 0x45, 0x67, 0x89, 0xab, 0xcd, 0xef, 1, 0x23, 0x45, 0x67, 0x89, 0xab,
            0xcd, 0xef,
        ],
    ),
    (
        236,
        &[
            1, 0x23, 0x45, 0x67, 0x89, 0xab, 0xcd, 0xef, 1, 0x23, 0x45, 0x67, 0x89, 0xab, 0xcd,
            0xef, 1, 0, 0x40, 0, 0x0c, 0, 0, 0, 0, 0, 0, 0, 0xf4, 0xe7, 0x0d, 0x6b,
        ],
    ),
    (348, &[0x20, 0, 0x20, 0, 1]),
    (373, &[1, 0, 0, 0x5f]),
    (584, &[0x0f, 8]),
    (
        1020,
        &[
            0x77, 0xe9, 0xa7, 0x72, 3, 0, 0, 0, 4, 0, 0, 0, 5, 0, 0, 0, 0xb3, 0x1d, 0xb9, 7, 2, 0,
            4, 0, 0, 0, 0, 0, 0x96, 0x77, 0x16, 0x39, 0xb9, 7, 0x96,
        ],
    ),
    (
        1080,
        &[
            0x95, 0x70, 0xf0, 0x6a, 0, 0, 0, 0, 3, 0x20, 0, 0, 4, 0x20, 0, 0, 5, 0x20, 0, 0, 0xfc,
            0x1d, 0, 8, 0, 0, 7,
        ],
    ),
    (1117, &[8, 0xf6, 0x7d]),
    (
        1152,
        &[
            1, 0x40, 0, 0, 2, 0x40, 0, 0, 3, 0x40, 0, 0, 0xfe, 0x1d, 0, 8, 0, 0, 7,
        ],
    ),
    (1181, &[8, 0x15, 9]),
    (
        1216,
        &[
            3, 0x60, 0, 0, 4, 0x60, 0, 0, 5, 0x60, 0, 0, 0xfb, 0x1d, 0, 8, 0, 0, 5, 0, 0, 0, 0, 0,
            0x79, 0x9a, 0, 0, 0, 8, 0x69, 0x39,
        ],
    ),
    (1272, &[0x91, 0xf8]),
];
// Inodes 31 and 32: sector 25.
const SMALL_PAIR: &[Field] = &[
    (
        0,
        &[
            0xa4, 0x81, 0, 0, 3, 0, 0, 0, 0xf4, 0xe7, 0x0d, 0x6b, 0xf4, 0xe7, 0x0d, 0x6b, 0xf4,
            0xe7, 0x0d, 0x6b, 0, 0, 0, 0, 0, 0, 1, 0, 2, 0, 0, 0, 0, 0, 8, 0, 0, 0, 0, 0, 0x0a,
            0xf3, 1, 0, 4,
        ],
    ),
    (56, &[1, 0, 0, 0, 0x25, 2]),
    (124, &[0x10, 0x76, 0, 0, 0x20, 0, 0x79, 0xde]),
    (144, &[0xf4, 0xe7, 0x0d, 0x6b]),
    (
        256,
        &[
            0xa4, 0x81, 0, 0, 3, 0, 0, 0, 0xf4, 0xe7, 0x0d, 0x6b, 0xf4, 0xe7, 0x0d, 0x6b, 0xf4,
            0xe7, 0x0d, 0x6b, 0, 0, 0, 0, 0, 0, 1, 0, 2, 0, 0, 0, 0, 0, 8, 0, 0, 0, 0, 0, 0x0a,
            0xf3, 1, 0, 4,
        ],
    ),
    (312, &[1, 0, 0, 0, 0x26, 2]),
    (380, &[0x5e, 0xcf, 0, 0, 0x20, 0, 0x29, 0x43]),
    (400, &[0xf4, 0xe7, 0x0d, 0x6b]),
];
// The same with -b 4096 -g 2048, metadata_csum_seed and -U fedcba98-7654-3210-fedc-ba9876543210, and then
// tune2fs -U 76543210-89ab-cdef-0123-456789abcdef a.img
// `dumpe2fs` prints the seed. The copy of group 1, from block 2,048 on.
const SEEDED_COPY: &[Field] = &[
    (
        1,
        &[
            0x20, 0, 0, 0, 0x20, 0, 0, 0x99, 1, 0, 0, 0xb1, 0x1d, 0, 0, 0xb9, 0x1f, 0, 0, 0, 0, 0,
            0, 2, 0, 0, 0, 2, 0, 0, 0, 0, 8, 0, 0, 0, 8, 0, 0, 0, 8, 0, 0, 0, 0, 0, 0, 0xb9, 0xed,
            0x0d, 0x6b, 0, 0, 0xff, 0xff, 0x53, 0xef, 0, 0, 1, 0, 0, 0, 0xb9, 0xed, 0x0d, 0x6b,
        ],
    ),
    (
        76,
        &[
            1, 0, 0, 0, 0, 0, 0, 0, 0x0b, 0, 0, 0, 0, 1, 1, 0, 0x28, 0, 0, 0, 0xc2, 0x20, 0, 0,
            0x6b, 4, 0, 0, 0x76, 0x54, 0x32, 0x10, 0x89, 0xab, 0xcd, 0xef, 1, 0x23, 0x45, 0x67,
            0x89, 0xab, 0xcd, 0xef,
        ],
    ),
    (
        236,
        &[
            1, 0x23, 0x45, 0x67, 0x89, 0xab, 0xcd, 0xef, 1, 0x23, 0x45, 0x67, 0x89, 0xab, 0xcd,
            0xef, 1, 0, 0x40, 0, 0x0c, 0, 0, 0, 0, 0, 0, 0, 0xb9, 0xed, 0x0d, 0x6b,
        ],
    ),
    (348, &[0x20, 0, 0x20, 0, 1]),
    (373, &[1, 0, 0, 9, 1]),
    (584, &[0x0e, 2]),
    (624, &[0x7f, 0x63, 0xd3, 0xc5]),
    (1020, &[0x68, 0x3b, 0xba, 0xc2]),
    (
        4096,
        &[
            2, 0, 0, 0, 3, 0, 0, 0, 4, 0, 0, 0, 0x3b, 7, 0xb9, 7, 2, 0, 4, 0, 0, 0, 0, 0, 0x57,
            0xc0, 0xd0, 0x26, 0xb9, 7, 0xa0, 0x9c,
        ],
    ),
    (
        4152,
        &[
            0x8c, 0xcb, 0x4b, 0x70, 0, 0, 0, 0, 2, 8, 0, 0, 3, 8, 0, 0, 4, 8, 0, 0, 0x7c, 7, 0, 8,
            0, 0, 7,
        ],
    ),
    (4189, &[8, 0xcf, 0x72]),
    (
        4225,
        &[
            0x10, 0, 0, 1, 0x10, 0, 0, 2, 0x10, 0, 0, 0x7e, 7, 0, 8, 0, 0, 7,
        ],
    ),
    (4253, &[8, 0x1b, 0x4e]),
    (
        4288,
        &[
            2, 0x18, 0, 0, 3, 0x18, 0, 0, 4, 0x18, 0, 0, 0x7c, 7, 0, 8, 0, 0, 5, 0, 0, 0, 0, 0,
            0x9e, 0x69, 0, 0, 0, 8, 0xfd, 0x6e,
        ],
    ),
    (4344, &[0xc5, 0x6e]),
];

// Inodes 31 and 32: sector 47.
const SEEDED_PAIR: &[Field] = &[
    (
        0,
        &[
            0xa4, 0x81, 0, 0, 3, 0, 0, 0, 0xf4, 0xe7, 0x0d, 0x6b, 0xf4, 0xe7, 0x0d, 0x6b, 0xf4,
            0xe7, 0x0d, 0x6b, 0, 0, 0, 0, 0, 0, 1, 0, 8, 0, 0, 0, 0, 0, 8, 0, 0, 0, 0, 0, 0x0a,
            0xf3, 1, 0, 4,
        ],
    ),
    (56, &[1, 0, 0, 0, 0x9c]),
    (124, &[0xad, 0x28, 0, 0, 0x20, 0, 0xe3, 0x86]),
    (144, &[0xb9, 0xed, 0x0d, 0x6b]),
    (
        256,
        &[
            0xa4, 0x81, 0, 0, 3, 0, 0, 0, 0xf4, 0xe7, 0x0d, 0x6b, 0xf4, 0xe7, 0x0d, 0x6b, 0xf4,
            0xe7, 0x0d, 0x6b, 0, 0, 0, 0, 0, 0, 1, 0, 8, 0, 0, 0, 0, 0, 8, 0, 0, 0, 0, 0, 0x0a,
            0xf3, 1, 0, 4,
        ],
    ),
    (312, &[1, 0, 0, 0, 0x9d]),
    (380, &[7, 0xe6, 0, 0, 0x20, 0, 0x24, 0xe2]),
    (400, &[0xb9, 0xed, 0x0d, 0x6b]),
];

// The seed that `dumpe2fs` prints, and the inodes of both.
const SEED: u32 = 0xc5d3_637f;

const INODES: u32 = 8192;

// Writes fields over bytes.
fn put(bytes: &mut [u8], fields: &[Field]) {
    for (at, field) in fields {
        for (place, byte) in field.iter().enumerate() {
            if let Some(slot) = bytes.get_mut(at.saturating_add(place)) {
                *slot = *byte;
            }
        }
    }
}

fn copy_of(fields: &[Field]) -> [u8; COPY_BYTES] {
    let mut copy = [0; COPY_BYTES];
    put(&mut copy, fields);
    copy
}

fn sector_of(fields: &[Field]) -> [u8; 512] {
    let mut sector = [0; 512];
    put(&mut sector, fields);
    sector
}

// The number and the place of the two inodes of a sector, by a copy.
fn told(copy: &[u8; COPY_BYTES], sector: &[u8; 512]) -> Option<(u32, u64)> {
    let tables = read_copy(copy)?;
    let pair = read_any_pair(sector)?;
    let number = pair.number(tables.seed, tables.inodes)?;
    let place = tables.copied_place(copy, number)?;
    Some((number, place))
}

#[test]
fn places_of_debugfs(rt: HostRuntime) {
    let small = copy_of(SMALL_COPY);
    assert!(rt; told(&small, &sector_of(SMALL_PAIR)) == Some((31, 25)));
    let seeded = copy_of(SEEDED_COPY);
    assert!(rt; told(&seeded, &sector_of(SEEDED_PAIR)) == Some((31, 47)));
    assert!(rt; told(&seeded, &sector_of(SMALL_PAIR)).is_none());
    assert!(rt; told(&small, &sector_of(SEEDED_PAIR)).is_none());
}

// Places of inodes of other groups: `imap` of `debugfs` prints block 8,212 and block 24,596, both at byte 512.
#[test]
fn places_in_other_groups(rt: HostRuntime) {
    let copy = copy_of(SMALL_COPY);
    match read_copy(&copy) {
        Some(tables) => {
            assert!(rt; tables.inodes == INODES && tables.descriptor == 64);
            assert!(rt; tables.copied_place(&copy, 2111) == Some(16_425));
            assert!(rt; tables.copied_place(&copy, 6207) == Some(49_193));
        }
        None => assert!(rt; false, "no tables"),
    }
}

// A byte of the superblock, of a descriptor of another group, and of what no descriptor covers.
#[test]
fn all_of_a_sector_is_whole(rt: HostRuntime) {
    let pair = sector_of(SMALL_PAIR);
    let mut copy = copy_of(SMALL_COPY);
    copy[700] ^= 1;
    assert!(rt; told(&copy, &pair).is_none());
    let mut copy = copy_of(SMALL_COPY);
    copy[1024 + 200] ^= 1;
    assert!(rt; told(&copy, &pair).is_none());
    let mut copy = copy_of(SMALL_COPY);
    copy[1024 + 300] ^= 1;
    assert!(rt; told(&copy, &pair) == Some((31, 25)));
}

// With a seed of 0 the numbers are those with the seed of the file system added, and differ by 63.
#[test]
fn pairs_without_a_seed(rt: HostRuntime) {
    let seeded = sector_of(SEEDED_PAIR);
    match read_any_pair(&seeded) {
        Some(pair) => {
            assert!(rt; pair.first == SEED ^ 31 && pair.second == SEED ^ 32);
            assert!(rt; pair.number(SEED, 32) == Some(31));
            assert!(rt; pair.number(SEED, 31).is_none());
            assert!(rt; pair.number(SEED ^ 1, INODES).is_none());
        }
        None => assert!(rt; false, "no pair"),
    }
    let mut changed = seeded;
    changed[511] ^= 1;
    assert!(rt; read_any_pair(&changed).is_none());
    assert!(rt; read_any_pair(&[0; 512]).is_none());
}

// The first half of one sector, and the second of another.
fn halves(first: &[u8; 512], second: &[u8; 512]) -> [u8; 512] {
    let mut both = *first;
    both[256..].copy_from_slice(&second[256..]);
    both
}

// The sector with its halves changed over.
fn changed_over(sector: &[u8; 512]) -> [u8; 512] {
    let mut other = [0; 512];
    other[..256].copy_from_slice(&sector[256..]);
    other[256..].copy_from_slice(&sector[..256]);
    other
}

// The inodes of a sector changed over, and with one of another file system, of none, or with a byte turned.
#[test]
fn no_pairs(rt: HostRuntime) {
    let copy = copy_of(SMALL_COPY);
    let pair = sector_of(SMALL_PAIR);
    let over = changed_over(&pair);
    assert!(rt; told(&copy, &pair) == Some((31, 25)) && told(&copy, &over).is_none());
    assert!(rt; told(&copy, &halves(&pair, &sector_of(SEEDED_PAIR))).is_none());
    assert!(rt; told(&copy, &halves(&pair, &[0; 512])).is_none());
    assert!(rt; told(&copy, &turned(pair, 124)).is_none());
    assert!(rt; told(&copy, &turned(pair, 511)).is_none());
}
