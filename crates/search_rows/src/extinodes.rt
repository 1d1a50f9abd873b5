//! Surveys over inodes of an ext4 in memory: copies, descriptors and inodes were put together by hand, field by field, and
//! their checksums were computed from the polynomial of CRC-32C, outside.
use crate::objects::{Field, Placed};
use crate::surveying::{Line, Lines, Row, ask, finds, finds_all};
use landmark_rules::{GroupKind, Kind, Rule};
use search_plan::Kinds;
use std::test::Fail;

// The copy of group 1 of four groups of 2,048 inodes, in blocks of 1,024 bytes, with descriptors of 64.
const COPY: &[Field] = &[
    (1, &[0x20, 0, 0, 0, 0x80]),
    (20, &[1]),
    (33, &[0x20, 0, 0, 0, 0, 0, 0, 0, 8]),
    (56, &[0x53, 0xef]),
    (76, &[1]),
    (
        89,
        &[
            1, 1, 0, 0, 0, 0, 0, 0xc2, 0, 0, 0, 0, 4, 0, 0, 0x30, 0x31, 0x32, 0x33, 0x34, 0x35,
            0x36, 0x37, 0x38, 0x39, 0x3a, 0x3b, 0x3c, 0x3d, 0x3e, 0x3f,
        ],
    ),
    (254, &[0x40]),
    (373, &[1]),
    (1020, &[0x2b, 0x48, 0x82, 0xce]),
];

// Tables of inodes from blocks 275, 787, 1,299 and 1,811 on.
const DESCRIPTORS: &[Field] = &[
    (8, &[0x13, 1]),
    (30, &[0x9b, 0x11]),
    (72, &[0x13, 3]),
    (94, &[0xe9, 0x44]),
    (136, &[0x13, 5]),
    (158, &[0x8e, 0xcd]),
    (200, &[0x13, 7]),
    (222, &[0xfc, 0x98]),
];

// And from blocks 300, 812, 1,324 and 1,836 on.
const MOVED: &[Field] = &[
    (8, &[0x2c, 1]),
    (30, &[0x9e, 0xfa]),
    (72, &[0x2c, 3]),
    (94, &[0xec, 0xaf]),
    (136, &[0x2c, 5]),
    (158, &[0x8b, 0x26]),
    (200, &[0x2c, 7]),
    (222, &[0xf9, 0x73]),
];

// What makes the copy that of another file system.
const OTHER_SYSTEM: &[Field] = &[
    (
        104,
        &[
            0x50, 0x51, 0x52, 0x53, 0x54, 0x55, 0x56, 0x57, 0x58, 0x59, 0x5a, 0x5b, 0x5c, 0x5d,
            0x5e, 0x5f,
        ],
    ),
    (1020, &[0x5c, 0x4f, 2, 0x89]),
];

// What makes it one of a file system with descriptors of 32 bytes, and such descriptors.
const NARROW: &[Field] = &[(96, &[0x42]), (1020, &[0x9b, 0xac, 0x0e, 0x9f])];

const NARROW_DESCRIPTORS: &[Field] = &[
    (8, &[0x13, 1]),
    (30, &[0xf7, 0x10]),
    (40, &[0x13, 3]),
    (62, &[0x3b, 0x4b]),
    (72, &[0x13, 5]),
    (94, &[0x9e, 0xd1]),
    (104, &[0x13, 7]),
    (126, &[0x52, 0x8a]),
];

// Inodes 31 and 32, 2,111 and 2,112, 33 and 34, and 8,223 and 8,224, of which the file system has no more.
const PAIR: &[Field] = &[
    (0, &[0xa4, 0x81, 0, 0, 5]),
    (26, &[1]),
    (124, &[0x87, 0x3a, 0, 0, 0x20, 0, 0x8d, 0x78]),
    (256, &[0xa4, 0x81, 0, 0, 5]),
    (282, &[1]),
    (380, &[0xdf, 0x4f, 0, 0, 0x20, 0, 0x81, 0x60]),
];

const LATER: &[Field] = &[
    (0, &[0xa4, 0x81, 0, 0, 6]),
    (26, &[1]),
    (124, &[0x8d, 0x92, 0, 0, 0x20, 0, 0x28, 0x54]),
    (256, &[0xa4, 0x81, 0, 0, 6]),
    (282, &[1]),
    (380, &[0x73, 0x42, 0, 0, 0x20, 0, 0x83, 0x7c]),
];

const BETWEEN: &[Field] = &[
    (0, &[0xa4, 0x81, 0, 0, 5]),
    (26, &[1]),
    (124, &[0x91, 0x75, 0, 0, 0x20, 0, 0x32, 0x78]),
    (256, &[0xa4, 0x81, 0, 0, 5]),
    (282, &[1]),
    (380, &[0x43, 0x3b, 0, 0, 0x20, 0, 0xe7, 0x51]),
];

const PAST: &[Field] = &[
    (0, &[0xa4, 0x81, 0, 0, 5]),
    (26, &[1]),
    (124, &[0x1f, 0x31, 0, 0, 0x20, 0, 0xfb, 0x5a]),
    (256, &[0xa4, 0x81, 0, 0, 5]),
    (282, &[1]),
    (380, &[0x47, 0x44, 0, 0, 0x20, 0, 0xf7, 0x42]),
];

// Inodes 31 and 32 of the other file system.
const EARLIER: &[Field] = &[
    (0, &[0xa4, 0x81, 0, 0, 5]),
    (26, &[1]),
    (124, &[0x86, 0x4d, 0, 0, 0x20, 0, 0xaf, 0x57]),
    (256, &[0xa4, 0x81, 0, 0, 5]),
    (282, &[1]),
    (380, &[0xde, 0x38, 0, 0, 0x20, 0, 0xa3, 0x4f]),
];

// What the sectors of inodes 31 and 32, 95 and 96, and 159 and 160 make, added bit by bit.
const PARITY: &[Field] = &[
    (0, &[0xa4, 0x81, 0, 0, 5]),
    (26, &[1]),
    (124, &[0x6d, 0xd4, 0, 0, 0x20, 0, 0x65, 0x29]),
    (256, &[0xa4, 0x81, 0, 0, 5]),
    (282, &[1]),
    (380, &[0x35, 0xa1, 0, 0, 0x20, 0, 0x69, 0x31]),
];

// A byte of the second sector of a copy, and one of the descriptor of group 3.
const TURNED: &[Field] = &[(700, &[1])];

const TURNED_GROUP: &[Field] = &[(192, &[1])];

// Four sectors of inodes.
const FOUR: &[Placed] = &[
    (0, 9, PAIR),
    (0, 10, LATER),
    (0, 11, BETWEEN),
    (0, 12, PAST),
];

const FIRST_MARK: Line = (Kind::Extinode, 0, 9, Rule::At(565));

const LATER_MARK: Line = (Kind::Extinode, 0, 10, Rule::At(1605));

// Where inodes of ext4 are looked for, those whose places the descriptors tell, and those that moved descriptors tell.
const EXTINODE: &[GroupKind] = &[GroupKind::Extinode];

const TOLD: &[Lines] = &[(GroupKind::Extinode, &[FIRST_MARK, LATER_MARK])];

const TOLD_MOVED: &[Lines] = &[(
    GroupKind::Extinode,
    &[
        (Kind::Extinode, 0, 9, Rule::At(615)),
        (Kind::Extinode, 0, 10, Rule::At(1655)),
    ],
)];

static COPIES: [Row; 9] = [
    (&[(0, 20, COPY), (0, 22, DESCRIPTORS)], EXTINODE, TOLD),
    (
        &[(0, 20, COPY), (0, 20, NARROW), (0, 22, NARROW_DESCRIPTORS)],
        EXTINODE,
        TOLD,
    ),
    // without a copy
    (&[], EXTINODE, &[]),
    // with one that is not whole
    (
        &[(0, 20, COPY), (0, 20, TURNED), (0, 22, DESCRIPTORS)],
        EXTINODE,
        &[],
    ),
    // of another file system
    (
        &[(0, 20, COPY), (0, 20, OTHER_SYSTEM), (0, 22, DESCRIPTORS)],
        EXTINODE,
        &[],
    ),
    // with descriptors that are not whole or not there
    (
        &[(0, 20, COPY), (0, 22, DESCRIPTORS), (0, 22, TURNED_GROUP)],
        EXTINODE,
        &[],
    ),
    (&[(0, 20, COPY)], EXTINODE, &[]),
    // of which the image does not have all that is read
    (&[(0, 145, COPY), (0, 147, DESCRIPTORS)], EXTINODE, &[]),
    (&[(0, 144, COPY), (0, 146, DESCRIPTORS)], EXTINODE, TOLD),
];

#[test]
fn inodes_lie_where_descriptors_tell(rt: HostRuntime) -> Result<(), Fail> {
    finds_all(&rt, FOUR, &COPIES)
}

static TWO_COPIES: [Row; 3] = [
    (
        &[
            (0, 20, COPY),
            (0, 22, DESCRIPTORS),
            (0, 60, COPY),
            (0, 62, MOVED),
        ],
        EXTINODE,
        TOLD,
    ),
    (
        &[
            (0, 20, COPY),
            (0, 22, MOVED),
            (0, 60, COPY),
            (0, 62, DESCRIPTORS),
        ],
        EXTINODE,
        TOLD_MOVED,
    ),
    (
        &[
            (0, 20, COPY),
            (0, 22, DESCRIPTORS),
            (0, 22, TURNED_GROUP),
            (0, 60, COPY),
            (0, 62, MOVED),
        ],
        EXTINODE,
        TOLD_MOVED,
    ),
];

// The one that is met first, of those that tell.
#[test]
fn the_first_copy_counts(rt: HostRuntime) -> Result<(), Fail> {
    finds_all(&rt, FOUR, &TWO_COPIES)
}

static ELSE: [Row; 1] = [(
    &[
        (0, 20, COPY),
        (0, 22, DESCRIPTORS),
        (0, 70, PAIR),
        (0, 71, EARLIER),
        (0, 72, PARITY),
    ],
    EXTINODE,
    &[(
        GroupKind::Extinode,
        &[
            FIRST_MARK,
            LATER_MARK,
            (Kind::Extinode, 0, 70, Rule::At(565)),
            (Kind::Extinode, 0, 72, Rule::At(661)),
        ],
    )],
)];

// Old copies of sectors, as a journal has them, are marks with the rule of what they are copies of; inodes of an earlier
// file system are none; and the parity of three sectors has the number that their numbers make, added bit by bit: 223.
#[test]
fn what_else_passes(rt: HostRuntime) -> Result<(), Fail> {
    finds_all(&rt, FOUR, &ELSE)
}

const SYSTEMS: &[Placed] = &[
    (0, 9, PAIR),
    (0, 10, EARLIER),
    (0, 20, COPY),
    (0, 22, DESCRIPTORS),
];

const COPY_LINES: Lines = (GroupKind::Ext, &[(Kind::Ext, 0, 20, Rule::At(16_386))]);

const FIRST_LINES: Lines = (GroupKind::Extinode, &[FIRST_MARK]);

static SYSTEM_ROWS: [Row; 2] = [
    (
        &[],
        &[GroupKind::Extinode, GroupKind::Ext],
        &[COPY_LINES, FIRST_LINES],
    ),
    (&[], &[GroupKind::Ext], &[COPY_LINES]),
];

// A group for each file system, behind that of the copies.
#[test]
fn each_file_system_has_a_group(rt: HostRuntime) -> Result<(), Fail> {
    finds_all(&rt, SYSTEMS, &SYSTEM_ROWS)
}

const TWO_IMAGES: &[Placed] = &[(0, 9, PAIR), (1, 20, COPY), (1, 22, DESCRIPTORS)];

// A copy is read from its own image, and tells of inodes of others; and none of it is looked for where the kind is not named.
#[test]
fn copies_tell_of_all_images(rt: HostRuntime) -> Result<(), Fail> {
    let mut asked = ask(0, 64);
    asked.kinds = Kinds::among(EXTINODE);
    finds(
        &rt,
        &[400, 400],
        TWO_IMAGES,
        &[],
        &asked,
        &[0],
        &[FIRST_LINES],
    )?;
    finds(&rt, &[400, 400], TWO_IMAGES, &[], &ask(0, 64), &[0], &[])
}
