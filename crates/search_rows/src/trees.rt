//! Surveys over tree blocks of a btrfs in memory: the leaf was put together by hand, field by field, and its checksums
//! were computed from the polynomial of CRC-32C, outside.
use crate::objects::{Field, Placed};
use crate::surveying::{Line, Lines, Row, ask, finds, finds_all};
use landmark_rules::{GroupKind, Kind, Rule};
use search_plan::Kinds;
use std::test::Fail;

const IDENTIFIER: &[u8] = &[
    0x10, 0x11, 0x12, 0x13, 0x14, 0x15, 0x16, 0x17, 0x18, 0x19, 0x1a, 0x1b, 0x1c, 0x1d, 0x1e, 0x1f,
];

// A leaf of the tree of files but for its address: written, of the later revision, of generation 7.
const BLOCK: &[Field] = &[
    (32, IDENTIFIER),
    (56, &[1, 0, 0, 0, 0, 0, 0, 1]),
    (80, &[7]),
    (88, &[5]),
];

const IN_DUP: &[Field] = &[(48, &[0, 0, 1, 2])];

const IN_SINGLE: &[Field] = &[(48, &[0, 0, 2, 1])];

const IN_NONE: &[Field] = &[(48, &[0, 0, 0, 9])];

// The keys of a device item and of two chunk items, with the places of these.
const KEYS: &[u8] = &[
    1, 0, 0, 0, 0, 0, 0, 0, 216, 1, 0, 0, 0, 0, 0, 0, 0, 0x71, 0x3e, 0, 0, 98, 0, 0, 0, 0, 1, 0, 0,
    0, 0, 0, 0, 228, 0, 0, 0, 1, 0, 0, 0, 0, 0x4b, 0x3f, 0, 0, 80, 0, 0, 0, 0, 1, 0, 0, 0, 0, 0, 0,
    228, 0, 0, 0, 2, 0, 0, 0, 0, 0xdb, 0x3e, 0, 0, 112, 0, 0, 0,
];

// The leaf of the tree of chunks of generation 7: 8 MiB of data from 16 MiB on lie at 5 MiB, and 32 MiB of metadata from
// 32 MiB on at 37 MiB and at 69 MiB. The leaf itself is at address 16,973,824, of the data.
const LEAF: &[Field] = &[
    (0, &[0x0d, 0x8d, 0x75, 0x75]),
    (32, IDENTIFIER),
    (48, &[0, 0, 3, 1]),
    (56, &[1, 0, 0, 0, 0, 0, 0, 1]),
    (80, &[7]),
    (88, &[3]),
    (96, &[3]),
    (101, KEYS),
    (16_192, &[0, 0, 0, 2, 0, 0, 0, 0, 2]),
    (16_210, &[1]),
    (16_216, &[36]),
    (16_226, &[1, 0, 0, 0, 1, 0, 0, 16, 0, 0, 2, 0, 1]),
    (16_240, &[1]),
    (16_248, &[0, 0, 0x50, 2]),
    (16_272, &[1]),
    (16_280, &[0, 0, 0x50, 4]),
    (16_304, &[0, 0, 0x80, 0, 0, 0, 0, 0, 2]),
    (16_322, &[1]),
    (16_328, &[1]),
    (16_338, &[1, 0, 0, 0, 1, 0, 0, 16, 0, 0, 1]),
    (16_352, &[1]),
    (16_360, &[0, 0, 0x50]),
];

// What makes it another: the data lie at 6 MiB, and the metadata at 38 MiB and 69 MiB. With the checksum by its generation.
const MOVED: &[Field] = &[(16_248, &[0, 0, 0x60, 2]), (16_360, &[0, 0, 0x60])];

const SIXTH: &[Field] = &[(0, &[0x7d, 0x65, 0xae, 0xc7]), (80, &[6])];

const SEVENTH: &[Field] = &[(0, &[0x22, 0xba, 0x89, 0x6d])];

const EIGHTH: &[Field] = &[(0, &[0x61, 0x6a, 0x29, 0x76]), (80, &[8])];

// What makes it that of another file system.
const OTHER_SYSTEM: &[Field] = &[
    (0, &[0x09, 0x4f, 0xb9, 0x25]),
    (
        32,
        &[
            0x20, 0x21, 0x22, 0x23, 0x24, 0x25, 0x26, 0x27, 0x28, 0x29, 0x2a, 0x2b, 0x2c, 0x2d,
            0x2e, 0x2f,
        ],
    ),
];

const TURNED: &[Field] = &[(9_000, &[1])];

// Three blocks.
const BLOCKS: &[Placed] = &[
    (0, 9, BLOCK),
    (0, 9, IN_DUP),
    (0, 10, BLOCK),
    (0, 10, IN_SINGLE),
    (0, 11, BLOCK),
    (0, 11, IN_NONE),
];

const DUP_MARK: Line = (Kind::Btrfstree, 0, 9, Rule::Either(75_904, 141_440));

const SINGLE_MARK: Line = (Kind::Btrfstree, 0, 10, Rule::At(10_496));

const LEAF_MARK: Line = (Kind::Btrfstree, 0, 100, Rule::At(10_624));

const SECOND_MARK: Line = (Kind::Btrfstree, 0, 200, Rule::At(10_624));

// Where tree blocks of btrfs are looked for.
const BTRFSTREE: &[GroupKind] = &[GroupKind::Btrfstree];

static LEAVES: [Row; 5] = [
    // a block whose address no chunk has is no mark
    (
        &[(0, 100, LEAF)],
        BTRFSTREE,
        &[(GroupKind::Btrfstree, &[DUP_MARK, SINGLE_MARK, LEAF_MARK])],
    ),
    // without a leaf
    (&[], BTRFSTREE, &[]),
    // with one that is not whole, or that the image does not have whole
    (&[(0, 100, LEAF), (0, 100, TURNED)], BTRFSTREE, &[]),
    (&[(0, 369, LEAF)], BTRFSTREE, &[]),
    // of another file system, whose own place it tells alone
    (
        &[(0, 100, LEAF), (0, 100, OTHER_SYSTEM)],
        BTRFSTREE,
        &[(GroupKind::Btrfstree, &[LEAF_MARK])],
    ),
];

#[test]
fn tree_blocks_lie_where_a_leaf_tells(rt: HostRuntime) -> Result<(), Fail> {
    finds_all(&rt, BLOCKS, &LEAVES)
}

// What is found where the first leaf counts, and where the moved one does.
const BY_THE_FIRST: &[Lines] = &[(
    GroupKind::Btrfstree,
    &[DUP_MARK, SINGLE_MARK, LEAF_MARK, SECOND_MARK],
)];

const BY_THE_MOVED: &[Lines] = &[(
    GroupKind::Btrfstree,
    &[
        (Kind::Btrfstree, 0, 9, Rule::Either(77_952, 141_440)),
        (Kind::Btrfstree, 0, 10, Rule::At(12_544)),
        (Kind::Btrfstree, 0, 100, Rule::At(12_672)),
        (Kind::Btrfstree, 0, 200, Rule::At(12_672)),
    ],
)];

static TWO_LEAVES: [Row; 4] = [
    // the newest counts, whichever comes first
    (
        &[
            (0, 100, LEAF),
            (0, 200, LEAF),
            (0, 200, MOVED),
            (0, 200, SIXTH),
        ],
        BTRFSTREE,
        BY_THE_FIRST,
    ),
    (
        &[
            (0, 100, LEAF),
            (0, 200, LEAF),
            (0, 200, MOVED),
            (0, 200, EIGHTH),
        ],
        BTRFSTREE,
        BY_THE_MOVED,
    ),
    // two of one generation that tell of different places, and then of one
    (
        &[
            (0, 100, LEAF),
            (0, 200, LEAF),
            (0, 200, MOVED),
            (0, 200, SEVENTH),
        ],
        BTRFSTREE,
        &[],
    ),
    (&[(0, 100, LEAF), (0, 200, LEAF)], BTRFSTREE, BY_THE_FIRST),
];

#[test]
fn two_leaves_may_disagree(rt: HostRuntime) -> Result<(), Fail> {
    finds_all(&rt, BLOCKS, &TWO_LEAVES)
}

const TWO_IMAGES: &[Placed] = &[(0, 9, BLOCK), (0, 9, IN_DUP), (1, 40, LEAF)];

const OTHER_LEAF: Line = (Kind::Btrfstree, 1, 40, Rule::At(10_624));

// A leaf is read from its own image, and tells of blocks of others; and none of it is looked for where its kind is not named.
#[test]
fn leaves_tell_of_all_images(rt: HostRuntime) -> Result<(), Fail> {
    let mut asked = ask(0, 64);
    asked.kinds = Kinds::among(BTRFSTREE);
    let found: [Lines; 1] = [(GroupKind::Btrfstree, &[DUP_MARK, OTHER_LEAF])];
    finds(&rt, &[100, 100], TWO_IMAGES, &[], &asked, &[0], &found)?;
    finds(&rt, &[100, 100], TWO_IMAGES, &[], &ask(0, 64), &[0], &[])
}
