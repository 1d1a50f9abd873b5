//! Surveys of tables of partitions and of file systems, over images in memory. Checksums of headers were computed by zlib.
use crate::objects::{Field, Placed};
use crate::surveying::{Line, Lines, Row, ask, ends_at, finds, finds_all};
use crate::xfs_sectors::{LARGEST, LATER, NEXT, ROOT, SUPER};
use landmark_rules::{GroupKind, Kind, Rule};
use search_plan::DropAt;
use std::test::Fail;
use test_objects::{LARGE_INODE, LARGE_SUPER, LARGEST_SUPER};

// What is alike in the headers: a size of 92, the disk's identifier, and 128 entries of 128 bytes.
const TABLE: &[Field] = &[
    (0, b"EFI PART\x00\x00\x01\x00\x5c"),
    (56, &[1, 2, 3, 4, 5, 6, 7, 8, 9, 10, 11, 12, 13, 14, 15, 16]),
    (80, &[128, 0, 0, 0, 128]),
];

// MyLBA 1, AlternateLBA 127, the entries from block 2 on.
const HEADER: &[Field] = &[
    (16, &[0xf3, 0xf6, 0xc2, 0xeb]),
    (24, &[1]),
    (32, &[127]),
    (72, &[2]),
];

// MyLBA 1, AlternateLBA 63: the first header of the own table of an image of 64 sectors.
const OWN_FIRST: &[Field] = &[
    (16, &[0x1f, 0xb6, 0x4d, 0x87]),
    (24, &[1]),
    (32, &[63]),
    (72, &[2]),
];

// MyLBA 63, AlternateLBA 1, the entries from block 32 on: its last.
const OWN_LAST: &[Field] = &[
    (16, &[0xf8, 0x9c, 0x7e, 0xa7]),
    (24, &[63]),
    (32, &[1]),
    (72, &[32]),
];

// MyLBA 1, AlternateLBA 15, the entries from block 2 on: a table of a volume of 16 blocks of 4,096 bytes.
const LARGE_BLOCKS: &[Field] = &[
    (16, &[0x52, 0xc6, 0x29, 0xaa]),
    (24, &[1]),
    (32, &[15]),
    (72, &[2]),
];

// An entry of blocks 40 to 100, and one of blocks 5 to 12.
const ENTRY: &[Field] = &[(0, &[1]), (32, &[40]), (40, &[100])];

const LARGE_ENTRY: &[Field] = &[(0, &[1]), (32, &[5]), (40, &[12])];

// Two images of 64 sectors.
const TWO: &[usize] = &[64, 64];

// A header in sector 1 of the first, and an entry in the next.
const A_TABLE: &[Placed] = &[(0, 1, TABLE), (0, 1, HEADER), (0, 2, ENTRY)];

// A bit of the disk's identifier is turned.
const TURNED: &[Placed] = &[(0, 1, &[(56, &[3])])];

// A header in sector 8 of the first, and an entry in sector 16.
const OF_LARGE_BLOCKS: &[Placed] = &[(0, 8, TABLE), (0, 8, LARGE_BLOCKS), (0, 16, LARGE_ENTRY)];

// Blocks of 4,096 bytes are 8 sectors: so are distances, and the entries lie 8 sectors on.
#[test]
fn a_table_may_have_large_blocks(rt: HostRuntime) -> Result<(), Fail> {
    let mut large = ask(0, 64);
    large.unit = 8;
    let found: [Lines; 1] = [(GroupKind::Gpt, &[(Kind::Gpt, 0, 8, Rule::At(8))])];
    finds(&rt, TWO, OF_LARGE_BLOCKS, &[], &large, &[0, 40], &found)?;
    let found: [Lines; 1] = [(GroupKind::Gpt, &[(Kind::Gpt, 0, 8, Rule::At(1))])];
    finds(&rt, TWO, OF_LARGE_BLOCKS, &[], &ask(0, 64), &[0], &found)
}

const GPT_LINES: &[Lines] = &[(GroupKind::Gpt, &[(Kind::Gpt, 0, 1, Rule::At(1))])];

// The entry tells of an origin. The table does not count where its sector is dropped, lies before the smallest offset, or has a bit
// turned.
#[test]
fn a_table_hints_at_its_partitions(rt: HostRuntime) -> Result<(), Fail> {
    finds(&rt, TWO, A_TABLE, &[], &ask(0, 64), &[0, 40], GPT_LINES)?;
    let mut dropped = ask(0, 64);
    dropped.drops.push(DropAt {
        image: 0,
        sector: 1,
    });
    finds(&rt, TWO, A_TABLE, &[], &dropped, &[0], &[])?;
    finds(&rt, TWO, A_TABLE, &[], &ask(2, 64), &[0], &[])?;
    finds(&rt, TWO, A_TABLE, TURNED, &ask(0, 64), &[0], &[])
}

// The headers of the own tables of both images.
const OWN: &[Placed] = &[
    (0, 1, TABLE),
    (0, 1, OWN_FIRST),
    (0, 63, TABLE),
    (0, 63, OWN_LAST),
];

const OTHER_OWN: &[Placed] = &[
    (1, 1, TABLE),
    (1, 1, OWN_FIRST),
    (1, 63, TABLE),
    (1, 63, OWN_LAST),
];

// The first header of such a table two sectors on.
const MOVED: &[Placed] = &[(1, 3, TABLE), (1, 3, OWN_FIRST)];

const MOVED_LINES: &[Lines] = &[(GroupKind::Gpt, &[(Kind::Gpt, 1, 3, Rule::At(1))])];

// Headers of the image's own table are passed over. The same header two sectors on is a mark, and no entries follow it.
#[test]
fn own_tables_are_passed_over(rt: HostRuntime) -> Result<(), Fail> {
    finds(&rt, TWO, OWN, OTHER_OWN, &ask(0, 64), &[0], &[])?;
    finds(&rt, TWO, OWN, MOVED, &ask(0, 64), &[0], MOVED_LINES)
}

// The images are attached by calls 1 and 2 and read by 3 and 4, the sector of entries by 5.
#[test]
fn a_fault_ends_the_survey(rt: HostRuntime) -> Result<(), Fail> {
    for call in 3..7 {
        assert_eq!(rt; ends_at(&rt, A_TABLE, call)?, call < 6, "{call}");
    }
    Ok(())
}

// The boot sector of an NTFS of 100 sectors, 8 a cluster, its table at cluster 4 and the copy at cluster 2.
const BOOT: &[Field] = &[
    (3, b"NTFS    "),
    (11, &[0, 2, 8]),
    (40, &[100]),
    (48, &[4]),
    (56, &[2]),
    (64, &[246]),
    (510, &[0x55, 0xaa]),
];

// Record 1, of 1,024 bytes, whose update sequence begins at 48; and one whose begins at 42.
const RECORD: &[Field] = &[(0, b"FILE"), (4, &[48]), (29, &[4]), (44, &[1])];

const OLD_RECORD: &[Field] = &[(0, b"FILE"), (4, &[42]), (29, &[4]), (44, &[1])];

// Such an NTFS in sectors 10 to 110, with its record 1 in sector 44.
const NTFS: &[Placed] = &[(0, 10, BOOT), (0, 110, BOOT), (0, 44, RECORD)];

const OLD_NTFS: &[Placed] = &[(0, 10, BOOT), (0, 110, BOOT), (0, 44, OLD_RECORD)];

const FIRST_BOOT: Line = (Kind::Boot, 0, 10, Rule::Either(0, 100));

const COPY_OF_BOOT: Line = (Kind::Boot, 0, 110, Rule::Either(0, 100));

const FILE_ONE: Line = (Kind::FileRecord, 0, 44, Rule::Either(34, 18));

const NTFS_LINES: &[Lines] = &[(GroupKind::Ntfs, &[FIRST_BOOT, FILE_ONE, COPY_OF_BOOT])];

const OLD_LINES: &[Lines] = &[(GroupKind::Ntfs, &[FIRST_BOOT, COPY_OF_BOOT])];

// An old record is no mark.
#[test]
fn an_ntfs_has_its_records(rt: HostRuntime) -> Result<(), Fail> {
    finds(&rt, &[200], NTFS, &[], &ask(0, 200), &[0], NTFS_LINES)?;
    finds(&rt, &[200], OLD_NTFS, &[], &ask(0, 200), &[0], OLD_LINES)
}

// A superblock of an XFS of blocks of 4,096 bytes, sectors of 512, 17 blocks a group, and four groups; and the heads of a group but
// for its number.
const GROUPS: &[Field] = &[
    (0, b"XFSB\x00\x00\x10\x00"),
    (87, &[17, 0, 0, 0, 4]),
    (102, &[2]),
    (512, b"XAGF\x00\x00\x00\x01"),
    (1024, b"XAGI\x00\x00\x00\x01"),
];

// Four images with a group each.
const XFS: &[Placed] = &[
    (0, 512, GROUPS),
    (1, 544, GROUPS),
    (1, 544, &[(523, &[1]), (1035, &[1])]),
    (2, 576, GROUPS),
    (2, 576, &[(523, &[2]), (1035, &[2])]),
    (3, 608, GROUPS),
    (3, 608, &[(523, &[3]), (1035, &[3])]),
];

const EVERY: Rule = Rule::Every {
    step: 136,
    count: 4,
    plus: 0,
};

// Group k begins 136 * k sectors after the first.
const XFS_LINES: &[Line] = &[
    (Kind::Super, 0, 512, EVERY),
    (Kind::Agf, 0, 513, Rule::At(1)),
    (Kind::Agi, 0, 514, Rule::At(2)),
    (Kind::Super, 1, 544, EVERY),
    (Kind::Agf, 1, 545, Rule::At(137)),
    (Kind::Agi, 1, 546, Rule::At(138)),
    (Kind::Super, 2, 576, EVERY),
    (Kind::Agf, 2, 577, Rule::At(273)),
    (Kind::Agi, 2, 578, Rule::At(274)),
    (Kind::Super, 3, 608, EVERY),
    (Kind::Agf, 3, 609, Rule::At(409)),
    (Kind::Agi, 3, 610, Rule::At(410)),
];

#[test]
fn an_xfs_has_its_groups(rt: HostRuntime) -> Result<(), Fail> {
    let groups: [Lines; 1] = [(GroupKind::Xfs, XFS_LINES)];
    finds(&rt, &[640; 4], XFS, &[], &ask(0, 640), &[0], &groups)
}

// A superblock of btrfs with that address, and a label of LVM2 with sector 1; and with another address, and another type.
const BTRFS: &[Field] = &[(48, &[0, 0, 1]), (64, b"_BHRfS_M")];

const NO_BTRFS: &[Field] = &[(48, &[1, 0, 1]), (64, b"_BHRfS_M")];

const LABEL: &[Field] = &[(0, b"LABELONE"), (8, &[1]), (24, b"LVM2 001")];

const NO_LABEL: &[Field] = &[(0, b"LABELONE"), (8, &[1]), (24, b"LVM2 002")];

// The head of an allocation group.
const AGF: &[Field] = &[(0, b"XAGF\x00\x00\x00\x01")];

const BTRFS_LINE: Line = (Kind::Btrfs, 0, 130, Rule::At(128));

const BTRFS_COPY: Line = (Kind::Btrfs, 0, 140, Rule::At(128));

const LABEL_LINES: Lines = (GroupKind::Lvm, &[(Kind::Lvm, 0, 3, Rule::At(1))]);

const LATER_LABEL: Lines = (GroupKind::Lvm, &[(Kind::Lvm, 0, 5, Rule::At(1))]);

// The kinds that are usual.
const USUAL: &[GroupKind] = &[
    GroupKind::Gpt,
    GroupKind::Ntfs,
    GroupKind::Xfs,
    GroupKind::Btrfs,
    GroupKind::Lvm,
];

static VOLUMES: [Row; 5] = [
    (
        &[(0, 3, LABEL), (0, 130, BTRFS)],
        USUAL,
        &[(GroupKind::Btrfs, &[BTRFS_LINE]), LABEL_LINES],
    ),
    (&[(0, 3, NO_LABEL), (0, 130, NO_BTRFS)], USUAL, &[]),
    // only the kinds that are asked for
    (
        &[(0, 3, LABEL), (0, 130, BTRFS)],
        &[GroupKind::Lvm],
        &[LABEL_LINES],
    ),
    // a sector is of its kind whether it is asked for or not
    (
        &[(0, 3, LABEL), (0, 3, BTRFS), (0, 130, AGF), (0, 130, BTRFS)],
        &[GroupKind::Btrfs],
        &[],
    ),
    // each label is a group of its own, those of one btrfs are one
    (
        &[
            (0, 3, LABEL),
            (0, 5, LABEL),
            (0, 130, BTRFS),
            (0, 140, BTRFS),
        ],
        USUAL,
        &[
            (GroupKind::Btrfs, &[BTRFS_LINE, BTRFS_COPY]),
            LABEL_LINES,
            LATER_LABEL,
        ],
    ),
];

#[test]
fn btrfs_and_lvm2_have_groups(rt: HostRuntime) -> Result<(), Fail> {
    finds_all(&rt, &[], &VOLUMES)
}

// A copy of a superblock of ext4 with blocks of 4,096 bytes, 32,768 a group, but for its group.
const COPY: &[Field] = &[(24, &[2]), (33, &[128]), (56, &[0x53, 0xef]), (76, &[1])];

// Its group, and what makes it no copy that tells its place: larger blocks, a later group, no blocks.
const GROUP_ONE: &[Field] = &[(90, &[1])];

const GROUP_THREE: &[Field] = &[(90, &[3])];

const LATER_GROUP: &[Field] = &[(90, &[255, 255])];

const LARGER_BLOCKS: &[Field] = &[(24, &[7])];

const NO_BLOCKS: &[Field] = &[(33, &[0])];

// The superblock itself, which is of group 0, makes no mark.
const COPIES: &[Placed] = &[
    (0, 2, COPY),
    (0, 100, COPY),
    (0, 100, GROUP_ONE),
    (0, 200, COPY),
    (0, 200, GROUP_THREE),
];

const COPY_LINES: &[Line] = &[
    (Kind::Ext, 0, 100, Rule::At(262_144)),
    (Kind::Ext, 0, 200, Rule::At(786_432)),
];

static EXT: [Row; 5] = [
    (COPIES, &[GroupKind::Ext], &[(GroupKind::Ext, COPY_LINES)]),
    (COPIES, USUAL, &[]),
    (
        &[(0, 9, COPY), (0, 9, GROUP_ONE), (0, 9, LARGER_BLOCKS)],
        &[GroupKind::Ext],
        &[],
    ),
    (&[(0, 9, COPY), (0, 9, LATER_GROUP)], &[GroupKind::Ext], &[]),
    (
        &[(0, 9, COPY), (0, 9, GROUP_ONE), (0, 9, NO_BLOCKS)],
        &[GroupKind::Ext],
        &[],
    ),
];

#[test]
fn copies_of_ext_have_a_group(rt: HostRuntime) -> Result<(), Fail> {
    finds_all(&rt, &[], &EXT)
}

// Inodes of XFS, wherever the superblock stands: the first of each 128. They are looked for where they are named.
const SUPER_AT_9: Placed = (0, 9, &[(0, &SUPER)]);

const ROOT_AT_20: Placed = (0, 20, &[(0, &ROOT)]);

const LATER_AT_20: Placed = (0, 20, &[(0, &LATER)]);

const INODES: &[Placed] = &[
    (0, 5, &[(0, &LATER)]),
    SUPER_AT_9,
    ROOT_AT_20,
    (0, 21, &[(0, &NEXT)]),
];

const INODE_LINES: Lines = (
    GroupKind::Xfs5,
    &[
        (Kind::Xfs5, 0, 5, Rule::At(540_800)),
        (Kind::Xfs5, 0, 20, Rule::At(128)),
    ],
);

const SUPER_LINES: Lines = (
    GroupKind::Xfs,
    &[(
        Kind::Super,
        0,
        9,
        Rule::Every {
            step: 204_800,
            count: 4,
            plus: 0,
        },
    )],
);

// The kind of inodes alone. Where none is a mark there is no group.
const XFS5: &[GroupKind] = &[GroupKind::Xfs5];

const NO_INODE: &[Lines] = &[];

// A superblock of a file system with sectors of 4,096 bytes, whose checksum is not looked at; with half as many groups; and damaged.
const WIDE: &[Field] = &[(102, &[0x10])];

const TWO_GROUPS: &[Field] = &[(91, &[2])];

const DAMAGED: &[Field] = &[(300, &[1])];

const ROOT_LINES: Lines = (GroupKind::Xfs5, &[(Kind::Xfs5, 0, 20, Rule::At(128))]);

const LATER_LINES: Lines = (GroupKind::Xfs5, &[(Kind::Xfs5, 0, 20, Rule::At(540_800))]);

static INODE_ROWS: [Row; 9] = [
    (INODES, XFS5, &[INODE_LINES]),
    (
        INODES,
        &[GroupKind::Xfs, GroupKind::Xfs5],
        &[SUPER_LINES, INODE_LINES],
    ),
    // of another file system
    (
        &[SUPER_AT_9, (0, 9, WIDE), (0, 9, &[(32, &[0])]), ROOT_AT_20],
        XFS5,
        NO_INODE,
    ),
    // with another checksum
    (
        &[SUPER_AT_9, ROOT_AT_20, (0, 20, &[(511, &[1])])],
        XFS5,
        NO_INODE,
    ),
    // in a group that the file system does not have
    (
        &[SUPER_AT_9, (0, 9, WIDE), (0, 9, TWO_GROUPS), LATER_AT_20],
        XFS5,
        NO_INODE,
    ),
    // with a damaged superblock, which tells only if its checksum is not looked at
    (&[SUPER_AT_9, (0, 9, DAMAGED), ROOT_AT_20], XFS5, NO_INODE),
    (
        &[SUPER_AT_9, (0, 9, WIDE), (0, 9, DAMAGED), ROOT_AT_20],
        XFS5,
        &[ROOT_LINES],
    ),
    // without a superblock
    (&[ROOT_AT_20], XFS5, &[]),
    // where they are not named
    (INODES, USUAL, &[SUPER_LINES]),
];

#[test]
fn inodes_of_xfs_have_a_group(rt: HostRuntime) -> Result<(), Fail> {
    finds_all(&rt, &[], &INODE_ROWS)
}

// Superblocks of one file system before and behind that at 9, of which some have the half of its groups. The inode is of group 2 of four.
const FEWER_AT_3: &[Placed] = &[(0, 3, &[(0, &SUPER)]), (0, 3, WIDE), (0, 3, TWO_GROUPS)];

static DIFFERING: [Row; 4] = [
    // of equals the first decides
    (&[SUPER_AT_9, LATER_AT_20], XFS5, NO_INODE),
    // what most state
    (
        &[SUPER_AT_9, (0, 12, &[(0, &SUPER)]), LATER_AT_20],
        XFS5,
        &[LATER_LINES],
    ),
    // of two and two the first again
    (
        &[
            SUPER_AT_9,
            (0, 12, &[(0, &SUPER)]),
            (0, 15, &[(0, &SUPER)]),
            (0, 15, WIDE),
            (0, 15, TWO_GROUPS),
            LATER_AT_20,
        ],
        XFS5,
        NO_INODE,
    ),
    // the one that says otherwise is damaged, so it does not count
    (
        &[(0, 3, &[(102, &[2])]), SUPER_AT_9, LATER_AT_20],
        XFS5,
        &[LATER_LINES],
    ),
];

#[test]
fn most_superblocks_decide(rt: HostRuntime) -> Result<(), Fail> {
    finds_all(&rt, FEWER_AT_3, &DIFFERING)
}

// Superblocks of inodes of 1,024 bytes and of the largest.
const LARGE_AT_9: Placed = (0, 9, &[(0, &LARGE_SUPER)]);

const LARGEST_AT_9: Placed = (0, 9, &[(0, &LARGEST_SUPER)]);

const LARGE_AT_20: Placed = (0, 20, &[(0, &LARGE_INODE)]);

const LARGEST_AT_20: Placed = (0, 20, &[(0, &LARGEST)]);

const LARGE_LINES: Lines = (GroupKind::Xfs5, &[(Kind::Xfs5, 0, 20, Rule::At(541_440))]);

const LAST_LINES: Lines = (GroupKind::Xfs5, &[(Kind::Xfs5, 0, 396, Rule::At(541_440))]);

const LARGEST_LINES: Lines = (GroupKind::Xfs5, &[(Kind::Xfs5, 0, 20, Rule::At(541_056))]);

// What lies past the first sector is read too, where the image has the four sectors of the largest inode. The number 163,936 is 32
// more than a multiple of 64: of the largest inodes 32 fill a stretch of 64 KiB.
static LARGE_ROWS: [Row; 6] = [
    (
        &[LARGE_AT_9, LARGE_AT_20, (0, 22, &[(511, &[1])])],
        XFS5,
        &[LARGE_LINES],
    ),
    (
        &[LARGE_AT_9, LARGE_AT_20, (0, 21, &[(511, &[1])])],
        XFS5,
        NO_INODE,
    ),
    (
        &[LARGE_AT_9, (0, 396, &[(0, &LARGE_INODE)])],
        XFS5,
        &[LAST_LINES],
    ),
    (
        &[LARGE_AT_9, (0, 397, &[(0, &LARGE_INODE)])],
        XFS5,
        NO_INODE,
    ),
    (&[LARGEST_AT_9, LARGEST_AT_20], XFS5, &[LARGEST_LINES]),
    (
        &[LARGEST_AT_9, LARGEST_AT_20, (0, 20, &[(2_047, &[1])])],
        XFS5,
        NO_INODE,
    ),
];

#[test]
fn larger_inodes_of_xfs_are_marks(rt: HostRuntime) -> Result<(), Fail> {
    finds_all(&rt, &[], &LARGE_ROWS)
}

// The identifiers of the first and of the second file system, over that of a superblock.
const FIRST: Placed = (
    0,
    9,
    &[(
        32,
        &[
            0x8b, 0x1f, 0x2c, 0x63, 0x5d, 0x0e, 0x4b, 0x7a, 0x9c, 0x41, 0x0e, 0x6f, 0x7a, 0x2d,
            0x91, 0x35,
        ],
    )],
);

const SECOND: Placed = (
    0,
    9,
    &[(
        32,
        &[
            0x01, 0x23, 0x45, 0x67, 0x89, 0xab, 0xcd, 0xef, 0x01, 0x23, 0x45, 0x67, 0x89, 0xab,
            0xcd, 0xef,
        ],
    )],
);

// The superblock has the inode's identifier, and the group and block of its number, which begins a stretch there too.
static OTHER_SIZES: [Row; 3] = [
    (
        &[SUPER_AT_9, (0, 9, WIDE), SECOND, LARGE_AT_20],
        XFS5,
        NO_INODE,
    ),
    (
        &[LARGE_AT_9, (0, 9, WIDE), FIRST, ROOT_AT_20],
        XFS5,
        NO_INODE,
    ),
    (
        &[LARGEST_AT_9, (0, 9, WIDE), FIRST, ROOT_AT_20],
        XFS5,
        NO_INODE,
    ),
];

#[test]
fn inodes_of_another_size_are_no_marks(rt: HostRuntime) -> Result<(), Fail> {
    finds_all(&rt, &[], &OTHER_SIZES)
}

// Two file systems: the superblock of the first stands before that of the second, and its inode behind.
static TWO_SYSTEMS: [Row; 1] = [(
    &[
        SUPER_AT_9,
        (0, 12, &[(0, &LARGE_SUPER)]),
        LARGE_AT_20,
        (0, 30, &[(0, &ROOT)]),
    ],
    XFS5,
    &[
        LARGE_LINES,
        (GroupKind::Xfs5, &[(Kind::Xfs5, 0, 30, Rule::At(128))]),
    ],
)];

#[test]
fn groups_stand_in_the_order_of_their_marks(rt: HostRuntime) -> Result<(), Fail> {
    finds_all(&rt, &[], &TWO_SYSTEMS)
}
