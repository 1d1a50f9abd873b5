//! Surveys of images that hold landmarks, and listings over their plans.
use crate::placed::{Field, HEADER, Placed, images};
use crate::plans::XFS;
use crate::rows::{End, compare, ends_so, run, same_status};
use outside::SECTOR;
use std::alloc::Global;
use std::process::Abort;
use std::test::Fail;
use std::thread::Threads;

/// One survey: its line, the lengths of its images in bytes, the sectors that are not zero, and the plan that it must print.
#[derive(Clone, Copy)]
struct Surveyed<'a> {
    line: &'a str,
    lengths: &'a [usize],
    placed: &'a [Placed],
    plan: &'a str,
}

/// Runs each survey, and compares its plan.
fn check_all<R: Threads + Sync + Abort>(
    rt: &R,
    alloc: Global,
    surveys: &[Surveyed],
) -> Result<(), Fail> {
    for survey in surveys {
        check(rt, alloc, survey)?;
    }
    Ok(())
}

/// Runs a survey, and compares its plan.
fn check<R: Threads + Sync + Abort>(rt: &R, alloc: Global, survey: &Surveyed) -> Result<(), Fail> {
    let contents = images(alloc, survey.lengths, survey.placed)?;
    let end = End {
        status: 0,
        out: survey.plan.as_bytes(),
        notes: b"",
    };
    ends_so(rt, alloc, survey.line, &contents, b"", &end)
}

/// What a header says in block 1 whose last copy is in block 127, with entries in block 2. Checksums were computed by zlib.
const LAST_127: &[Field] = &[
    (16, &[0x81, 0xFE, 0xE7, 0x71]),
    (24, &[1]),
    (32, &[127]),
    (72, &[2]),
];

/// A bit of the disk's identifier is changed.
const CHANGED: &[Field] = &[(56, &[1])];

/// One entry in use, from block 40 to 100.
const ENTRIES: &[Field] = &[(0, &[1]), (32, &[40]), (40, &[100])];

/// The header of an image's own table in block 1 of 10,000, and its copy in block 9999.
const OWN: &[Field] = &[
    (16, &[0x1C, 0x51, 0x73, 0xB1]),
    (24, &[1]),
    (32, &[0x0F, 0x27]),
    (72, &[2]),
];

const OWN_COPY: &[Field] = &[
    (16, &[0xA9, 0xBE, 0x41, 0xED]),
    (24, &[0x0F, 0x27]),
    (32, &[1]),
    (72, &[0xEF, 0x26]),
];

/// A header of a partition table of 16 blocks of 4,096 bytes, in block 1, with its copy in block 15.
const LARGE_BLOCKS: &[Field] = &[
    (16, &[0x20, 0xCE, 0x0C, 0x30]),
    (24, &[1]),
    (32, &[15]),
    (72, &[2]),
];

/// One entry in use, from block 5 to 12.
const LARGE_ENTRIES: &[Field] = &[(0, &[1]), (32, &[5]), (40, &[12])];

const LARGE_TABLE: &[Placed] = &[(0, 8, HEADER), (0, 8, LARGE_BLOCKS), (0, 16, LARGE_ENTRIES)];

/// A label of LVM2 that names sector 1, and a superblock of btrfs at byte 65,536 of its file system.
const LABEL: &[Field] = &[(0, b"LABELONE"), (8, &[1]), (24, b"LVM2 001")];

const BTRFS: &[Field] = &[(48, &[0, 0, 1]), (64, b"_BHRfS_M")];

/// The same but for the address and the type.
const NO_LABEL: &[Field] = &[(0, b"LABELONE"), (8, &[1]), (24, b"LVM2 002")];

const NO_BTRFS: &[Field] = &[(48, &[1, 0, 1]), (64, b"_BHRfS_M")];

const VOLUMES: &[Placed] = &[(0, 3, LABEL), (0, 130, BTRFS)];

const NO_VOLUMES: &[Placed] = &[(0, 3, NO_LABEL), (0, 130, NO_BTRFS)];

/// A superblock of ext4 with blocks of 4,096 bytes, 32,768 a group, and its copies in groups 1 and 3.
const EXT: &[Field] = &[(24, &[2]), (33, &[128]), (56, &[0x53, 0xEF]), (76, &[1])];

const EXT_ONE: &[Field] = &[
    (24, &[2]),
    (33, &[128]),
    (56, &[0x53, 0xEF]),
    (76, &[1]),
    (90, &[1]),
];

const EXT_THREE: &[Field] = &[
    (24, &[2]),
    (33, &[128]),
    (56, &[0x53, 0xEF]),
    (76, &[1]),
    (90, &[3]),
];

const COPIES: &[Placed] = &[(0, 2, EXT), (0, 100, EXT_ONE), (0, 200, EXT_THREE)];

/// The length of an image of 400 sectors.
const FOUR_HUNDRED: &[usize] = &[204_800];

const TABLE: &[Placed] = &[(0, 1, HEADER), (0, 1, LAST_127), (0, 2, ENTRIES)];

const CHANGED_TABLE: &[Placed] = &[
    (0, 1, HEADER),
    (0, 1, LAST_127),
    (0, 1, CHANGED),
    (0, 2, ENTRIES),
];

const OWN_TABLES: &[Placed] = &[
    (0, 1, HEADER),
    (0, 1, OWN),
    (0, 9999, HEADER),
    (0, 9999, OWN_COPY),
    (1, 1, HEADER),
    (1, 1, OWN),
    (1, 9999, HEADER),
    (1, 9999, OWN_COPY),
    (2, 1, HEADER),
    (2, 1, OWN),
    (2, 9999, HEADER),
    (2, 9999, OWN_COPY),
];

/// A boot sector of NTFS: 8 sectors a cluster, 100 sectors, $MFT in cluster 4, its copy in cluster 2, and
/// records of 2^10 bytes.
const BOOT: &[Field] = &[
    (3, b"NTFS    "),
    (12, &[2]),
    (13, &[8]),
    (40, &[100]),
    (48, &[4]),
    (56, &[2]),
    (64, &[0xF6]),
    (510, &[0x55, 0xAA]),
];

/// File record 1, of 1024 bytes, with its update sequence at 48.
const RECORD: &[Field] = &[(0, b"FILE"), (4, &[48]), (29, &[4]), (44, &[1])];

/// The same, with the update sequence at 42.
const OLD_RECORD: &[Field] = &[(0, b"FILE"), (4, &[42]), (29, &[4]), (44, &[1])];

const NTFS: &[Placed] = &[(0, 10, BOOT), (0, 110, BOOT), (0, 44, RECORD)];

const OLD_NTFS: &[Placed] = &[(0, 10, BOOT), (0, 110, BOOT), (0, 44, OLD_RECORD)];

/// A superblock of XFS: blocks of 4096 bytes, four groups of 17 blocks, sectors of 512 bytes.
const SUPER: &[Field] = &[
    (0, b"XFSB"),
    (6, &[0x10]),
    (87, &[17]),
    (91, &[4]),
    (102, &[2]),
];

/// The heads of the parts of a group but for its number, and that number in both.
const AGF: &[Field] = &[(0, b"XAGF"), (7, &[1])];

const AGI: &[Field] = &[(0, b"XAGI"), (7, &[1])];

const ONE_OF_FOUR: &[Field] = &[(11, &[1])];

const TWO_OF_FOUR: &[Field] = &[(11, &[2])];

const THREE_OF_FOUR: &[Field] = &[(11, &[3])];

/// The three sectors of each group, each on an image of its own.
const GROUPS: &[Placed] = &[
    (0, 512, SUPER),
    (0, 513, AGF),
    (0, 514, AGI),
    (1, 544, SUPER),
    (1, 545, AGF),
    (1, 545, ONE_OF_FOUR),
    (1, 546, AGI),
    (1, 546, ONE_OF_FOUR),
    (2, 576, SUPER),
    (2, 577, AGF),
    (2, 577, TWO_OF_FOUR),
    (2, 578, AGI),
    (2, 578, TWO_OF_FOUR),
    (3, 608, SUPER),
    (3, 609, AGF),
    (3, 609, THREE_OF_FOUR),
    (3, 610, AGI),
    (3, 610, THREE_OF_FOUR),
];

/// The bytes of two images of 64 sectors, of three of 10,000, of one of 200, and of one below a sector.
const SMALL: &[usize] = &[32_768, 32_768];

const LARGE: &[usize] = &[5_120_000, 5_120_000, 5_120_000];

const ONE: &[usize] = &[102_400];

const TORN: &[usize] = &[511];

/// The surveys of partition tables.
const TABLES: [Surveyed; 8] = [
    Surveyed {
        line: "survey logical=4096 origins=0 -- a b",
        lengths: SMALL,
        placed: LARGE_TABLE,
        plan: "reraid-plan 1\nimages 2\nlength 64\nlength 64\nend 64\nlevels 0,5,6\nmembers 2\npatterns plain,la,ra,ls,rs,parity-first,parity-last,n-restart,n-continue,la-6,ra-6,ls-6,rs-6,parity-first-6\nsyndromes none,after-q,by-data,by-slot\nchunks 8,16,32,64,128,256,512,1024,2048\noffsets 0,2048,262144,264192\norigins 0,40\nmissing 0\nforeign 0\nbadrows 0\nwindow 64\nmisfits 0\nleast 1\ngroup gpt\nmark gpt 0 8 at:8\ndone\n",
    },
    Surveyed {
        line: "survey origins=0 -- a b",
        lengths: SMALL,
        placed: LARGE_TABLE,
        plan: "reraid-plan 1\nimages 2\nlength 64\nlength 64\nend 64\nlevels 0,5,6\nmembers 2\npatterns plain,la,ra,ls,rs,parity-first,parity-last,n-restart,n-continue,la-6,ra-6,ls-6,rs-6,parity-first-6\nsyndromes none,after-q,by-data,by-slot\nchunks 8,16,32,64,128,256,512,1024,2048\noffsets 0,2048,262144,264192\norigins 0\nmissing 0\nforeign 0\nbadrows 0\nwindow 64\nmisfits 0\nleast 1\ngroup gpt\nmark gpt 0 8 at:1\ndone\n",
    },
    Surveyed {
        line: "survey origins=0 -- a b",
        lengths: SMALL,
        placed: TABLE,
        plan: "reraid-plan 1\nimages 2\nlength 64\nlength 64\nend 64\nlevels 0,5,6\nmembers 2\npatterns plain,la,ra,ls,rs,parity-first,parity-last,n-restart,n-continue,la-6,ra-6,ls-6,rs-6,parity-first-6\nsyndromes none,after-q,by-data,by-slot\nchunks 8,16,32,64,128,256,512,1024,2048\noffsets 0,2048,262144,264192\norigins 0,40\nmissing 0\nforeign 0\nbadrows 0\nwindow 64\nmisfits 0\nleast 1\ngroup gpt\nmark gpt 0 1 at:1\ndone\n",
    },
    Surveyed {
        line: "survey origins=0 -- a b",
        lengths: SMALL,
        placed: CHANGED_TABLE,
        plan: "reraid-plan 1\nimages 2\nlength 64\nlength 64\nend 64\nlevels 0,5,6\nmembers 2\npatterns plain,la,ra,ls,rs,parity-first,parity-last,n-restart,n-continue,la-6,ra-6,ls-6,rs-6,parity-first-6\nsyndromes none,after-q,by-data,by-slot\nchunks 8,16,32,64,128,256,512,1024,2048\noffsets 0,2048,262144,264192\norigins 0\nmissing 0\nforeign 0\nbadrows 0\nwindow 64\nmisfits 0\nleast 1\ndone\n",
    },
    Surveyed {
        line: "survey origins=0 drop=0:1 -- a b",
        lengths: SMALL,
        placed: TABLE,
        plan: "reraid-plan 1\nimages 2\nlength 64\nlength 64\nend 64\nlevels 0,5,6\nmembers 2\npatterns plain,la,ra,ls,rs,parity-first,parity-last,n-restart,n-continue,la-6,ra-6,ls-6,rs-6,parity-first-6\nsyndromes none,after-q,by-data,by-slot\nchunks 8,16,32,64,128,256,512,1024,2048\noffsets 0,2048,262144,264192\norigins 0\nmissing 0\nforeign 0\nbadrows 0\nwindow 64\nmisfits 0\nleast 1\ndone\n",
    },
    Surveyed {
        line: "survey -- a b c",
        lengths: LARGE,
        placed: OWN_TABLES,
        plan: "reraid-plan 1\nimages 3\nlength 10000\nlength 10000\nlength 10000\nend 10000\nlevels 0,5,6\nmembers 3\npatterns plain,la,ra,ls,rs,parity-first,parity-last,n-restart,n-continue,la-6,ra-6,ls-6,rs-6,parity-first-6\nsyndromes none,after-q,by-data,by-slot\nchunks 8,16,32,64,128,256,512,1024,2048\noffsets 0,2048,262144,264192\norigins 0,2048\nmissing 0\nforeign 0\nbadrows 0\nwindow 10000\nmisfits 0\nleast 1\ndone\n",
    },
    Surveyed {
        line: "survey kinds=gpt origins=0 -- a b",
        lengths: SMALL,
        placed: TABLE,
        plan: "reraid-plan 1\nimages 2\nlength 64\nlength 64\nend 64\nlevels 0,5,6\nmembers 2\npatterns plain,la,ra,ls,rs,parity-first,parity-last,n-restart,n-continue,la-6,ra-6,ls-6,rs-6,parity-first-6\nsyndromes none,after-q,by-data,by-slot\nchunks 8,16,32,64,128,256,512,1024,2048\noffsets 0,2048,262144,264192\norigins 0,40\nmissing 0\nforeign 0\nbadrows 0\nwindow 64\nmisfits 0\nleast 1\ngroup gpt\nmark gpt 0 1 at:1\ndone\n",
    },
    Surveyed {
        line: "survey kinds=gpt -- a b c",
        lengths: LARGE,
        placed: OWN_TABLES,
        plan: "reraid-plan 1\nimages 3\nlength 10000\nlength 10000\nlength 10000\nend 10000\nlevels 0,5,6\nmembers 3\npatterns plain,la,ra,ls,rs,parity-first,parity-last,n-restart,n-continue,la-6,ra-6,ls-6,rs-6,parity-first-6\nsyndromes none,after-q,by-data,by-slot\nchunks 8,16,32,64,128,256,512,1024,2048\noffsets 0,2048,262144,264192\norigins 0,2048\nmissing 0\nforeign 0\nbadrows 0\nwindow 10000\nmisfits 0\nleast 1\ndone\n",
    },
];

#[test]
fn tables_become_a_plan(rt: HostRuntime) -> Result<(), Fail> {
    check_all(&rt, rt.alloc(), &TABLES)
}

/// The surveys of file systems.
const FILE_SYSTEMS: [Surveyed; 7] = [
    Surveyed {
        line: "survey -- a",
        lengths: FOUR_HUNDRED,
        placed: VOLUMES,
        plan: "reraid-plan 1\nimages 1\nlength 400\nend 400\nlevels 0,5,6\nmembers 2\npatterns plain,la,ra,ls,rs,parity-first,parity-last,n-restart,n-continue,la-6,ra-6,ls-6,rs-6,parity-first-6\nsyndromes none,after-q,by-data,by-slot\nchunks 8,16,32,64,128,256,512,1024,2048\noffsets 0,2048,262144,264192\norigins 0,2048\nmissing 0\nforeign 0\nbadrows 0\nwindow 400\nmisfits 0\nleast 1\ngroup btrfs\nmark btrfs 0 130 at:128\ngroup lvm\nmark lvm 0 3 at:1\ndone\n",
    },
    Surveyed {
        line: "survey -- a",
        lengths: FOUR_HUNDRED,
        placed: NO_VOLUMES,
        plan: "reraid-plan 1\nimages 1\nlength 400\nend 400\nlevels 0,5,6\nmembers 2\npatterns plain,la,ra,ls,rs,parity-first,parity-last,n-restart,n-continue,la-6,ra-6,ls-6,rs-6,parity-first-6\nsyndromes none,after-q,by-data,by-slot\nchunks 8,16,32,64,128,256,512,1024,2048\noffsets 0,2048,262144,264192\norigins 0,2048\nmissing 0\nforeign 0\nbadrows 0\nwindow 400\nmisfits 0\nleast 1\ndone\n",
    },
    Surveyed {
        line: "survey kinds=lvm -- a",
        lengths: FOUR_HUNDRED,
        placed: VOLUMES,
        plan: "reraid-plan 1\nimages 1\nlength 400\nend 400\nlevels 0,5,6\nmembers 2\npatterns plain,la,ra,ls,rs,parity-first,parity-last,n-restart,n-continue,la-6,ra-6,ls-6,rs-6,parity-first-6\nsyndromes none,after-q,by-data,by-slot\nchunks 8,16,32,64,128,256,512,1024,2048\noffsets 0,2048,262144,264192\norigins 0,2048\nmissing 0\nforeign 0\nbadrows 0\nwindow 400\nmisfits 0\nleast 1\ngroup lvm\nmark lvm 0 3 at:1\ndone\n",
    },
    Surveyed {
        line: "survey mode=each -- a",
        lengths: FOUR_HUNDRED,
        placed: VOLUMES,
        plan: "reraid-plan 2\nimages 1\nlength 400\nend 400\nlevels 0,5,6\nmembers 2\npatterns plain,la,ra,ls,rs,parity-first,parity-last,n-restart,n-continue,la-6,ra-6,ls-6,rs-6,parity-first-6\nsyndromes none,after-q,by-data,by-slot\nchunks 8,16,32,64,128,256,512,1024,2048\noffsets 0,2048,262144,264192\norigins 0,2048\nmissing 0\nforeign 0\nbadrows 0\nwindow 400\nmisfits 0\nleast 1\ngroup btrfs\nmark btrfs 0 130 at:128\ngroup lvm\nmark lvm 0 3 at:1\ndone\n",
    },
    Surveyed {
        line: "survey kinds=ext -- a",
        lengths: FOUR_HUNDRED,
        placed: COPIES,
        plan: "reraid-plan 1\nimages 1\nlength 400\nend 400\nlevels 0,5,6\nmembers 2\npatterns plain,la,ra,ls,rs,parity-first,parity-last,n-restart,n-continue,la-6,ra-6,ls-6,rs-6,parity-first-6\nsyndromes none,after-q,by-data,by-slot\nchunks 8,16,32,64,128,256,512,1024,2048\noffsets 0,2048,262144,264192\norigins 0,2048\nmissing 0\nforeign 0\nbadrows 0\nwindow 400\nmisfits 0\nleast 1\ngroup ext\nmark ext 0 100 at:262144\nmark ext 0 200 at:786432\ndone\n",
    },
    Surveyed {
        line: "survey -- a",
        lengths: ONE,
        placed: NTFS,
        plan: "reraid-plan 1\nimages 1\nlength 200\nend 200\nlevels 0,5,6\nmembers 2\npatterns plain,la,ra,ls,rs,parity-first,parity-last,n-restart,n-continue,la-6,ra-6,ls-6,rs-6,parity-first-6\nsyndromes none,after-q,by-data,by-slot\nchunks 8,16,32,64,128,256,512,1024,2048\noffsets 0,2048,262144,264192\norigins 0,2048\nmissing 0\nforeign 0\nbadrows 0\nwindow 200\nmisfits 0\nleast 1\ngroup ntfs\nmark boot 0 10 either:0:100\nmark record 0 44 either:34:18\nmark boot 0 110 either:0:100\ndone\n",
    },
    Surveyed {
        line: "survey -- a",
        lengths: ONE,
        placed: OLD_NTFS,
        plan: "reraid-plan 1\nimages 1\nlength 200\nend 200\nlevels 0,5,6\nmembers 2\npatterns plain,la,ra,ls,rs,parity-first,parity-last,n-restart,n-continue,la-6,ra-6,ls-6,rs-6,parity-first-6\nsyndromes none,after-q,by-data,by-slot\nchunks 8,16,32,64,128,256,512,1024,2048\noffsets 0,2048,262144,264192\norigins 0,2048\nmissing 0\nforeign 0\nbadrows 0\nwindow 200\nmisfits 0\nleast 1\ngroup ntfs\nmark boot 0 10 either:0:100\nmark boot 0 110 either:0:100\ndone\n",
    },
];

#[test]
fn file_systems_become_a_plan(rt: HostRuntime) -> Result<(), Fail> {
    check_all(&rt, rt.alloc(), &FILE_SYSTEMS)
}

/// The surveys up to sector 0, and of less than a sector.
const SHORT: [Surveyed; 2] = [
    Surveyed {
        line: "survey end=0 -- a b",
        lengths: SMALL,
        placed: TABLE,
        plan: "reraid-plan 1\nimages 2\nlength 64\nlength 64\nend 0\nlevels 0,5,6\nmembers 2\npatterns plain,la,ra,ls,rs,parity-first,parity-last,n-restart,n-continue,la-6,ra-6,ls-6,rs-6,parity-first-6\nsyndromes none,after-q,by-data,by-slot\nchunks 8,16,32,64,128,256,512,1024,2048\noffsets 0,2048,262144,264192\norigins 0,2048\nmissing 0\nforeign 0\nbadrows 0\nwindow 1\nmisfits 0\nleast 1\ndone\n",
    },
    Surveyed {
        line: "survey -- a",
        lengths: TORN,
        placed: &[],
        plan: "reraid-plan 1\nimages 1\nlength 0\nend 0\nlevels 0,5,6\nmembers 2\npatterns plain,la,ra,ls,rs,parity-first,parity-last,n-restart,n-continue,la-6,ra-6,ls-6,rs-6,parity-first-6\nsyndromes none,after-q,by-data,by-slot\nchunks 8,16,32,64,128,256,512,1024,2048\noffsets 0,2048,262144,264192\norigins 0,2048\nmissing 0\nforeign 0\nbadrows 0\nwindow 1\nmisfits 0\nleast 1\ndone\n",
    },
];

#[test]
fn short_images_become_a_plan(rt: HostRuntime) -> Result<(), Fail> {
    check_all(&rt, rt.alloc(), &SHORT)
}

/// What a survey of images that hold an XFS of four groups is asked for.
const ASKED: &str =
    "survey levels=0 patterns=plain syndromes=none chunks=8,16 offsets=0 -- a b c d";

/// A page of at most a hundred sets.
const LIST: &str = "list -- a b c d";

/// What a listing over its plan leaves.
const LISTED: End = End {
    status: 0,
    out: b"0 0:plain:none:8:0:0,1,2,3\nnext 48 of 48\n",
    notes: b"",
};

// Group k begins at volume sector 2048 + 136 * k of a stripe of four with chunks of 8: the plan is that of
// the listing with landmarks, and so is what it lists.
#[test]
fn a_survey_and_then_a_listing(rt: HostRuntime) -> Result<(), Fail> {
    let alloc = rt.alloc();
    let contents = images(alloc, &[640 * SECTOR; 4], GROUPS)?;
    let surveyed = End {
        status: 0,
        out: XFS.as_bytes(),
        notes: b"",
    };
    let (status, met) = run(&rt, alloc, ASKED, &contents, b"")?;
    compare(&rt, status, &met, &surveyed, ASKED);
    ends_so(&rt, alloc, LIST, &contents, met.out.bytes(), &LISTED)
}

/// A set of rank 3288, and none from rank 3312 on.
const ONE_SET: &str = "list from=3288 size=1 -- a b c d";

const NO_SET: &str = "list from=3312 span=48 -- a b c d";

/// The survey whose plan they list.
const DEFAULTS: &str = "survey -- a b c d";

/// What they leave.
const WITH_ONE: End = End {
    status: 0,
    out: b"3288 5:ls:none:1024:2048:0,1,2,3\nnext 3289 of 39744\n",
    notes: b"",
};

const WITH_NONE: End = End {
    status: 0,
    out: b"next 3360 of 39744\n",
    notes: b"",
};

// Four members of zeros. There are 24 slot lists a head, and 1656 heads: 36 of level 0, 216 of level 5 and
// 1404 of level 6, each with 9 chunks and 4 offsets. At level 5 with chunk 1024 and offset 2048 pattern ls is
// pattern number 3 of 6.
#[test]
fn the_defaults_of_a_survey(rt: HostRuntime) -> Result<(), Fail> {
    let alloc = rt.alloc();
    let contents = images(alloc, &[8192 * SECTOR; 4], &[])?;
    let (status, met) = run(&rt, alloc, DEFAULTS, &contents, b"")?;
    same_status(&rt, status, 0, DEFAULTS);
    ends_so(&rt, alloc, ONE_SET, &contents, met.out.bytes(), &WITH_ONE)?;
    ends_so(&rt, alloc, NO_SET, &contents, met.out.bytes(), &WITH_NONE)
}
