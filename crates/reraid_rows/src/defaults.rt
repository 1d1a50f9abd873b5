//! Operands that are not given.
use crate::objects::{filled, images_of};
use crate::placed::{HEADER, Placed, put_all};
use crate::plans::{FIVE_MEMBERS, NO_WHOLE_ROW};
use crate::rows::{End, Row, TWENTY_FOUR, ZERO, check, ends_so, run};
use std::alloc::Global;
use std::process::Abort;
use std::test::Fail;
use std::thread::Threads;

/// Five images of zeros, of which every order passes.
const FIVE: &[&[u8]] = &[ZERO; 5];

/// How many lines a text has.
fn lines_in(text: &[u8]) -> usize {
    text.iter().filter(|byte| **byte == b'\n').count()
}

/// Compares a page of a hundred sets.
fn compare_page<R: Abort>(rt: &R, status: u8, out: &[u8]) {
    assert_eq!(rt; status, 0);
    assert_eq!(rt; lines_in(out), 101);
    assert!(rt; out.starts_with(b"0 5:ls:none:1:0:0,1,2,3,4\n1 5:ls:none:1:0:0,1,2,4,3\n"));
    assert!(rt; out.ends_with(b"99 5:ls:none:1:0:4,0,2,3,1\nnext 100 of 120\n"));
}

// A page of 100 lines from rank 0, as text, and no second page: 120 orders pass. Rank 99 is the fourth of the 24 orders that begin
// with 4.
#[test]
fn a_listing_without_operands(rt: HostRuntime) -> Result<(), Fail> {
    let alloc = rt.alloc();
    let contents = images_of(alloc, FIVE)?;
    let plan = FIVE_MEMBERS.as_bytes();
    let (status, met) = run(&rt, alloc, "list -- a b c d e", &contents, plan)?;
    compare_page(&rt, status, met.out.bytes());
    Ok(())
}

/// A listing to the total.
const TO_THE_TOTAL: Row = Row {
    line: "list -- a b c d e f g h i j k l m n o p",
    images: TWENTY_FOUR,
    plan: NO_WHOLE_ROW,
    status: 0,
    out: "next 13316937307914240000 of 13316937307914240000\n",
    notes: "",
};

// A page goes through all ranks up to the total. No set has a whole row: 13 * 3 * 15 * 64 heads have 16! lists with
// no slot empty, and 16 * 16! with one.
#[test]
fn a_page_goes_to_the_total(rt: HostRuntime) -> Result<(), Fail> {
    check(&rt, rt.alloc(), &TO_THE_TOTAL)
}

/// Images of three, two and four sectors: rows 0 1 P and 3 P 2 of left-symmetric.
const UNEQUAL: &[&[u8]] = &[&[1, 2, 9], &[3, 4], &[2, 6, 9, 9]];

/// A line over them, its status, the bytes of the sectors that it puts, and the line on the notes.
type Put = (&'static str, u8, &'static [u8], &'static str);

const PUTS: [Put; 5] = [
    (
        "map set=5:ls:none:1:0:0,1,2 sector=4 -- a b c",
        8,
        &[],
        "reraid: sector 4 of 4\n",
    ),
    (
        "map end=1 set=5:ls:none:1:0:0,1,2 sector=2 -- a b c",
        8,
        &[],
        "reraid: sector 2 of 2\n",
    ),
    (
        "write set=5:ls:none:1:0:0,1,2 -- a b c",
        0,
        &[1, 3, 6, 2],
        "",
    ),
    (
        "write end=1 set=5:ls:none:1:0:0,1,2 -- a b c",
        0,
        &[1, 3],
        "",
    ),
    // 01 + 02 = 03 and 02 + 06 = 04
    (
        "rebuild set=5:ls:none:1:0:0,-,1 slot=1 -- b c",
        0,
        &[1, 2],
        "",
    ),
];

/// Runs a line over them, and compares what it leaves.
fn puts<R: Threads + Sync + Abort>(rt: &R, alloc: Global, put: &Put) -> Result<(), Fail> {
    let (line, status, sectors, notes) = *put;
    let contents = images_of(alloc, UNEQUAL)?;
    let out = filled(alloc, sectors)?;
    let end = End {
        status,
        out: &out,
        notes: notes.as_bytes(),
    };
    ends_so(rt, alloc, line, &contents, b"", &end)
}

// The end is that of the shortest image.
#[test]
fn the_end_is_that_of_the_shortest(rt: HostRuntime) -> Result<(), Fail> {
    for put in &PUTS {
        puts(&rt, rt.alloc(), put)?;
    }
    Ok(())
}

/// A header of a partition table in block 1 of 128, whose checksum was computed by zlib; a boot sector of NTFS of 100 sectors; a
/// superblock of XFS of four groups of 136 sectors.
const ONE_OF_EACH: &[Placed] = &[
    (0, 0, HEADER),
    (
        0,
        0,
        &[
            (16, &[0x81, 0xFE, 0xE7, 0x71]),
            (24, &[1]),
            (32, &[127]),
            (72, &[2]),
        ],
    ),
    (
        1,
        1,
        &[
            (3, b"NTFS    "),
            (12, &[2, 8]),
            (40, &[100]),
            (48, &[4]),
            (56, &[2]),
            (64, &[0xF6]),
            (510, &[0x55, 0xAA]),
        ],
    ),
    (
        1,
        2,
        &[
            (0, b"XFSB"),
            (6, &[0x10]),
            (87, &[17]),
            (91, &[4]),
            (102, &[2]),
        ],
    ),
];

/// What a survey prints of them.
const PLAN_OF_EACH: &str =
    "reraid-plan 1\nimages 2\nlength 4\nlength 3\nend 3\nlevels 0,5,6\nmembers 2\npatterns plain,la,ra,ls,rs,parity-first,parity-last,n-restart,n-continue,la-6,ra-6,ls-6,rs-6,parity-first-6\nsyndromes none,after-q,by-data,by-slot\nchunks 8,16,32,64,128,256,512,1024,2048\noffsets 0,2048,262144,264192\norigins 0,2048\nmissing 0\nforeign 0\nbadrows 0\nwindow 3\nmisfits 0\nleast 1\ngroup gpt\nmark gpt 0 0 at:1\ngroup ntfs\nmark boot 1 1 either:0:100\ngroup xfs\nmark super 1 2 every:136:4:0\ndone\n";

// Images of four and three sectors. All kinds are looked for, and no sector is passed over.
#[test]
fn a_survey_without_operands(rt: HostRuntime) -> Result<(), Fail> {
    let alloc = rt.alloc();
    let mut contents = images_of(alloc, &[&[0; 4], &[0; 3]])?;
    put_all(&mut contents, ONE_OF_EACH);
    let end = End {
        status: 0,
        out: PLAN_OF_EACH.as_bytes(),
        notes: b"",
    };
    ends_so(&rt, alloc, "survey -- a b", &contents, b"", &end)
}
