//! Images and sets at both sides of their limits.
use crate::objects::{Objects, images_of, ready, run_words, words_of};
use crate::plans::PLAN;
use crate::rows::{End, Row, STRIPES, TWENTY_FOUR, ZERO, check, check_all, compare, ends_so};
use outside::Memory;
use reraid_cli::Word;
use std::alloc::Global;
use std::process::Abort;
use std::test::Fail;
use std::thread::Threads;

/// What a survey is asked for here: a plan of few lines.
const ASKED: &str =
    "survey levels=0 patterns=plain syndromes=none chunks=1 offsets=0 origins=0 -- a";

const LENGTH_ONE: &str =
    "reraid-plan 1\nimages 1\nlength 1\nend 1\nlevels 0\nmembers 2\npatterns plain\nsyndromes none\nchunks 1\noffsets 0\norigins 0\nmissing 0\nforeign 0\nbadrows 0\nwindow 1\nmisfits 0\nleast 1\ndone\n";

const LENGTH_NONE: &str =
    "reraid-plan 1\nimages 1\nlength 0\nend 0\nlevels 0\nmembers 2\npatterns plain\nsyndromes none\nchunks 1\noffsets 0\norigins 0\nmissing 0\nforeign 0\nbadrows 0\nwindow 1\nmisfits 0\nleast 1\ndone\n";

/// Surveys an image of `length` bytes, and compares the plan.
fn surveyed<R: Threads + Sync + Abort>(
    rt: &R,
    alloc: Global,
    length: usize,
    plan: &str,
) -> Result<(), Fail> {
    let mut contents = Vec::new(alloc);
    contents.push(vec![in alloc; 7u8; length]?)?;
    let end = End {
        status: 0,
        out: plan.as_bytes(),
        notes: b"",
    };
    ends_so(rt, alloc, ASKED, &contents, b"", &end)
}

/// Numbers of bytes, and what a survey of as many prints.
const LENGTHS: [(usize, &str); 4] = [
    (1000, LENGTH_ONE),
    (512, LENGTH_ONE),
    (511, LENGTH_NONE),
    (0, LENGTH_NONE),
];

// What follows the last whole sector is not seen.
#[test]
fn bytes_that_are_no_sector(rt: HostRuntime) -> Result<(), Fail> {
    for (length, plan) in LENGTHS {
        surveyed(&rt, rt.alloc(), length, plan)?;
    }
    Ok(())
}

/// One name twice.
const ONE_NAME: [Row; 4] = [
    Row {
        line: "list -- a a c",
        images: STRIPES,
        plan: PLAN,
        status: 0,
        out: "next 6 of 6\n",
        notes: "",
    },
    Row {
        line: "check set=5:ls:none:1:0:0,1,2 -- a a c",
        images: STRIPES,
        plan: PLAN,
        status: 0,
        out: "rank 0\nunsound 2 of 2\nfail\n",
        notes: "",
    },
    Row {
        line: "map set=0:plain:none:1:0:0,1 sector=3 -- a a",
        images: STRIPES,
        plan: "",
        status: 0,
        out: "row 1 item 1 slot 1 image 1 sector 1 p - q -\nname raid0\n",
        notes: "",
    },
    Row {
        line: "map set=0:plain:none:1:0:0,0 sector=3 -- a",
        images: STRIPES,
        plan: "",
        status: 7,
        out: "",
        notes: "reraid: set rule 6 value 0\n",
    },
];

// One name twice is two images, 01 02 both, which do not cancel with 02 06. So two slots may hold two images of one name, and may
// not hold one image.
#[test]
fn one_name_may_be_two_images(rt: HostRuntime) -> Result<(), Fail> {
    check_all(&rt, rt.alloc(), &ONE_NAME)
}

/// No image.
const NONE: &[&[u8]] = &[];

/// Runs a line over these images and the first plan, and compares the status and the line on the notes. Nothing is put.
fn refused<R: Threads + Sync + Abort>(
    rt: &R,
    alloc: Global,
    line: &str,
    images: &[&[u8]],
    status: u8,
    notes: &str,
) -> Result<(), Fail> {
    let row = Row {
        line,
        images,
        plan: PLAN,
        status,
        out: "",
        notes,
    };
    check(rt, alloc, &row)
}

/// Counts of images that are refused: the line, the images, and the line on the notes.
static COUNTS: [(&str, &[&[u8]], &str); 9] = [
    (
        "survey --",
        NONE,
        "reraid: images: count given 0 planned 1\n",
    ),
    (
        "map set=0:plain:none:1:0:0,1 sector=0 --",
        NONE,
        "reraid: images: count given 0 planned 1\n",
    ),
    (
        "write set=0:plain:none:1:0:0,1 --",
        NONE,
        "reraid: images: count given 0 planned 1\n",
    ),
    (
        "rebuild set=5:ls:none:1:0:0,1,- slot=2 --",
        NONE,
        "reraid: images: count given 0 planned 1\n",
    ),
    ("list --", NONE, "reraid: images: count given 0 planned 3\n"),
    (
        "check set=0:plain:none:1:0:0,1 --",
        NONE,
        "reraid: images: count given 0 planned 3\n",
    ),
    (
        "list -- a b c d",
        TWENTY_FOUR,
        "reraid: images: count given 4 planned 3\n",
    ),
    (
        "survey -- a b c d e f g h i j k l m n o p q r s t u v w x a",
        TWENTY_FOUR,
        "reraid: images: count given 25 planned 24\n",
    ),
    (
        "write set=0:plain:none:1:0:0,1 -- a b c d e f g h i j k l m n o p q r s t u v w x a",
        TWENTY_FOUR,
        "reraid: images: count given 25 planned 24\n",
    ),
];

/// As many images as there may be.
const MOST_IMAGES: [Row; 1] = [Row {
    line: "map set=0:plain:none:1:0:0,1,2,3,4,5,6,7,8,9,10,11,12,13,14,15,16,17,18,19,20,21,22,23 sector=23 -- a b c d e f g h i j k l m n o p q r s t u v w x",
    images: TWENTY_FOUR,
    plan: "",
    status: 0,
    out: "row 0 item 23 slot 23 image 23 sector 0 p - q -\nname raid0\n",
    notes: "",
}];

// From none to 24 images; for a plan, exactly as many as it has.
#[test]
fn images_are_too_many_or_too_few(rt: HostRuntime) -> Result<(), Fail> {
    for (line, images, notes) in &COUNTS {
        refused(&rt, rt.alloc(), line, images, 4, notes)?;
    }
    check_all(&rt, rt.alloc(), &MOST_IMAGES)
}

/// Sets over images of one sector that are refused: the line, its status, and the line on the notes. Each rule has the first value
/// that breaks it, and the next rule where it holds.
static SETS: [(&str, u8, &str); 28] = [
    (
        "write set=0:plain:none:1:0:0 -- a",
        7,
        "reraid: set rule 1 value 1\n",
    ),
    (
        "write set=0:la:none:1:0:0,1 -- a b",
        7,
        "reraid: set rule 2 value 1\n",
    ),
    (
        "write set=5:ls:none:1:0:0,1 -- a b",
        7,
        "reraid: set rule 1 value 2\n",
    ),
    (
        "write set=5:plain:none:1:0:0,1,2 -- a b c",
        7,
        "reraid: set rule 2 value 0\n",
    ),
    (
        "write set=5:n-restart:none:1:0:0,1,2 -- a b c",
        7,
        "reraid: set rule 2 value 7\n",
    ),
    (
        "write set=6:ls:after-q:1:0:0,1,2 -- a b c",
        7,
        "reraid: set rule 1 value 3\n",
    ),
    (
        "write set=6:ls:none:1:0:0,1,2,3 -- a b c d",
        7,
        "reraid: set rule 3 value 0\n",
    ),
    (
        "write set=5:ls:by-slot:1:0:0,1,2 -- a b c",
        7,
        "reraid: set rule 3 value 3\n",
    ),
    (
        "write set=5:ls:none:0:0:0,1,2 -- a b c",
        7,
        "reraid: set rule 4 value 0\n",
    ),
    (
        "write set=5:ls:none:3:0:0,1,2 -- a b c",
        7,
        "reraid: set rule 4 value 3\n",
    ),
    (
        "write set=5:ls:none:65536:0:0,1,2 -- a b c",
        7,
        "reraid: set rule 4 value 65536\n",
    ),
    (
        "write set=5:ls:none:4294967295:0:0,1,2 -- a b c",
        7,
        "reraid: set rule 4 value 4294967295\n",
    ),
    (
        "write set=5:ls:none:32768:0:0,1,2 -- a b c",
        7,
        "reraid: set rule 8 value 0\n",
    ),
    (
        "write set=5:ls:none:1:0:0,1,3 -- a b c",
        7,
        "reraid: set rule 5 value 3\n",
    ),
    (
        "write set=5:ls:none:1:0:23,1,3 -- a b c",
        7,
        "reraid: set rule 5 value 23\n",
    ),
    (
        "write set=5:ls:none:1:0:2,1,2 -- a b c",
        7,
        "reraid: set rule 6 value 2\n",
    ),
    (
        "write set=5:ls:none:1:0:-,1,- -- a b c",
        7,
        "reraid: set rule 7 value 2\n",
    ),
    (
        "write set=0:plain:none:1:0:0,- -- a",
        7,
        "reraid: set rule 7 value 1\n",
    ),
    (
        "write set=6:ls:after-q:1:0:0,-,-,- -- a",
        7,
        "reraid: set rule 7 value 3\n",
    ),
    (
        "write set=5:ls:none:1:1:0,1,2 -- a b c",
        7,
        "reraid: set rule 8 value 1\n",
    ),
    (
        "write set=5:ls:none:1:36028797018963967:0,1,2 -- a b c",
        7,
        "reraid: set rule 8 value 36028797018963967\n",
    ),
    (
        "write end=0 set=5:ls:none:1:0:0,1,2 -- a b c",
        7,
        "reraid: set rule 8 value 0\n",
    ),
    (
        "write end=2 set=5:ls:none:1:0:0,1,2 -- a b c",
        4,
        "reraid: images: end given 2 planned 1\n",
    ),
    (
        "rebuild set=5:ls:none:1:0:-,0,1 slot=1 -- a b",
        7,
        "reraid: set rule 9 value 1\n",
    ),
    (
        "rebuild set=5:ls:none:1:0:-,0,1 slot=3 -- a b",
        7,
        "reraid: set rule 9 value 3\n",
    ),
    (
        "rebuild set=5:ls:none:1:0:-,0,1 slot=23 -- a b",
        7,
        "reraid: set rule 9 value 23\n",
    ),
    (
        "map set=5:ls:none:1:0:0,1,2 sector=2 -- a b c",
        8,
        "reraid: sector 2 of 2\n",
    ),
    (
        "map set=5:ls:none:1:0:0,1,2 sector=18446744073709551615 -- a b c",
        8,
        "reraid: sector 18446744073709551615 of 2\n",
    ),
];

#[test]
fn sets_at_the_limits_of_their_rules(rt: HostRuntime) -> Result<(), Fail> {
    for (line, status, notes) in &SETS {
        refused(&rt, rt.alloc(), line, TWENTY_FOUR, *status, notes)?;
    }
    Ok(())
}

/// A survey of an image that is named `count` times.
fn many_names(alloc: Global, count: u64) -> Result<Vec<Word>, Memory> {
    let mut words = words_of(alloc, "survey --")?;
    for _ in 0..count {
        words.push(Word::new(alloc, "a")?).map_err(|_| Memory)?;
    }
    Ok(words)
}

/// Runs the words over as many images as there may be.
fn run_over_all<R: Threads + Sync>(
    rt: &R,
    alloc: Global,
    words: &[Word],
) -> Result<(u8, Objects), Memory> {
    let contents = images_of(alloc, TWENTY_FOUR)?;
    let mut met = ready(alloc, words, &contents, b"")?;
    let status = run_words(rt, alloc, words, &mut met);
    Ok((status, met))
}

// Of 65,537 names the first 65,536 are attached, and all are counted.
#[test]
fn names_are_very_many(rt: HostRuntime) -> Result<(), Fail> {
    let words = many_names(rt.alloc(), 65_537)?;
    let (status, met) = run_over_all(&rt, rt.alloc(), &words)?;
    let end = End {
        status: 4,
        out: b"",
        notes: b"reraid: images: count given 65537 planned 24\n",
    };
    compare(&rt, status, &met, &end, "survey -- a a ..");
    Ok(())
}
