//! Generated arrays, and what is found of them. The totals were worked out by hand, the marks by another program.
use crate::rows::{End, ends_so};
use std::alloc::Global;
use std::process::Abort;
use std::test::Fail;
use std::thread::Threads;

/// Three members of two rows of chunks of eight sectors: 16 sectors, in which chunks of 8 and of 16 have a row.
/// So 6 patterns of level 5, 2 chunks and 6 orders pass, and below them are 7 chunks and 3 offsets more that
/// have no row: 6 * 9 * 4 * 6 are 1296.
const SMALL: &str = "sample number=7 set=5:ls:none:8:0:0,1,2 rows=2 marks=none --";

/// The same, with the marks left to their default. (With marks these words are refused, as below.)
const UNSAID: &str = "sample number=7 set=5:ls:none:8:0:0,1,2 rows=2 --";

/// Runs `sample`, over no images, and compares what it leaves.
fn check<R: Threads + Sync + Abort>(
    rt: &R,
    alloc: Global,
    line: &str,
    end: &End,
) -> Result<(), Fail> {
    ends_so(rt, alloc, line, &[], b"", end)
}

/// What is found of it.
const FOUND: End = End {
    status: 0,
    out: b"images 3\nsectors 16\nmarks 0\ntotal 1296\nfound yes\nnext 1296 of 1296\n",
    notes: b"",
};

#[test]
fn an_array_without_marks(rt: HostRuntime) -> Result<(), Fail> {
    for line in [SMALL, SMALL, UNSAID] {
        check(&rt, rt.alloc(), line, &FOUND)?;
    }
    Ok(())
}

/// Twelve members, of which the six at even places have the landmarks. The others have none, and at level 5 the
/// order of members does not change their sum: so their 720 orders pass, and no other set does.
const MARKED: &str =
    "sample number=7 set=5:ls:none:8:0:0,1,2,3,4,5,6,7,8,9,10,11 rows=200 marks=xfs --";

/// What is found of them.
const FOUND_MARKED: End = End {
    status: 0,
    out: b"images 12\nsectors 1600\nmarks 192\ntotal 103464345600\nfound yes\nnext 103464345600 of 103464345600\n",
    notes: b"",
};

#[test]
fn an_array_with_landmarks(rt: HostRuntime) -> Result<(), Fail> {
    check(&rt, rt.alloc(), MARKED, &FOUND_MARKED)
}

/// Lines that are refused by a rule of the set, and what is noted.
const REFUSED: [(&str, &str); 5] = [
    (
        "sample number=7 set=5:ls:none:8:0:0,1,2 rows=2 marks=xfs --",
        "reraid: set rule 11 value 32\n",
    ),
    (
        "sample number=7 set=5:ls:none:8:0:0,2,- rows=2 --",
        "reraid: set rule 5 value 2\n",
    ),
    // The images of a generated array have no offsets of their own, which is the last rule.
    (
        "sample number=7 set=5:ls:none:8:0+0+0:0,1,2 rows=2 --",
        "reraid: set rule 12 value 3\n",
    ),
    (
        "sample number=7 set=5:ls:none:8:0+0+0:0,1,2 rows=2 marks=xfs --",
        "reraid: set rule 11 value 32\n",
    ),
    // 3 * (699,051 + 1) sectors are 2,097,156.
    (
        "sample number=7 set=5:ls:none:1:699051:0,1,2 rows=1 marks=xfs --",
        "reraid: set rule 10 value 2097156\n",
    ),
];

/// Runs a line that is refused by a rule, and compares what it leaves.
fn refused<R: Threads + Sync + Abort>(
    rt: &R,
    alloc: Global,
    line: &str,
    noted: &str,
) -> Result<(), Fail> {
    let end = End {
        status: 7,
        out: b"",
        notes: noted.as_bytes(),
    };
    check(rt, alloc, line, &end)
}

#[test]
fn arrays_that_are_refused(rt: HostRuntime) -> Result<(), Fail> {
    for (line, noted) in REFUSED {
        refused(&rt, rt.alloc(), line, noted)?;
    }
    Ok(())
}
