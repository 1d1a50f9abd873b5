//! Mirrors of two copies that lie beside each other: which pass, and what is written of them.
use crate::rows::{Row, Written, check_all, writes_all};
use std::test::Fail;

/// Two pairs of equal members.
const PAIRS: &[&[u8]] = &[&[1, 2], &[1, 2], &[3, 4], &[3, 4]];

/// Three members, on which copies lie in rows after each other.
const ODD: &[&[u8]] = &[&[5, 6], &[5, 7], &[6, 7]];

/// Pages and refusals.
const ROWS: [Row; 4] = [
    Row {
        line: "mirrors chunks=1 offsets=0 -- a b c d",
        images: PAIRS,
        plan: "",
        status: 0,
        out: "0 near2:1:0:0,1,2,3\n1 near2:1:0:0,1,3,2\n6 near2:1:0:1,0,2,3\n7 near2:1:0:1,0,3,2\n16 near2:1:0:2,3,0,1\n17 near2:1:0:2,3,1,0\n22 near2:1:0:3,2,0,1\n23 near2:1:0:3,2,1,0\nnext 24 of 24\n",
        notes: "",
    },
    Row {
        line: "mirrors chunks=1 offsets=0 -- a b c",
        images: ODD,
        plan: "",
        status: 0,
        out: "0 near2:1:0:0,1,2\nnext 6 of 6\n",
        notes: "",
    },
    Row {
        line: "mirrors chunks=1 offsets=0 from=7 -- a b c",
        images: ODD,
        plan: "",
        status: 6,
        out: "",
        notes: "reraid: cursor 7 is past 6\n",
    },
    Row {
        line: "mirrorwrite set=near2:1:0:0,-,- -- a",
        images: &[&[5, 6]],
        plan: "",
        status: 7,
        out: "",
        notes: "reraid: set rule 25 value 2\n",
    },
];

#[test]
fn mirrors_pass_by_their_copies(rt: HostRuntime) -> Result<(), Fail> {
    check_all(&rt, rt.alloc(), &ROWS)
}

/// What is written.
const WRITTEN: [Written; 2] = [
    Written {
        line: "mirrorwrite set=near2:1:0:0,1,2,3 -- a b c d",
        images: PAIRS,
        out: &[1, 3, 2, 4],
    },
    Written {
        line: "mirrorwrite set=near2:1:0:0,-,1 -- a b",
        images: &[&[5, 6], &[6, 7]],
        out: &[5, 6, 7],
    },
];

#[test]
fn volumes_of_mirrors(rt: HostRuntime) -> Result<(), Fail> {
    writes_all(&rt, rt.alloc(), &WRITTEN)
}
