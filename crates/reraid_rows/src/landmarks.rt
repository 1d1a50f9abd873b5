//! Listings and tests with landmarks.
use crate::plans::{
    NO_DISTANCE, ONE_HEADER, ONE_HEADER_OF_FOUR, TWO_HEADERS, TWO_HEADERS_OF_FOUR, XFS,
    XFS_AT_THE_START,
};
use crate::rows::{Row, STRIPES, check, check_all};
use std::test::Fail;

/// Two images of two sectors.
const TWO: &[&[u8]] = &[&[0, 0], &[0, 0]];

/// The listing over a header.
const ORDERED: Row = Row {
    line: "list -- a b",
    images: TWO,
    plan: ONE_HEADER,
    status: 0,
    out: "0 0:plain:none:1:0:0,1\nnext 4 of 4\n",
    notes: "",
};

// Chunks of one sector put the header, sector 0 of the second image, on volume sector 1 where that image is
// second, and on 0 where it is first; chunks of two sectors put it on 2 or on 0.
#[test]
fn a_header_tells_the_order_of_a_stripe(rt: HostRuntime) -> Result<(), Fail> {
    check(&rt, rt.alloc(), &ORDERED)
}

/// An image of zeros, two that are equal, and one more of zeros.
const EQUAL: &[&[u8]] = &[&[0], &[7], &[7], &[0]];

/// A test of a set that leaves out an image.
const FOREIGN: &str = "check set=5:ls:none:1:0:0,3,1 -- a b c d";

/// What it prints.
const REFUSED: &str = "rank 4\nunsound 1 of 1\ngroup 0 gpt none\nfail\n";

/// The runs over equal headers.
const ON_PARITY: [Row; 3] = [
    Row {
        line: "list -- a b c",
        images: &[&[0], &[7], &[7]],
        plan: TWO_HEADERS,
        status: 0,
        out: "0 5:ls:none:1:0:0,1,2\n1 5:ls:none:1:0:0,2,1\nnext 6 of 6\n",
        notes: "",
    },
    Row {
        line: FOREIGN,
        images: EQUAL,
        plan: TWO_HEADERS_OF_FOUR,
        status: 0,
        out: REFUSED,
        notes: "",
    },
    Row {
        line: FOREIGN,
        images: EQUAL,
        plan: ONE_HEADER_OF_FOUR,
        status: 0,
        out: REFUSED,
        notes: "",
    },
];

// In the one row of left-symmetric, P lies on slot 2. Of two equal headers one may lie on parity, where it
// says nothing, and the other has to lie on volume sector 1. In the set 0,3,1 the one lies on parity and the
// other image is in no slot, so that no mark fits.
#[test]
fn a_mark_on_parity_says_nothing(rt: HostRuntime) -> Result<(), Fail> {
    check_all(&rt, rt.alloc(), &ON_PARITY)
}

/// Four images of 640 sectors.
const LONG: &[&[u8]] = &[&[0; 640], &[0; 640], &[0; 640], &[0; 640]];

/// The runs over the landmarks of a file system.
const OVER_XFS: [Row; 4] = [
    Row {
        line: "list -- a b c d",
        images: LONG,
        plan: XFS,
        status: 0,
        out: "0 0:plain:none:8:0:0,1,2,3\nnext 48 of 48\n",
        notes: "",
    },
    Row {
        line: "check set=0:plain:none:8:0:0,1,2,3 -- a b c d",
        images: LONG,
        plan: XFS,
        status: 0,
        out: "rank 0\nunsound 0 of 640\ngroup 0 xfs origin 2048 fits 12 misfits 0\npass\n",
        notes: "",
    },
    Row {
        line: "list -- a b c d",
        images: LONG,
        plan: XFS_AT_THE_START,
        status: 0,
        out: "next 48 of 48\n",
        notes: "",
    },
    Row {
        line: "list -- a b c",
        images: STRIPES,
        plan: NO_DISTANCE,
        status: 0,
        out: "next 6 of 6\n",
        notes: "",
    },
];

// Group k of the file system begins at volume sector 2048 + 136 * k. With chunks of 8 on four members that
// is row 64 + 4 * k and the first sector of item k, which is sector 512 + 32 * k of image k.
#[test]
fn a_file_system_tells_chunk_and_order(rt: HostRuntime) -> Result<(), Fail> {
    check_all(&rt, rt.alloc(), &OVER_XFS)
}
