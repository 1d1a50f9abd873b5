//! Listings and tests of sets with Q.
use crate::plans::{LEVEL_SIX, LEVEL_SIX_LOST, SIX_MEMBERS};
use crate::rows::{DOUBLE, Row, TORN, check, check_all};
use std::test::Fail;

/// The runs over sets with Q.
const WITH_Q: [Row; 4] = [
    Row {
        line: "list from=0 size=100 -- a b c d",
        images: DOUBLE,
        plan: LEVEL_SIX,
        status: 0,
        out: "0 6:ls:after-q:1:0:0,1,2,3\n24 6:ls:by-data:1:0:0,1,2,3\nnext 72 of 72\n",
        notes: "",
    },
    Row {
        line: "check set=6:ls:after-q:1:0:0,1,2,3 -- a b c d",
        images: DOUBLE,
        plan: LEVEL_SIX,
        status: 0,
        out: "rank 0\nunsound 0 of 1\npass\n",
        notes: "",
    },
    Row {
        line: "check set=6:ls:by-slot:1:0:0,1,2,3 -- a b c d",
        images: DOUBLE,
        plan: LEVEL_SIX,
        status: 0,
        out: "rank 48\nunsound 1 of 1\nfail\n",
        notes: "",
    },
    Row {
        line: "check set=6:ls:after-q:1:0:0,-,1,2 -- a b c",
        images: TORN,
        plan: LEVEL_SIX_LOST,
        status: 0,
        out: "rank 4\nunsound 1 of 1\nfail\n",
        notes: "",
    },
];

// After Q and by data the two data blocks of the row have exponents 0 and 1; by slot they have 1
// and 2, and Q would be 38.
#[test]
fn listings_and_tests_with_q(rt: HostRuntime) -> Result<(), Fail> {
    check_all(&rt, rt.alloc(), &WITH_Q)
}

// Six rows of left-asymmetric, level 6, over six members: in row r P is in slot 5 - r and Q in the
// next slot round, and the others hold the items in their order. Item i of row r is 23 r + 7 i + 1.
// In Python, where `slots` are those of the items, and an exponent is a slot's place on the walk
// from the slot after Q, the item's number, or the slot's number:
//
//     P = Q = 0
//     for i, slot in enumerate(slots):
//         D = 23 * r + 7 * i + 1
//         P ^= D
//         for _ in range(exponent(i, slot)):
//             D = D << 1 ^ (0x11D if D & 0x80 else 0)
//         Q ^= D
//
// The exponents of the items in rows 0 to 5:
//
//     after-q  0 1 2 3   0 1 2 3   1 2 3 0   2 3 0 1   3 0 1 2   0 1 2 3
//     by-data  0 1 2 3   0 1 2 3   0 1 2 3   0 1 2 3   0 1 2 3   0 1 2 3
//     by-slot  1 2 3 4   0 1 2 3   0 1 2 5   0 1 4 5   0 3 4 5   2 3 4 5

/// Q as md weighs it.
const AFTER_Q: &[&[u8]] = &[
    &[0x9D, 0x18, 0x2F, 0x46, 0x5D, 0x04],
    &[0x01, 0x1F, 0x36, 0x4D, 0x20, 0x8C],
    &[0x08, 0x26, 0x3D, 0x04, 0xB5, 0x74],
    &[0x0F, 0x2D, 0x60, 0xB5, 0x64, 0x7B],
    &[0x16, 0x0C, 0x37, 0x54, 0x6B, 0x82],
    &[0x10, 0xCB, 0x44, 0x5B, 0x72, 0x89],
];

/// The same data, with Q weighed by the items' numbers.
const BY_DATA: &[&[u8]] = &[
    &[0x9D, 0x18, 0x2F, 0x46, 0x5D, 0x04],
    &[0x01, 0x1F, 0x36, 0x4D, 0x20, 0x8C],
    &[0x08, 0x26, 0x3D, 0x04, 0x93, 0x74],
    &[0x0F, 0x2D, 0x60, 0x73, 0x64, 0x7B],
    &[0x16, 0x0C, 0xAD, 0x54, 0x6B, 0x82],
    &[0x10, 0xCB, 0x44, 0x5B, 0x72, 0x89],
];

/// The same data, with Q weighed by the slots' numbers.
const BY_SLOT: &[&[u8]] = &[
    &[0x27, 0x18, 0x2F, 0x46, 0x5D, 0x04],
    &[0x01, 0x1F, 0x36, 0x4D, 0x20, 0x0A],
    &[0x08, 0x26, 0x3D, 0x04, 0x42, 0x74],
    &[0x0F, 0x2D, 0x60, 0x5A, 0x64, 0x7B],
    &[0x16, 0x0C, 0xDF, 0x54, 0x6B, 0x82],
    &[0x10, 0xCB, 0x44, 0x5B, 0x72, 0x89],
];

/// A test of a set: the images, the line, and what it prints.
#[derive(Clone, Copy)]
struct Tested {
    images: &'static [&'static [u8]],
    line: &'static str,
    out: &'static str,
}

/// Each order of Q over images of each.
const TESTED: [Tested; 9] = [
    Tested {
        images: AFTER_Q,
        line: "check set=6:la:after-q:1:0:0,1,2,3,4,5 -- a b c d e f",
        out: "rank 1440\nunsound 0 of 6\npass\n",
    },
    Tested {
        images: AFTER_Q,
        line: "check set=6:la:by-data:1:0:0,1,2,3,4,5 -- a b c d e f",
        out: "rank 2160\nunsound 3 of 6\nfail\n",
    },
    Tested {
        images: AFTER_Q,
        line: "check set=6:la:by-slot:1:0:0,1,2,3,4,5 -- a b c d e f",
        out: "rank 2880\nunsound 5 of 6\nfail\n",
    },
    Tested {
        images: BY_DATA,
        line: "check set=6:la:after-q:1:0:0,1,2,3,4,5 -- a b c d e f",
        out: "rank 1440\nunsound 3 of 6\nfail\n",
    },
    Tested {
        images: BY_DATA,
        line: "check set=6:la:by-data:1:0:0,1,2,3,4,5 -- a b c d e f",
        out: "rank 2160\nunsound 0 of 6\npass\n",
    },
    Tested {
        images: BY_DATA,
        line: "check set=6:la:by-slot:1:0:0,1,2,3,4,5 -- a b c d e f",
        out: "rank 2880\nunsound 5 of 6\nfail\n",
    },
    Tested {
        images: BY_SLOT,
        line: "check set=6:la:after-q:1:0:0,1,2,3,4,5 -- a b c d e f",
        out: "rank 1440\nunsound 5 of 6\nfail\n",
    },
    Tested {
        images: BY_SLOT,
        line: "check set=6:la:by-data:1:0:0,1,2,3,4,5 -- a b c d e f",
        out: "rank 2160\nunsound 5 of 6\nfail\n",
    },
    Tested {
        images: BY_SLOT,
        line: "check set=6:la:by-slot:1:0:0,1,2,3,4,5 -- a b c d e f",
        out: "rank 2880\nunsound 0 of 6\npass\n",
    },
];

// The plan has 720 lists of slots for each of two patterns at level 5, and for la with each order
// of Q at level 6. Two orders agree just in the rows in which they weigh the items alike.
#[test]
fn the_orders_of_q_differ(rt: HostRuntime) -> Result<(), Fail> {
    for tested in &TESTED {
        let row = Row {
            line: tested.line,
            images: tested.images,
            plan: SIX_MEMBERS,
            status: 0,
            out: tested.out,
            notes: "",
        };
        check(&rt, rt.alloc(), &row)?;
    }
    Ok(())
}
