//! Volumes and members whose sectors were worked out by hand.
use crate::rows::{Row, STRIPES, STRIPES_LOST, TORN, Written, check_all, writes_all};
use std::test::Fail;

/// Four images of five sectors.
const LONG: &[&[u8]] = &[
    &[0, 1, 2, 3, 4],
    &[0, 1, 2, 3, 4],
    &[0, 1, 2, 3, 4],
    &[0, 1, 2, 3, 4],
];

/// The sectors and their places.
const PLACES: [Row; 4] = [
    Row {
        line: "map set=5:ls:none:1:0:0,1,2 sector=2 -- a b c",
        images: STRIPES,
        plan: "",
        status: 0,
        out: "row 1 item 0 slot 2 image 2 sector 1 p 1 q -\nname left-symmetric\n",
        notes: "",
    },
    Row {
        line: "map set=6:ls:after-q:2:1:0,1,2,3 sector=5 -- a b c d",
        images: LONG,
        plan: "",
        status: 0,
        out: "row 1 item 0 slot 0 image 0 sector 4 p 2 q 3\nname left-symmetric\n",
        notes: "",
    },
    Row {
        line: "map set=6:ls:after-q:2:1:0,1,2,3 sector=8 -- a b c d",
        images: LONG,
        plan: "",
        status: 8,
        out: "",
        notes: "reraid: sector 8 of 8\n",
    },
    Row {
        line: "map set=5:ls:none:1:0:0,1,2 sector=4 -- a b c",
        images: STRIPES,
        plan: "",
        status: 8,
        out: "",
        notes: "reraid: sector 4 of 4\n",
    },
];

// Volume sector 2 of rows 0 1 P and 3 P 2 is item 0 of row 1, which stands in slot 2.
#[test]
fn a_sector_is_found_on_its_member(rt: HostRuntime) -> Result<(), Fail> {
    check_all(&rt, rt.alloc(), &PLACES)
}

/// What is written of sets with P.
const WITH_P: [Written; 3] = [
    Written {
        line: "write set=5:ls:none:1:0:0,1,2 -- a b c",
        images: STRIPES,
        out: &[1, 3, 6, 2],
    },
    Written {
        line: "write set=5:ls:none:1:0:-,0,1 -- a b",
        images: STRIPES_LOST,
        out: &[1, 3, 6, 2],
    },
    Written {
        line: "rebuild set=5:ls:none:1:0:-,0,1 slot=0 -- a b",
        images: STRIPES_LOST,
        out: &[1, 2],
    },
];

// The rows 0 1 P and 3 P 2 hold 01 03 and 06 02, also with a member lost.
#[test]
fn volumes_and_members_with_p(rt: HostRuntime) -> Result<(), Fail> {
    writes_all(&rt, rt.alloc(), &WITH_P)
}

/// What is written of sets with Q.
const WRITTEN_WITH_Q: [Written; 6] = [
    Written {
        line: "write set=6:ls:after-q:1:0:0,-,-,1 -- a b",
        images: &[&[0x1C], &[0x81]],
        out: &[0x01, 0x80],
    },
    Written {
        line: "write set=6:ls:after-q:1:0:0,-,1,- -- a b",
        images: &[&[0x1C], &[0x80]],
        out: &[0x01, 0x80],
    },
    Written {
        line: "write set=6:ls:after-q:1:0:-,-,0,1 -- a b",
        images: &[&[0x80], &[0x81]],
        out: &[0x01, 0x80],
    },
    Written {
        line: "write set=6:ls:after-q:1:0:-,0,1,- -- a b",
        images: &[&[0x01], &[0x80]],
        out: &[0x01, 0x80],
    },
    Written {
        line: "write set=6:ls:after-q:1:0:0,-,1,2 -- a b c",
        images: TORN,
        out: &[0x01, 0x80],
    },
    Written {
        line: "rebuild set=6:ls:after-q:1:0:-,0,1,2 slot=0 -- a b c",
        images: &[&[0x01], &[0x80], &[0x81]],
        out: &[0x1C],
    },
];

// With P and Q, 01 and 80 are found from any two of the four blocks, and by P where Q differs.
#[test]
fn volumes_and_members_with_q(rt: HostRuntime) -> Result<(), Fail> {
    writes_all(&rt, rt.alloc(), &WRITTEN_WITH_Q)
}
