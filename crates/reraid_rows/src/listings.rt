//! Listings whose answers were worked out by hand.
use crate::plans::{LISTING, ONE_FOREIGN, ONE_LOST, PLAN, PLAN_WITH_A_BAD_ROW, TWO_LEVELS};
use crate::rows::{Row, STRIPES, check, check_all};
use std::test::Fail;

/// The first listing as JSON.
const OBJECTS: &str =
    "{\"chunk\":1,\"level\":5,\"name\":\"left-symmetric\",\"offset\":0,\"pattern\":\"ls\",\"rank\":0,\"slots\":[0,1,2],\"syndrome\":\"none\"}\n{\"chunk\":1,\"level\":5,\"name\":\"left-symmetric\",\"offset\":0,\"pattern\":\"ls\",\"rank\":1,\"slots\":[0,2,1],\"syndrome\":\"none\"}\n{\"chunk\":1,\"level\":5,\"name\":\"left-symmetric\",\"offset\":0,\"pattern\":\"ls\",\"rank\":2,\"slots\":[1,0,2],\"syndrome\":\"none\"}\n{\"chunk\":1,\"level\":5,\"name\":\"left-symmetric\",\"offset\":0,\"pattern\":\"ls\",\"rank\":3,\"slots\":[1,2,0],\"syndrome\":\"none\"}\n{\"chunk\":1,\"level\":5,\"name\":\"left-symmetric\",\"offset\":0,\"pattern\":\"ls\",\"rank\":4,\"slots\":[2,0,1],\"syndrome\":\"none\"}\n{\"chunk\":1,\"level\":5,\"name\":\"left-symmetric\",\"offset\":0,\"pattern\":\"ls\",\"rank\":5,\"slots\":[2,1,0],\"syndrome\":\"none\"}\n{\"next\":6,\"total\":6}\n";

/// `STRIPES` with the last byte changed.
const STRIPES_BROKEN: &[&[u8]] = &[&[1, 2], &[3, 4], &[2, 7]];

/// The listings, of images that pass and of others.
const FILTERED: [Row; 7] = [
    Row {
        line: "list from=0 size=10 span=18446744073709551615 -- a b c",
        images: STRIPES,
        plan: PLAN,
        status: 0,
        out: LISTING,
        notes: "",
    },
    Row {
        line: "list from=0 size=10 span=18446744073709551615 -- a b c",
        images: STRIPES_BROKEN,
        plan: PLAN,
        status: 0,
        out: "next 6 of 6\n",
        notes: "",
    },
    Row {
        line: "list from=0 size=2 span=18446744073709551615 -- a b c",
        images: STRIPES,
        plan: PLAN,
        status: 0,
        out: "0 5:ls:none:1:0:0,1,2\n1 5:ls:none:1:0:0,2,1\nnext 2 of 6\n",
        notes: "",
    },
    Row {
        line: "list from=2 size=4 span=18446744073709551615 -- a b c",
        images: STRIPES,
        plan: PLAN,
        status: 0,
        out: "2 5:ls:none:1:0:1,0,2\n3 5:ls:none:1:0:1,2,0\n4 5:ls:none:1:0:2,0,1\n5 5:ls:none:1:0:2,1,0\nnext 6 of 6\n",
        notes: "",
    },
    Row {
        line: "list from=6 size=4 span=18446744073709551615 -- a b c",
        images: STRIPES,
        plan: PLAN,
        status: 0,
        out: "next 6 of 6\n",
        notes: "",
    },
    Row {
        line: "list from=7 size=4 span=18446744073709551615 -- a b c",
        images: STRIPES,
        plan: PLAN,
        status: 6,
        out: "",
        notes: "reraid: cursor 7 is past 6\n",
    },
    // with one bad row allowed the images of the second listing pass
    Row {
        line: "list from=0 size=10 span=18446744073709551615 -- a b c",
        images: STRIPES_BROKEN,
        plan: PLAN_WITH_A_BAD_ROW,
        status: 0,
        out: LISTING,
        notes: "",
    },
];

// 1 + 3 + 2 and 2 + 4 + 6 cancel bit by bit, and so does every order of them; 2, 4 and 7 do not.
#[test]
fn listings_go_on_to_the_whole_filter(rt: HostRuntime) -> Result<(), Fail> {
    check_all(&rt, rt.alloc(), &FILTERED)
}

/// Images of which the first begins a sector later than the others.
const FIRST_LATER: Row = Row {
    line: "list from=0 size=10 span=18446744073709551615 -- a b c",
    images: &[&[9, 1, 2], &[3, 4, 9], &[2, 6, 9]],
    plan: "reraid-plan 2\nimages 3\nlength 3\nlength 3\nlength 3\nend 3\nlevels 5\nmembers 3\npatterns ls\nsyndromes none\nchunks 1\noffsets 0,1\norigins 0\nmissing 0\nforeign 0\nbadrows 0\nwindow 2\nmisfits 0\nleast 1\ndone\n",
    status: 0,
    out: "24 5:ls:none:1:1+0+0:0,1,2\n25 5:ls:none:1:1+0+0:0,2,1\n26 5:ls:none:1:1+0+0:1,0,2\n27 5:ls:none:1:1+0+0:1,2,0\n28 5:ls:none:1:1+0+0:2,0,1\n29 5:ls:none:1:1+0+0:2,1,0\nnext 48 of 48\n",
    notes: "",
};

// From sector 1 of the first image and 0 of the others on, 1 + 3 + 2 and 2 + 4 + 6 cancel bit by bit; from other sectors on
// no two rows do. Of the eight lists of offsets, 1, 0, 0 is the fifth, and there are six slot lists for each.
#[test]
fn images_with_an_offset_each(rt: HostRuntime) -> Result<(), Fail> {
    check(&rt, rt.alloc(), &FIRST_LATER)
}

/// The listings of several pages, and as JSON.
const PAGES: [Row; 4] = [
    Row {
        line: "list size=4 pages=2 -- a b c",
        images: STRIPES,
        plan: PLAN,
        status: 0,
        out: "0 5:ls:none:1:0:0,1,2\n1 5:ls:none:1:0:0,2,1\n2 5:ls:none:1:0:1,0,2\n3 5:ls:none:1:0:1,2,0\nnext 4 of 6\n4 5:ls:none:1:0:2,0,1\n5 5:ls:none:1:0:2,1,0\nnext 6 of 6\n",
        notes: "",
    },
    Row {
        line: "list size=6 pages=5 -- a b c",
        images: STRIPES,
        plan: PLAN,
        status: 0,
        out: LISTING,
        notes: "",
    },
    Row {
        line: "list from=6 pages=5 -- a b c",
        images: STRIPES,
        plan: PLAN,
        status: 0,
        out: "next 6 of 6\n",
        notes: "",
    },
    Row {
        line: "list size=10 form=json -- a b c",
        images: STRIPES,
        plan: PLAN,
        status: 0,
        out: OBJECTS,
        notes: "",
    },
];

// Pages of four lines, one after the other; a page that goes on at the total is the last. The same as JSON.
#[test]
fn pages_and_objects(rt: HostRuntime) -> Result<(), Fail> {
    check_all(&rt, rt.alloc(), &PAGES)
}

/// The listings over other numbers of members than images.
const OTHER_MEMBERS: [Row; 4] = [
    Row {
        line: "list from=0 size=10 -- a b",
        images: &[&[1, 2], &[3, 4]],
        plan: ONE_LOST,
        status: 0,
        out: "0 5:ls:none:1:0:0,1,-\n1 5:ls:none:1:0:0,-,1\n2 5:ls:none:1:0:1,0,-\n3 5:ls:none:1:0:1,-,0\n4 5:ls:none:1:0:-,0,1\n5 5:ls:none:1:0:-,1,0\nnext 6 of 6\n",
        notes: "",
    },
    Row {
        line: "list from=0 size=10 -- a b c d",
        images: &[&[1, 2], &[3, 4], &[2, 6], &[0, 0]],
        plan: ONE_FOREIGN,
        status: 0,
        out: "0 5:ls:none:1:0:0,1,2\n2 5:ls:none:1:0:0,2,1\n6 5:ls:none:1:0:1,0,2\n8 5:ls:none:1:0:1,2,0\n12 5:ls:none:1:0:2,0,1\n14 5:ls:none:1:0:2,1,0\nnext 24 of 24\n",
        notes: "",
    },
    Row {
        line: "list from=12 size=1 -- a b c",
        images: STRIPES,
        plan: TWO_LEVELS,
        status: 0,
        out: "12 5:ls:none:1:0:0,1,2\nnext 13 of 18\n",
        notes: "",
    },
    Row {
        line: "list from=0 size=1 -- a b c",
        images: STRIPES,
        plan: TWO_LEVELS,
        status: 0,
        out: "0 0:plain:none:1:0:0,1\nnext 1 of 18\n",
        notes: "",
    },
];

// With one member lost level 5 tests nothing, so all six orders pass. Of four images one is in no
// slot, and the six orders of the others pass. Levels 0 and 5 over two or three members of three
// images: six pairs, and six orders at each level.
#[test]
fn listings_over_missing_and_foreign_members(rt: HostRuntime) -> Result<(), Fail> {
    check_all(&rt, rt.alloc(), &OTHER_MEMBERS)
}
