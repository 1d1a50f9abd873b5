//! Refusals of plans, images and sets.
use crate::objects::images_of;
use crate::plans::{PLAN, TOO_MANY_SETS, TWO_LEVELS};
use crate::rows::{End, Row, STRIPES, STRIPES_LOST, TWENTY_FOUR, check, check_all, ends_so};
use outside::Memory;
use std::alloc::Global;
use std::process::Abort;
use std::test::Fail;
use std::thread::Threads;

/// The first ten sets.
const FIRST: &str = "list from=0 size=10 -- a b c";

/// One byte more than a plan may have.
const TOO_LONG: usize = 4_194_305;

const AFTER_DONE: End = End {
    status: 2,
    out: b"",
    notes: b"reraid: plan line 21 is not understood\n",
};

const LONGER: End = End {
    status: 3,
    out: b"",
    notes: b"reraid: plan is longer than 4194304 bytes\n",
};

/// The plan of the first listing, followed by bytes x up to this length.
fn plan_of(alloc: Global, length: usize) -> Result<Vec<u8>, Memory> {
    let mut plan = PLAN.as_bytes().to_vec(alloc).map_err(|_| Memory)?;
    for _ in PLAN.len()..length {
        plan.push(b'x').map_err(|_| Memory)?;
    }
    Ok(plan)
}

/// Lists over such a plan, and compares what the run leaves.
fn check_plan_of<R: Threads + Sync + Abort>(
    rt: &R,
    alloc: Global,
    length: usize,
    end: &End,
) -> Result<(), Fail> {
    let plan = plan_of(alloc, length)?;
    let contents = images_of(alloc, STRIPES)?;
    ends_so(rt, alloc, FIRST, &contents, &plan, end)
}

// A plan that is too long, and the same without its last byte.
#[test]
fn a_plan_may_be_too_long(rt: HostRuntime) -> Result<(), Fail> {
    check_plan_of(&rt, rt.alloc(), TOO_LONG, &LONGER)?;
    check_plan_of(&rt, rt.alloc(), TOO_LONG - 1, &AFTER_DONE)
}

/// A listing over too many sets.
const TOO_LARGE: Row = Row {
    line: "list -- a b c d e f g h i j k l m n o p",
    images: TWENTY_FOUR,
    plan: TOO_MANY_SETS,
    status: 5,
    out: "",
    notes: "reraid: the product has more than 18446744073709551615 sets\n",
};

// 13 patterns, 3 orders of Q, 16 chunks and 64 offsets are 39936 heads. Each has 16! lists with no
// slot empty, 16 * 16! with one, and 120 * 16! / 2 with two: 39936 * 77 * 16! is above 2^64.
#[test]
fn a_product_may_be_too_large(rt: HostRuntime) -> Result<(), Fail> {
    check(&rt, rt.alloc(), &TOO_LARGE)
}

/// The runs over other images than a plan or a command asks for.
const OTHER_IMAGES: [Row; 5] = [
    Row {
        line: "list from=0 size=10 -- a b",
        images: &[&[1, 2], &[3, 4]],
        plan: PLAN,
        status: 4,
        out: "",
        notes: "reraid: images: count given 2 planned 3\n",
    },
    Row {
        line: FIRST,
        images: &[&[1, 2], &[3, 4], &[2, 6, 0]],
        plan: TWO_LEVELS,
        status: 4,
        out: "",
        notes: "reraid: images: length 2 given 3 planned 2\n",
    },
    Row {
        line: "write set=5:ls:none:1:0:0,1,2 end=3 -- a b c",
        images: STRIPES,
        plan: "",
        status: 4,
        out: "",
        notes: "reraid: images: end given 3 planned 2\n",
    },
    Row {
        line: "map set=5:ls:none:1:0:0,1,2 sector=0 end=3 -- a b c",
        images: STRIPES,
        plan: "",
        status: 4,
        out: "",
        notes: "reraid: images: end given 3 planned 2\n",
    },
    Row {
        line: "rebuild set=5:ls:none:1:0:-,0,1 slot=0 end=3 -- a b",
        images: STRIPES_LOST,
        plan: "",
        status: 4,
        out: "",
        notes: "reraid: images: end given 3 planned 2\n",
    },
];

#[test]
fn images_are_not_those_that_are_asked_for(rt: HostRuntime) -> Result<(), Fail> {
    check_all(&rt, rt.alloc(), &OTHER_IMAGES)
}

/// The runs over sets that break a rule.
const BROKEN_SETS: [Row; 3] = [
    Row {
        line: "map set=5:ls:none:3:0:0,1,2 sector=0 -- a b c",
        images: STRIPES,
        plan: "",
        status: 7,
        out: "",
        notes: "reraid: set rule 4 value 3\n",
    },
    Row {
        line: "write set=5:ls:none:3:0:0,1,2 -- a b c",
        images: STRIPES,
        plan: "",
        status: 7,
        out: "",
        notes: "reraid: set rule 4 value 3\n",
    },
    Row {
        line: "rebuild set=5:ls:none:1:0:0,1,2 slot=0 -- a b c",
        images: STRIPES,
        plan: "",
        status: 7,
        out: "",
        notes: "reraid: set rule 9 value 0\n",
    },
];

// A chunk of three sectors is no power of two, and slot 0 holds an image.
#[test]
fn sets_break_rules(rt: HostRuntime) -> Result<(), Fail> {
    check_all(&rt, rt.alloc(), &BROKEN_SETS)
}
