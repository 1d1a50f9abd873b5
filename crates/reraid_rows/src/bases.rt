//! Sets with an offset for each image: what is written of them, where their sectors lie, and how they are tested.
use crate::plans::{COMMON_OFFSET, EACH_OFFSET, TOO_MANY_BASES};
use crate::rows::{Row, TWENTY_FOUR, Written, check, check_all, writes_all};
use std::test::Fail;

/// Two rows of left-symmetric over three members, which begin at sector 1 of the first image and at sector 0 of the others.
pub const LATER: &[&[u8]] = &[&[9, 1, 2], &[3, 4, 9], &[2, 6, 9]];

/// The same without the third image.
const LATER_LOST: &[&[u8]] = &[&[9, 1, 2], &[3, 4, 9]];

/// What is written of the set.
const WRITTEN: [Written; 3] = [
    Written {
        line: "write set=5:ls:none:1:1+0+0:0,1,2 -- a b c",
        images: LATER,
        out: &[1, 3, 6, 2],
    },
    Written {
        line: "write set=5:ls:none:1:1+0:0,1,- -- a b",
        images: LATER_LOST,
        out: &[1, 3, 6, 2],
    },
    Written {
        line: "rebuild set=5:ls:none:1:1+0:0,1,- slot=2 -- a b",
        images: LATER_LOST,
        out: &[2, 6],
    },
];

// The rows 0 1 P and 3 P 2 hold 01 03 and 06 02, also with a member lost, which held 01 + 03 = 02 and 02 + 04 = 06.
#[test]
fn volumes_and_members_of_padded_images(rt: HostRuntime) -> Result<(), Fail> {
    writes_all(&rt, rt.alloc(), &WRITTEN)
}

/// The sectors and their places.
const PLACES: [Row; 4] = [
    Row {
        line: "map set=5:ls:none:1:1+0+0:0,1,2 sector=0 -- a b c",
        images: LATER,
        plan: "",
        status: 0,
        out: "row 0 item 0 slot 0 image 0 sector 1 p 2 q -\nname left-symmetric\n",
        notes: "",
    },
    Row {
        line: "map set=5:ls:none:1:1+0+0:0,1,2 sector=1 -- a b c",
        images: LATER,
        plan: "",
        status: 0,
        out: "row 0 item 1 slot 1 image 1 sector 0 p 2 q -\nname left-symmetric\n",
        notes: "",
    },
    Row {
        line: "map set=5:ls:none:1:1+0:0,1,- sector=2 -- a b",
        images: LATER_LOST,
        plan: "",
        status: 0,
        out: "row 1 item 0 slot 2 image - sector 2 p 1 q -\nname left-symmetric\n",
        notes: "",
    },
    Row {
        line: "map set=5:ls:none:1:1+0+0:0,1,2 sector=4 -- a b c",
        images: LATER,
        plan: "",
        status: 8,
        out: "",
        notes: "reraid: sector 4 of 4\n",
    },
];

// A member's sector lies after its image's offset, and that of an empty slot after the greatest one.
#[test]
fn a_sector_lies_after_its_images_offset(rt: HostRuntime) -> Result<(), Fail> {
    check_all(&rt, rt.alloc(), &PLACES)
}

/// The tests of sets, over plans in which images have an offset together and each its own.
const TESTS: [Row; 4] = [
    Row {
        line: "check set=5:ls:none:1:1+0+0:0,1,2 -- a b c",
        images: LATER,
        plan: COMMON_OFFSET,
        status: 0,
        out: "rank -\nunsound 0 of 2\npass\n",
        notes: "",
    },
    Row {
        line: "check set=5:ls:none:1:1+0+0:0,1,2 -- a b c",
        images: LATER,
        plan: EACH_OFFSET,
        status: 0,
        out: "rank 24\nunsound 0 of 2\npass\n",
        notes: "",
    },
    Row {
        line: "check set=5:ls:none:1:0+0+0:0,1,2 -- a b c",
        images: LATER,
        plan: EACH_OFFSET,
        status: 0,
        out: "rank 0\nunsound 2 of 2\nfail\n",
        notes: "",
    },
    Row {
        line: "check set=5:ls:none:1:1:0,1,2 -- a b c",
        images: LATER,
        plan: EACH_OFFSET,
        status: 0,
        out: "rank -\nunsound 2 of 2\nfail\n",
        notes: "",
    },
];

// Of the eight lists of offsets 0 and 1, each with six orders, 1 0 0 is the fifth. Without padding the rows hold 09 03 02 and
// 01 04 06, and from sector 1 on 01 04 06 and 02 09 09.
#[test]
fn padded_images_are_tested(rt: HostRuntime) -> Result<(), Fail> {
    check_all(&rt, rt.alloc(), &TESTS)
}

/// The runs that are refused by a rule of the set. That on the number of offsets is the last one, and no row begins where the
/// greatest offset is the end.
const BROKEN_SETS: [Row; 5] = [
    Row {
        line: "write set=5:ls:none:1:0+0:0,1,2 -- a b c",
        images: LATER,
        plan: "",
        status: 7,
        out: "",
        notes: "reraid: set rule 12 value 2\n",
    },
    Row {
        line: "rebuild set=5:ls:none:1:0+0+0:0,1,- slot=0 -- a b",
        images: LATER_LOST,
        plan: "",
        status: 7,
        out: "",
        notes: "reraid: set rule 9 value 0\n",
    },
    Row {
        line: "rebuild set=5:ls:none:1:0+0+0:0,1,- slot=2 -- a b",
        images: LATER_LOST,
        plan: "",
        status: 7,
        out: "",
        notes: "reraid: set rule 12 value 3\n",
    },
    Row {
        line: "write set=5:ls:none:1:0+3+0:0,1,2 -- a b c",
        images: LATER,
        plan: "",
        status: 7,
        out: "",
        notes: "reraid: set rule 8 value 3\n",
    },
    Row {
        line: "check set=5:ls:none:3:0+0:0,1,2 -- a b c",
        images: LATER,
        plan: COMMON_OFFSET,
        status: 7,
        out: "",
        notes: "reraid: set rule 4 value 3\n",
    },
];

#[test]
fn offsets_are_not_those_of_the_images(rt: HostRuntime) -> Result<(), Fail> {
    check_all(&rt, rt.alloc(), &BROKEN_SETS)
}

/// A test over sixteen images, each with 64 offsets.
const TOO_LARGE: Row = Row {
    line: "check set=0:plain:none:1:0:0,1,2,3,4,5,6,7,8,9,10,11,12,13,14,15 -- a b c d e f g h i j k l m n o p",
    images: TWENTY_FOUR,
    plan: TOO_MANY_BASES,
    status: 5,
    out: "",
    notes: "reraid: the product has more than 18446744073709551615 sets\n",
};

// 64^16 lists of offsets are 2^96.
#[test]
fn offsets_of_images_may_be_too_many(rt: HostRuntime) -> Result<(), Fail> {
    check(&rt, rt.alloc(), &TOO_LARGE)
}

/// A listing of sets with an offset for each image, as JSON.
const LISTED: [Row; 1] = [Row {
    line: "list form=json from=24 size=1 -- a b c",
    images: LATER,
    plan: EACH_OFFSET,
    status: 0,
    out: "{\"chunk\":1,\"level\":5,\"name\":\"left-symmetric\",\"offset\":[1,0,0],\"pattern\":\"ls\",\"rank\":24,\"slots\":[0,1,2],\"syndrome\":\"none\"}\n{\"next\":25,\"total\":48}\n",
    notes: "",
}];

#[test]
fn offsets_of_each_image_in_json(rt: HostRuntime) -> Result<(), Fail> {
    check_all(&rt, rt.alloc(), &LISTED)
}
