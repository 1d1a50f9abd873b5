//! Searches for mirrors: with a member lost, with an image that is foreign and with torn sectors, over other images than may be, and
//! one of which nearly all has to be passed over.
use crate::rows::{Row, TWENTY_FOUR, ZERO, check_all};
use std::test::Fail;

/// Two images of three, on which copies lie in rows after each other. The second of the three is lost.
const TWO_OF_THREE: &[&[u8]] = &[&[5, 6], &[6, 7]];

/// Two pairs of equal images, and one of zeros.
const PAIRS_AND_ONE: &[&[u8]] = &[&[1, 2], &[1, 2], &[3, 4], &[3, 4], &[0, 0]];

/// Two images of which the second sectors differ.
const HALF_TORN: &[&[u8]] = &[&[5, 6], &[5, 7]];

/// The searches, and what passes.
const SEARCHES: [Row; 5] = [
    Row {
        line: "mirrors members=3 chunks=1 offsets=0 missing=1 -- a b",
        images: TWO_OF_THREE,
        plan: "",
        status: 0,
        out: "1 near2:1:0:0,-,1\nnext 6 of 6\n",
        notes: "",
    },
    Row {
        line: "mirrors members=4 chunks=1 offsets=0 foreign=1 -- a b c d e",
        images: PAIRS_AND_ONE,
        plan: "",
        status: 0,
        out: "0 near2:1:0:0,1,2,3\n2 near2:1:0:0,1,3,2\n24 near2:1:0:1,0,2,3\n26 near2:1:0:1,0,3,2\n60 near2:1:0:2,3,0,1\n62 near2:1:0:2,3,1,0\n84 near2:1:0:3,2,0,1\n86 near2:1:0:3,2,1,0\nnext 120 of 120\n",
        notes: "",
    },
    Row {
        line: "mirrors members=2 chunks=1 offsets=0 -- a b",
        images: HALF_TORN,
        plan: "",
        status: 0,
        out: "next 2 of 2\n",
        notes: "",
    },
    Row {
        line: "mirrors members=2 chunks=1 offsets=0 badrows=1 -- a b",
        images: HALF_TORN,
        plan: "",
        status: 0,
        out: "0 near2:1:0:0,1\n1 near2:1:0:1,0\nnext 2 of 2\n",
        notes: "",
    },
    Row {
        line: "mirrors members=2 chunks=1 offsets=0 window=1 -- a b",
        images: HALF_TORN,
        plan: "",
        status: 0,
        out: "0 near2:1:0:0,1\n1 near2:1:0:1,0\nnext 2 of 2\n",
        notes: "",
    },
];

// Of the six orders of two images on three slots only the first, an empty slot and the second have 06 and 06 in the one chunk both of
// whose copies are there. Of five images four make two pairs, at ranks by 24, 6, 2 and 1 for each image that is passed over.
#[test]
fn mirrors_with_losses(rt: HostRuntime) -> Result<(), Fail> {
    check_all(&rt, rt.alloc(), &SEARCHES)
}

/// The searches over other images than may be, and of too many sets.
const REFUSED: [Row; 4] = [
    Row {
        line: "mirrors chunks=1 offsets=0 --",
        images: &[],
        plan: "",
        status: 4,
        out: "",
        notes: "reraid: images: count given 0 planned 1\n",
    },
    Row {
        line: "mirrors chunks=1 offsets=0 -- a b c d e f g h i j k l m n o p q r s t u v w x y",
        images: TWENTY_FOUR,
        plan: "",
        status: 4,
        out: "",
        notes: "reraid: images: count given 25 planned 24\n",
    },
    Row {
        line: "mirrors chunks=1 offsets=0 end=2 -- a b",
        images: &[&[1, 1], ZERO],
        plan: "",
        status: 4,
        out: "",
        notes: "reraid: images: end given 2 planned 1\n",
    },
    Row {
        line: "mirrors members=24 chunks=1 offsets=0 -- a b c d e f g h i j k l m n o p q r s t u v w x",
        images: TWENTY_FOUR,
        plan: "",
        status: 5,
        out: "",
        notes: "reraid: the product has more than 18446744073709551615 sets\n",
    },
];

// The last has 24!, which is above 2^64.
#[test]
fn mirrors_that_are_refused(rt: HostRuntime) -> Result<(), Fail> {
    check_all(&rt, rt.alloc(), &REFUSED)
}

/// Twelve images of four sectors, of which the last two are equal, and no other two sectors are.
const TWELVE: &[&[u8]] = &[
    &[1, 2, 3, 4],
    &[5, 6, 7, 8],
    &[9, 10, 11, 12],
    &[13, 14, 15, 16],
    &[17, 18, 19, 20],
    &[21, 22, 23, 24],
    &[25, 26, 27, 28],
    &[29, 30, 31, 32],
    &[33, 34, 35, 36],
    &[37, 38, 39, 40],
    &[41, 42, 43, 44],
    &[41, 42, 43, 44],
];

/// Pages of the search over these of every number of members, chunk and offset.
const EVERY_HEAD: [Row; 3] = [
    Row {
        line: "mirrors members=2,3,4,5,6,7,8,9,10,11,12,13,14,15,16,17,18,19,20,21,22,23,24 chunks=1,2,4,8,16,32,64,128,256,512,1024,2048,4096,8192,16384,32768 offsets=0,1,2,3,4,5,6,7,8,9,10,11,12,13,14,15,16,17,18,19,20,21,22,23,24,25,26,27,28,29,30,31,32,33,34,35,36,37,38,39,40,41,42,43,44,45,46,47,48,49,50,51,52,53,54,55,56,57,58,59,60,61,62,63 foreign=10 size=3 -- a b c d e f g h i j k l",
        images: TWELVE,
        plan: "",
        status: 0,
        out: "120 near2:1:0:10,11\n131 near2:1:0:11,10\n252 near2:1:1:10,11\nnext 253 of 1333310803968\n",
        notes: "",
    },
    Row {
        line: "mirrors members=2,3,4,5,6,7,8,9,10,11,12,13,14,15,16,17,18,19,20,21,22,23,24 chunks=1,2,4,8,16,32,64,128,256,512,1024,2048,4096,8192,16384,32768 offsets=0,1,2,3,4,5,6,7,8,9,10,11,12,13,14,15,16,17,18,19,20,21,22,23,24,25,26,27,28,29,30,31,32,33,34,35,36,37,38,39,40,41,42,43,44,45,46,47,48,49,50,51,52,53,54,55,56,57,58,59,60,61,62,63 foreign=10 from=135168 size=1 -- a b c d e f g h i j k l",
        images: TWELVE,
        plan: "",
        status: 0,
        out: "140328 near2:1:3:10,11,0\nnext 140329 of 1333310803968\n",
        notes: "",
    },
    Row {
        line: "mirrors members=2,3,4,5,6,7,8,9,10,11,12,13,14,15,16,17,18,19,20,21,22,23,24 chunks=1,2,4,8,16,32,64,128,256,512,1024,2048,4096,8192,16384,32768 offsets=0,1,2,3,4,5,6,7,8,9,10,11,12,13,14,15,16,17,18,19,20,21,22,23,24,25,26,27,28,29,30,31,32,33,34,35,36,37,38,39,40,41,42,43,44,45,46,47,48,49,50,51,52,53,54,55,56,57,58,59,60,61,62,63 foreign=10 from=1486848 -- a b c d e f g h i j k l",
        images: TWELVE,
        plan: "",
        status: 0,
        out: "next 1333310803968 of 1333310803968\n",
        notes: "",
    },
];

// Of 1024 heads for each number of members, those with two members have 132 orders each and those with three 1320. The two equal images
// make a mirror of two members; and one of three where there is one row, as from sector 3 on, so that of the third nothing is tested.
// Where there are more members two other images differ, which is seen in the first places of an order. No order after that is looked
// at: of the 1333310803968 in all a run would not come to an end.
#[test]
fn most_mirrors_are_passed_over(rt: HostRuntime) -> Result<(), Fail> {
    check_all(&rt, rt.alloc(), &EVERY_HEAD)
}
