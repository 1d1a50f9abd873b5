//! Plans of images with offsets of their own and a group of marks: which sets are listed, and how they are tested.
use crate::bases::LATER;
use crate::plans::EACH_OFFSET_MARKED;
use crate::rows::{Row, check_all};
use std::test::Fail;

/// The listing, and the tests of four sets.
const ROWS: [Row; 5] = [
    Row {
        line: "list -- a b c",
        images: LATER,
        plan: EACH_OFFSET_MARKED,
        status: 0,
        out: "24 5:ls:none:1:1+0+0:0,1,2\nnext 48 of 48\n",
        notes: "",
    },
    Row {
        line: "check set=5:ls:none:1:1+0+0:0,1,2 -- a b c",
        images: LATER,
        plan: EACH_OFFSET_MARKED,
        status: 0,
        out: "rank 24\nunsound 0 of 2\ngroup 0 gpt origin 0 fits 2 misfits 0\npass\n",
        notes: "",
    },
    Row {
        line: "check set=5:ls:none:1:1+0+0:2,1,0 -- a b c",
        images: LATER,
        plan: EACH_OFFSET_MARKED,
        status: 0,
        out: "rank 29\nunsound 0 of 2\ngroup 0 gpt none\nfail\n",
        notes: "",
    },
    Row {
        line: "check set=5:ls:none:1:0+0+0:0,1,2 -- a b c",
        images: LATER,
        plan: EACH_OFFSET_MARKED,
        status: 0,
        out: "rank 0\nunsound 2 of 2\ngroup 0 gpt origin 0 fits 2 misfits 0\nfail\n",
        notes: "",
    },
    Row {
        line: "check set=5:ls:none:1:0+1+0:0,1,2 -- a b c",
        images: LATER,
        plan: EACH_OFFSET_MARKED,
        status: 0,
        out: "rank 12\nunsound 2 of 2\ngroup 0 gpt none\nfail\n",
        notes: "",
    },
];

// The marks are on the first sector of the second image, which is volume sector 1 where that image begins there and stands in the
// second slot, and on the second sector of the third, which is volume sector 2 where it begins there too and stands in the third slot.
// Of the six orders that the rows allow the first alone has both so. In the last set the first mark lies before the data and says
// nothing, and one fit is too few.
#[test]
fn marks_of_images_with_offsets_of_their_own(rt: HostRuntime) -> Result<(), Fail> {
    check_all(&rt, rt.alloc(), &ROWS)
}
