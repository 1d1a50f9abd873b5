//! Lists of sets, and which of their sets give the same volume.
use crate::rows::{Row, check_all};
use std::process::Abort;
use std::test::Fail;

/// Three members in two orders, with their parity first and last; their two data members alone; and three members whose
/// parity moves.
const FOUR: &str =
    "0 5:parity-first:none:1:0:2,0,1\n1 5:parity-last:none:1:0:0,1,2\n2 0:plain:none:1:0:0,1\n3 5:ls:none:1:0:0,1,2\nnext 4 of 9\n";

/// The first two of four members lost. In rows 0 and 1 the two orders of Q say the same: in the one Q is lost too, and P tells
/// the data, and in the other both count the blocks alike. In row 2 P is lost, and Q weighs the lost block by 2 after Q, and by 1
/// by slot.
const TWO_LOST: &str = "0 6:ls:after-q:1:0:-,-,0,1\n1 6:ls:by-slot:1:0:-,-,0,1\n";

/// A run of `classes`, which touches no image.
const fn row(
    line: &'static str,
    plan: &'static str,
    status: u8,
    out: &'static str,
    notes: &'static str,
) -> Row<'static> {
    Row {
        line,
        images: &[],
        plan,
        status,
        out,
        notes,
    }
}

#[test]
fn sets_of_one_volume(rt: HostRuntime) -> Result<(), Fail> {
    let rows = [
        row(
            "classes images=3 end=2 --",
            FOUR,
            0,
            "0 5:parity-first:none:1:0:2,0,1\n0 5:parity-last:none:1:0:0,1,2\n0 0:plain:none:1:0:0,1\n1 5:ls:none:1:0:0,1,2\nclasses 2 of 4\n",
            "",
        ),
        row(
            "classes images=3 end=1 --",
            FOUR,
            0,
            "0 5:parity-first:none:1:0:2,0,1\n0 5:parity-last:none:1:0:0,1,2\n0 0:plain:none:1:0:0,1\n0 5:ls:none:1:0:0,1,2\nclasses 1 of 4\n",
            "",
        ),
        row(
            "classes end=2 images=2 --",
            TWO_LOST,
            0,
            "0 6:ls:after-q:1:0:-,-,0,1\n0 6:ls:by-slot:1:0:-,-,0,1\nclasses 1 of 2\n",
            "",
        ),
        row(
            "classes end=3 images=2 --",
            TWO_LOST,
            0,
            "0 6:ls:after-q:1:0:-,-,0,1\n1 6:ls:by-slot:1:0:-,-,0,1\nclasses 2 of 2\n",
            "",
        ),
        row("classes images=24 end=0 --", "", 0, "classes 0 of 0\n", ""),
    ];
    check_all(&rt, rt.alloc(), &rows)
}

#[test]
fn lines_that_are_refused(rt: HostRuntime) -> Result<(), Fail> {
    let rows = [
        // there is no row
        row(
            "classes images=3 end=2 --",
            "0 5:ls:none:1:2:0,1,2\n",
            13,
            "",
            "reraid: set line 1 is not understood\n",
        ),
        // an image too many, after two lines that are none of a set
        row(
            "classes images=3 end=2 --",
            "next 0 of 9\nnext 9 of 9\n0 0:plain:none:1:0:0,3\n",
            13,
            "",
            "reraid: set line 3 is not understood\n",
        ),
        // no line feed at the end
        row(
            "classes images=3 end=2 --",
            "0 0:plain:none:1:0:0,1\nnext 1 of 9",
            13,
            "",
            "reraid: set line 2 is not understood\n",
        ),
        // an empty line
        row(
            "classes images=3 end=2 --",
            "0 0:plain:none:1:0:0,1\n\n",
            13,
            "",
            "reraid: set line 2 is not understood\n",
        ),
    ];
    check_all(&rt, rt.alloc(), &rows)
}
