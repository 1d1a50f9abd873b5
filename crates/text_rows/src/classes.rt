//! Which sets of a list give the same volume, found by hand.
use std::alloc::Global;
use std::process::Abort;
use std::test::Fail;
use value_text::read_common_set;
use volume_classes::{ClassFault, classes, same_volume};

/// Four sets over three images. The first two have their parity on image 2, the third has none, and all three read images 0
/// and 1 row by row. The fourth does so in the first row alone.
const FOUR: &[u8] =
    b"0 5:parity-first:none:1:0:2,0,1\n1 5:parity-last:none:1:0:0,1,2\n2 0:plain:none:1:0:0,1\n3 5:ls:none:1:0:0,1,2\nnext 4 of 9\n";

/// Their classes over two rows.
const OVER_TWO_ROWS: &[u8] =
    b"0 5:parity-first:none:1:0:2,0,1\n0 5:parity-last:none:1:0:0,1,2\n0 0:plain:none:1:0:0,1\n1 5:ls:none:1:0:0,1,2\nclasses 2 of 4\n";

/// Their classes over one row.
const OVER_ONE_ROW: &[u8] =
    b"0 5:parity-first:none:1:0:2,0,1\n0 5:parity-last:none:1:0:0,1,2\n0 0:plain:none:1:0:0,1\n0 5:ls:none:1:0:0,1,2\nclasses 1 of 4\n";

/// Two lost members and two orders of Q, by which the first two rows are the same and the third is not.
const TWO_ORDERS: &[u8] = b"5 6:ls:after-q:1:0:-,-,0,1\n7 6:ls:by-slot:1:0:-,-,0,1\n";

/// Their classes over two rows.
const ONE_CLASS: &[u8] =
    b"0 6:ls:after-q:1:0:-,-,0,1\n0 6:ls:by-slot:1:0:-,-,0,1\nclasses 1 of 2\n";

/// Their classes over three rows.
const TWO_CLASSES: &[u8] =
    b"0 6:ls:after-q:1:0:-,-,0,1\n1 6:ls:by-slot:1:0:-,-,0,1\nclasses 2 of 2\n";

/// Two delays: parity moves on before the third row, or before the fourth. The third set keeps it for as many rows as the first.
const TWO_DELAYS: &[u8] =
    b"0 5:la*2:none:1:0:0,1,2\n1 5:la*3:none:1:0:0,1,2\n2 5:la*2:none:1:0:0,1,2\n";

/// Their classes over two rows.
const ALIKE_SO_FAR: &[u8] =
    b"0 5:la*2:none:1:0:0,1,2\n0 5:la*3:none:1:0:0,1,2\n0 5:la*2:none:1:0:0,1,2\nclasses 1 of 3\n";

/// Their classes over three rows, and over more.
const ALIKE_NO_MORE: &[u8] =
    b"0 5:la*2:none:1:0:0,1,2\n1 5:la*3:none:1:0:0,1,2\n0 5:la*2:none:1:0:0,1,2\nclasses 2 of 3\n";

/// Compares the answer for a list.
fn compare<R: Abort>(
    rt: &R,
    alloc: Global,
    list: &[u8],
    images: u8,
    end: u64,
    answer: &[u8],
) -> Result<(), Fail> {
    let text = classes(alloc, list, images, end)
        .ok()
        .ok_or("a list of sets")?;
    assert_eq!(rt; text.as_slice(), answer);
    Ok(())
}

#[test]
fn sets_are_put_into_classes(rt: HostRuntime) -> Result<(), Fail> {
    compare(&rt, rt.alloc(), FOUR, 3, 2, OVER_TWO_ROWS)?;
    compare(&rt, rt.alloc(), FOUR, 3, 1, OVER_ONE_ROW)?;
    compare(&rt, rt.alloc(), b"", 3, 2, b"classes 0 of 0\n")
}

#[test]
fn the_third_row_tells_two_orders_of_q_apart(rt: HostRuntime) -> Result<(), Fail> {
    compare(&rt, rt.alloc(), TWO_ORDERS, 2, 2, ONE_CLASS)?;
    compare(&rt, rt.alloc(), TWO_ORDERS, 2, 3, TWO_CLASSES)
}

#[test]
fn two_delays_are_alike_until_one_moves_parity(rt: HostRuntime) -> Result<(), Fail> {
    compare(&rt, rt.alloc(), TWO_DELAYS, 3, 2, ALIKE_SO_FAR)?;
    compare(&rt, rt.alloc(), TWO_DELAYS, 3, 3, ALIKE_NO_MORE)?;
    compare(&rt, rt.alloc(), TWO_DELAYS, 3, 1_000_000, ALIKE_NO_MORE)
}

#[test]
fn a_set_with_bases_is_refused(rt: HostRuntime) {
    let list = b"0 5:ls:none:1:0:0,1,2\n1 5:ls:none:1:0+0+0:0,1,2\n";
    let fault = classes(rt.alloc(), list, 3, 2).err();
    assert_eq!(rt; fault, Some(ClassFault::Line(2)));
}

#[test]
fn a_set_without_a_row_is_refused(rt: HostRuntime) {
    let fault = classes(rt.alloc(), b"0 5:ls:none:1:2:0,1,2\n", 3, 2).err();
    assert_eq!(rt; fault, Some(ClassFault::Line(1)));
}

#[test]
fn the_third_row_tells_two_sets_apart(rt: HostRuntime) -> Result<(), Fail> {
    let one = read_common_set(b"6:ls:after-q:1:0:-,-,0,1").ok_or("a set")?;
    let other = read_common_set(b"6:ls:by-slot:1:0:-,-,0,1").ok_or("a set")?;
    assert!(rt; one.validate(2, 2).is_ok() && other.validate(2, 2).is_ok());
    assert!(rt; same_volume(&one, &other, 2, 2));
    assert!(rt; one.validate(2, 3).is_ok() && other.validate(2, 3).is_ok());
    assert!(rt; !same_volume(&one, &other, 2, 3));
    Ok(())
}
