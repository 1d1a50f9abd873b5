//! Rows that are read and kept, over images in memory.
ghost use Rattle.std.specs.Prelude.{◌≡◌};

use crate::objects::agree;
use crate::plans::two_levels;
use row_samples::read_rows;
use std::process::Abort;
use std::test::Fail;
use test_objects::attached;

// Whether some of two rows of three images, of which each holds one byte, are kept. None where they are not read.
fn some_kept<R: Abort + AllocGlobal>(rt: &R, bytes: [u8; 3]) -> Result<Option<bool>, Fail> {
    let [a, b, c] = bytes;
    let plan = two_levels(rt.alloc());
    let mut images = attached(rt.alloc(), &[&[a, a], &[b, b], &[c, c]])?;
    assert!(rt; agree(&images, &plan));
    assert!(rt; plan.end >= 2);
    let scope = plan.scope();
    let Ok(rows) = read_rows(rt.alloc(), &mut images, &scope, 2, 0) else {
        return Ok(None);
    };
    Ok(Some(rows.count() > 0))
}

// Zeros tell nothing.
#[test]
fn kept_rows_are_not_zeros(rt: HostRuntime) -> Result<(), Fail> {
    assert_eq!(rt; some_kept(&rt, [1, 3, 2])?, Some(true));
    assert_eq!(rt; some_kept(&rt, [0, 0, 7])?, Some(true));
    assert_eq!(rt; some_kept(&rt, [0, 0, 0])?, Some(false));
    Ok(())
}
