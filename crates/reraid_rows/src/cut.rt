//! Plans whose end is missing.
use crate::objects::images_of;
use crate::plans::PLAN;
use crate::rows::{End, STRIPES, ends_so, run, same_status};
use std::alloc::Global;
use std::process::Abort;
use std::test::Fail;
use std::thread::Threads;

/// Lists over a front of the plan, which is refused at this line of it.
fn refused<R: Threads + Sync + Abort>(
    rt: &R,
    alloc: Global,
    contents: &[Vec<u8>],
    front: &[u8],
    line: u64,
) -> Result<(), Fail> {
    let noted = format!(in alloc; "reraid: plan line {line} is not understood\n")?;
    let end = End {
        status: 2,
        out: b"",
        notes: noted.as_bytes(),
    };
    ends_so(rt, alloc, "list -- a b c", contents, front, &end)
}

// Each proper prefix of the plan is refused at the line that follows its last line feed.
#[test]
fn each_front_of_a_plan_is_refused(rt: HostRuntime) -> Result<(), Fail> {
    let alloc = rt.alloc();
    let contents = images_of(alloc, STRIPES)?;
    let plan = PLAN.as_bytes();
    let mut line = 1u64;
    for (place, byte) in plan.iter().enumerate() {
        refused(&rt, alloc, &contents, &plan[..place], line)?;
        if *byte == b'\n' {
            line = line.saturating_add(1);
        }
    }
    Ok(())
}

// The whole plan is not refused.
#[test]
fn the_whole_plan_is_read(rt: HostRuntime) -> Result<(), Fail> {
    let alloc = rt.alloc();
    let contents = images_of(alloc, STRIPES)?;
    let (status, _) = run(&rt, alloc, "list -- a b c", &contents, PLAN.as_bytes())?;
    same_status(&rt, status, 0, "list -- a b c");
    Ok(())
}
