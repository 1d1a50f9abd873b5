//! Pieces of a scan that run side by side.
use crate::objects::{Objects, images_of, ready, run_gated, words_of};
use crate::plans::SIX_IMAGES;
use crate::rows::ZERO;
use outside::Memory;
use std::alloc::Global;
use std::process::Abort;
use std::test::Fail;
use std::thread::Threads;
use test_objects::Meeting;

/// Six images of one sector of zeros.
const ZEROS: &[&[u8]] = &[ZERO; 6];

/// A page of 720 sets over them, whose pieces pass the gate.
fn listed<R: Threads + Sync>(
    rt: &R,
    alloc: Global,
    gate: &Meeting,
) -> Result<(u8, Objects), Memory> {
    let words = words_of(alloc, "list size=720 -- a b c d e f")?;
    let contents = images_of(alloc, ZEROS)?;
    let mut met = ready(alloc, &words, &contents, SIX_IMAGES.as_bytes())?;
    let status = run_gated(rt, alloc, &words, &mut met, gate);
    Ok((status, met))
}

/// Compares the number of lines and the end of the page.
fn compare<R: Abort>(rt: &R, status: u8, out: &[u8]) {
    assert_eq!(rt; status, 0);
    assert_eq!(rt; out.iter().filter(|byte| **byte == b'\n').count(), 721);
    assert!(rt; out.ends_with(b"\nnext 720 of 720\n"));
}

// Zero bytes satisfy every equation: all 720 orders of six images pass, in one scan of two pieces.
#[test]
fn pieces_meet(rt: HostRuntime) -> Result<(), Fail> {
    let gate = Meeting::default();
    let (status, met) = listed(&rt, rt.alloc(), &gate)?;
    compare(&rt, status, met.out.bytes());
    assert_eq!(rt; <(u64, u64, u64, bool)>::from(&gate), (1, 1, 0, false));
    Ok(())
}
