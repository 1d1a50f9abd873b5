//! Scans of many sets over images in memory.
ghost use Rattle.std.specs.Prelude.{◌≡◌, ◌+◌, ◌≤◌, ◌<◌, ◌^◌, length, vec_len, All, IfOk, IsTrue, true};
ghost use Rattle.raid_params.specs.Validity.{is_shaped};
ghost use Rattle.parity_scan.specs.declared.many_sets.TheConstants.{MOST_SETS};

use crate::objects::three_reach;
use crate::plans::three_rows;
use crate::row_counts::three_members;
use image_source::MemImages;
use outside::Images;
use raid_params::Geometry;
use row_scan::{Gate, MOST_SETS, OpenGate, ScanFault, Verdicts, scan};
use search_plan::Plan;
use std::alloc::Global;
use std::process::Abort;
use std::test::Fail;
use std::thread::Threads;
use test_objects::{Meeting, attached};

// Sets number `first` on of three members, of which every third begins at sector 0 and the others at sector 1.
fn some_sets(alloc: Global, first: usize, count: usize) -> Result<Vec<Geometry>, Fail>
    requires { first + count ≤ MOST_SETS }
    ensures long { IfOk result (λ sets. vec_len sets ≡ count) }
    ensures near { IfOk result (λ sets. All (λ geo. geo.head.offset < 2 ^ 55) sets.items) }
{
    let mut sets = Vec::new(alloc);
    for k in first..first + count {
        sets.push(set_at(if k % 3 == 0 { 0 } else { 1 }))?;
    }
    Ok(sets)
}

// As many equal sets of three members, which begin at sector 0.
fn equal_sets(alloc: Global, count: usize) -> Result<Vec<Geometry>, Fail>
    ensures long { IfOk result (λ sets. vec_len sets ≡ count) }
    ensures near { IfOk result (λ sets. All (λ geo. geo.head.offset < 2 ^ 55) sets.items) }
{
    let mut sets = Vec::new(alloc);
    for _ in 0..count {
        sets.push(set_at(0))?;
    }
    Ok(sets)
}

// Three members from a sector on, which is near.
fn set_at(offset: u64) -> Geometry
    requires { offset ≤ 1 }
    ensures { result.head.offset < 2 ^ 55 }
{
    let mut geo = three_members(1);
    geo.head.offset = offset;
    geo
}

// Whether all sets have a sensible shape over three images.
fn are_shaped(sets: &[Geometry]) -> bool
    ensures { IsTrue result → All (λ geo. is_shaped geo 3 ≡ true) sets.now }
{
    sets.iter().all(|geo| geo.is_shaped(3))
}

// A scan over three images.
#[tactic(auto, using(crate::proofs::TestSets::all_scannable))]
fn verdicts<R: Threads + Sync + Abort, G: Gate + Sync>(
    rt: &R,
    alloc: Global,
    images: &mut MemImages,
    plan: &Plan,
    sets: &[Geometry],
    gate: &G,
) -> Result<Verdicts, ScanFault>
    requires some { 1 ≤ length sets.now }
    requires most { length sets.now ≤ MOST_SETS }
    requires near { All (λ geo. geo.head.offset < 2 ^ 55) sets.now }
    requires lengths { length plan.now.lengths.items ≡ 3 }
    requires end { plan.now.end ≡ 2 }
{
    assert!(rt; are_shaped(sets));
    assert!(rt; three_reach(images, 2));
    scan(rt, alloc, images, plan, sets, gate)
}

// Sector 0 of the images holds 1, 3 and the last one's first byte. Sector 1 is a sound row, since 2, 4 and 6 cancel
// bit by bit.
fn two_rows<R: AllocGlobal>(rt: &R, first: u8) -> Result<MemImages, Fail> {
    Ok(attached(rt.alloc(), &[&[1, 2], &[3, 4], &[first, 6]])?)
}

// 1, 3 and 7 do not cancel bit by bit, so that sector 0 is no sound row.
fn broken_first<R: AllocGlobal>(rt: &R) -> Result<MemImages, Fail> {
    two_rows(rt, 7)
}

// The verdict of a scan of set number `k` alone.
fn alone<R: Threads + Sync + Abort + AllocGlobal>(rt: &R, k: usize) -> Result<bool, Fail>
    requires { k < MOST_SETS }
{
    let plan = three_rows(rt.alloc(), 2, 2);
    let mut images = broken_first(rt)?;
    let sets = some_sets(rt.alloc(), k, 1)?;
    let found = verdicts(rt, rt.alloc(), &mut images, &plan, &sets, &OpenGate)?;
    Ok(found.as_slice().contains(&true))
}

// The verdicts of a scan of `count` sets.
fn together<R: Threads + Sync + Abort + AllocGlobal>(rt: &R, count: usize) -> Result<Verdicts, Fail>
    requires some { 1 ≤ count }
    requires most { count ≤ MOST_SETS }
{
    let plan = three_rows(rt.alloc(), 2, 2);
    let mut images = broken_first(rt)?;
    let sets = some_sets(rt.alloc(), 0, count)?;
    Ok(verdicts(rt, rt.alloc(), &mut images, &plan, &sets, &OpenGate)?)
}

// Compares the verdicts of `count` sets with those of the first three: against those that begin at sector 0.
fn compare<R: Abort>(rt: &R, found: &[bool], count: usize, one_by_one: [bool; 3]) {
    assert_eq!(rt; found.len(), count);
    assert!(rt; one_by_one == [false, true, true]);
    for k in 0..found.len() {
        assert_eq!(rt; found[k], one_by_one[k % 3]);
    }
}

// Each verdict of a scan of `count` sets is that of a scan of the set alone.
fn scan_of<R: Threads + Sync + Abort + AllocGlobal>(rt: &R, count: usize) -> Result<(), Fail>
    requires some { 1 ≤ count }
    requires most { count ≤ MOST_SETS }
{
    let found = together(rt, count)?;
    let one_by_one = [alone(rt, 0)?, alone(rt, 1)?, alone(rt, 2)?];
    compare(rt, found.as_slice(), count, one_by_one);
    Ok(())
}

#[test]
fn one_set(rt: HostRuntime) -> Result<(), Fail> {
    scan_of(&rt, 1)
}

#[test]
fn about_a_piece(rt: HostRuntime) -> Result<(), Fail> {
    scan_of(&rt, 511)?;
    scan_of(&rt, 512)?;
    scan_of(&rt, 513)
}

#[test]
fn as_many_as_may_be(rt: HostRuntime) -> Result<(), Fail> {
    scan_of(&rt, MOST_SETS)
}

// Whether a scan ends with the images' fault, where that call of theirs fails.
fn ends_at<R: Threads + Sync + Abort + AllocGlobal>(rt: &R, call: u64) -> Result<bool, Fail> {
    let plan = three_rows(rt.alloc(), 2, 2);
    let sets = some_sets(rt.alloc(), 0, 2)?;
    let mut images = broken_first(rt)?;
    images.fail_call(call)?;
    let found = verdicts(rt, rt.alloc(), &mut images, &plan, &sets, &OpenGate);
    Ok(matches!(found, Err(ScanFault::ReadFault)))
}

// Three attachments come before: the fourth call is the first reading, and the fifth the second.
#[test]
fn a_reading_fails(rt: HostRuntime) -> Result<(), Fail> {
    for call in 4..6 {
        assert!(rt; ends_at(&rt, call)?);
    }
    Ok(())
}

// A scan whose pieces pass a gate.
fn gated<R: Threads + Sync + Abort + AllocGlobal>(
    rt: &R,
    gate: &Meeting,
) -> Result<Verdicts, Fail> {
    let mut images = two_rows(rt, 2)?;
    let plan = three_rows(rt.alloc(), 2, 2);
    let sets = equal_sets(rt.alloc(), 1024)?;
    Ok(verdicts(rt, rt.alloc(), &mut images, &plan, &sets, gate)?)
}

// 1, 3 and 2 cancel bit by bit, so that all sets are tested to the end, in two pieces, each of which passes the gate once.
#[test]
fn pieces_meet(rt: HostRuntime) -> Result<(), Fail> {
    let gate = Meeting::default();
    let found = gated(&rt, &gate)?;
    assert_eq!(rt; <(u64, u64, u64, bool)>::from(&gate), (1, 1, 0, false));
    assert_eq!(rt; found.as_slice().len(), 1024);
    assert!(rt; found.as_slice().iter().all(|passes| *passes));
    Ok(())
}
