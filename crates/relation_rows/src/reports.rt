//! Two rows, and what is said of them.
use crate::sectors::{A, AB, B, C, CD, D, E, NONE, P, Q, SEVEN, Terms, row_of};
use image_source::MemSink;
use relation_lines::{Report, Style};
use row_relations::RowTable;
use std::alloc::Global;
use std::process::Abort;
use std::test::Fail;

/// Puts the report of two rows, at sectors 8 and 16, and tells whether each put succeeded.
fn is_put<R: Abort>(
    rt: &R,
    alloc: Global,
    style: Style,
    first: &[Terms],
    second: &[Terms],
    sink: &mut MemSink,
) -> Result<bool, Fail> {
    let images = first.len();
    assert!(rt; images <= 64);
    let row = row_of(alloc, first)?;
    let next = row_of(alloc, second)?;
    assert!(rt; row.len() == 512 * images && next.len() == 512 * images);
    let mut report = Report::new(alloc, style, images, 2)?;
    let mut table = RowTable::new(alloc, images)?;
    table.fill(&row);
    if report.add(sink, 8, &mut table).is_err() {
        return Ok(false);
    }
    table.fill(&next);
    if report.add(sink, 16, &mut table).is_err() {
        return Ok(false);
    }
    Ok(report.finish(sink).is_ok())
}

/// Looks whether the report of two rows is this.
fn says<R: Abort>(
    rt: &R,
    alloc: Global,
    style: Style,
    first: &[Terms],
    second: &[Terms],
    wanted: &str,
) -> Result<(), Fail> {
    let mut sink = MemSink::new(alloc, 8192)?;
    assert!(rt; is_put(rt, alloc, style, first, second, &mut sink)?);
    assert!(rt; sink.bytes() == wanted.as_bytes());
    Ok(())
}

#[test]
fn two_equal_images(rt: HostRuntime) -> Result<(), Fail> {
    let text = "rows 8 16 zero - tied 1=1*0\ntogether 0,1 in 2 rows\nalone -\nfree 0 of 2\n";
    says(&rt, rt.alloc(), Style::Text, &[A, A], &[B, B], text)
}

#[test]
fn three_images_of_raid_5(rt: HostRuntime) -> Result<(), Fail> {
    let text = "rows 8 16 zero - tied 2=1*0+1*1\ntogether 0,1,2 in 2 rows\nalone -\nfree 0 of 2\n";
    says(&rt, rt.alloc(), Style::Text, &[A, B, AB], &[AB, A, B], text)
}

// Of six data blocks the last is lost: Q + 32 P holds 1 + 32, 2 + 32, 4 + 32, 8 + 32 and 16 + 32 times the others. In the second row
// all are zeros.
#[test]
fn seven_of_eight_of_raid_6(rt: HostRuntime) -> Result<(), Fail> {
    let text =
        "rows 8 8 zero - tied 6=33*0+34*1+36*2+40*3+48*4+32*5\nrows 16 16 zero 0,1,2,3,4,5,6 tied -\ntogether 0,1,2,3,4,5,6 in 1 rows\nalone -\nfree 1 of 2\n";
    says(
        &rt,
        rt.alloc(),
        Style::Text,
        &[A, B, C, D, E, P, Q],
        &[NONE; 7],
        text,
    )
}

#[test]
fn zeros_and_a_multiple(rt: HostRuntime) -> Result<(), Fail> {
    let text =
        "rows 8 8 zero 0,1 tied -\nrows 16 16 zero - tied 1=7*0\ntogether 0,1 in 1 rows\nalone -\nfree 1 of 2\n";
    says(
        &rt,
        rt.alloc(),
        Style::Text,
        &[NONE, NONE],
        &[A, SEVEN],
        text,
    )
}

#[test]
fn a_foreign_image(rt: HostRuntime) -> Result<(), Fail> {
    let text = "rows 8 16 zero - tied 1=1*0\ntogether 0,1 in 2 rows\nalone 2\nfree 0 of 2\n";
    says(&rt, rt.alloc(), Style::Text, &[A, A, B], &[C, C, D], text)
}

// Two arrays, of which the second has no tie in the second row: the one with more rows comes first.
#[test]
fn two_arrays(rt: HostRuntime) -> Result<(), Fail> {
    let text =
        "rows 8 8 zero - tied 2=1*0+1*1 5=1*3+1*4\nrows 16 16 zero 3 tied 5=1*1+1*4\ntogether 0,1,2 in 1 rows\ntogether 1,4,5 in 1 rows\ntogether 3,4,5 in 1 rows\nalone -\nfree 0 of 2\n";
    says(
        &rt,
        rt.alloc(),
        Style::Text,
        &[A, B, AB, C, D, CD],
        &[A, C, E, NONE, D, CD],
        text,
    )
}

#[test]
fn lines_of_json(rt: HostRuntime) -> Result<(), Fail> {
    let text =
        "{\"rows\":[8,8],\"zero\":[],\"tied\":[[2,[[1,0],[1,1]]],[5,[[1,3],[1,4]]]]}\n{\"rows\":[16,16],\"zero\":[0],\"tied\":[]}\n{\"together\":[0,1,2],\"rows\":1}\n{\"together\":[3,4,5],\"rows\":1}\n{\"alone\":[]}\n{\"free\":1,\"of\":2}\n";
    says(
        &rt,
        rt.alloc(),
        Style::Json,
        &[A, B, AB, C, D, CD],
        &[NONE, A, B, C, D, E],
        text,
    )
}

// The last of 64 images is the first.
#[test]
fn as_many_images_as_may_be(rt: HostRuntime) -> Result<(), Fail> {
    let mut images = [NONE; 64];
    images[0] = A;
    images[63] = A;
    let text =
        "rows 8 16 zero 1,2,3,4,5,6,7,8,9,10,11,12,13,14,15,16,17,18,19,20,21,22,23,24,25,26,27,28,29,30,31,32,33,34,35,36,37,38,39,40,41,42,43,44,45,46,47,48,49,50,51,52,53,54,55,56,57,58,59,60,61,62 tied 63=1*0\ntogether 0,63 in 2 rows\nalone 1,2,3,4,5,6,7,8,9,10,11,12,13,14,15,16,17,18,19,20,21,22,23,24,25,26,27,28,29,30,31,32,33,34,35,36,37,38,39,40,41,42,43,44,45,46,47,48,49,50,51,52,53,54,55,56,57,58,59,60,61,62\nfree 0 of 2\n";
    says(&rt, rt.alloc(), Style::Text, &images, &images, text)
}

// The put of the first run fails once it took five bytes, and nothing is put after it.
#[test]
fn an_output_that_fails(rt: HostRuntime) -> Result<(), Fail> {
    let mut sink = MemSink::new(rt.alloc(), 8192)?;
    assert!(rt; sink.fail_call(1, 5).is_ok());
    assert!(rt; !is_put(&rt, rt.alloc(), Style::Text, &[A, A], &[A, B], &mut sink)?);
    assert!(rt; sink.bytes() == b"rows ".as_slice());
    Ok(())
}
