//! Runs that leave what was worked out by hand, and images that several of them meet.
use crate::objects::{Objects, filled, images_of, ready, run_words, words_of};
use outside::Memory;
use std::alloc::Global;
use std::process::Abort;
use std::test::Fail;
use std::thread::Threads;

/// Two rows of left-symmetric over three members.
pub const STRIPES: &[&[u8]] = &[&[1, 2], &[3, 4], &[2, 6]];

/// The same without the first member.
pub const STRIPES_LOST: &[&[u8]] = &[&[3, 4], &[2, 6]];

/// Q, two data blocks and P of one row: 01 + 80 = 81 and 01 + 2 * 80 = 1C.
pub const DOUBLE: &[&[u8]] = &[&[0x1C], &[0x01], &[0x80], &[0x81]];

/// The same with the byte of Q changed, and without the block of the first data item.
pub const TORN: &[&[u8]] = &[&[0x1D], &[0x80], &[0x81]];

/// One sector of zeros.
pub const ZERO: &[u8] = &[0];

/// As many images as there may be, of one sector of zeros.
pub const TWENTY_FOUR: &[&[u8]] = &[ZERO; 24];

/// One run: the line of its words, the sectors of its images, its plan, and what it must leave.
#[derive(Clone, Copy)]
pub struct Row<'a> {
    pub line: &'a str,
    pub images: &'a [&'a [u8]],
    pub plan: &'a str,
    pub status: u8,
    pub out: &'a str,
    pub notes: &'a str,
}

/// Runs each row, and compares what it leaves.
pub fn check_all<R: Threads + Sync + Abort>(
    rt: &R,
    alloc: Global,
    rows: &[Row],
) -> Result<(), Fail> {
    for row in rows {
        check(rt, alloc, row)?;
    }
    Ok(())
}

/// Runs the row, and compares what it leaves.
pub fn check<R: Threads + Sync + Abort>(rt: &R, alloc: Global, row: &Row) -> Result<(), Fail> {
    let contents = images_of(alloc, row.images)?;
    let end = End {
        status: row.status,
        out: row.out.as_bytes(),
        notes: row.notes.as_bytes(),
    };
    ends_so(rt, alloc, row.line, &contents, row.plan.as_bytes(), &end)
}

/// What a run must leave: its status, and the bytes on its output and its notes.
#[derive(Clone, Copy)]
pub struct End<'a> {
    pub status: u8,
    pub out: &'a [u8],
    pub notes: &'a [u8],
}

/// Runs the words of a line over images of these bytes, and compares what the run leaves.
pub fn ends_so<R: Threads + Sync + Abort>(
    rt: &R,
    alloc: Global,
    line: &str,
    contents: &[Vec<u8>],
    plan: &[u8],
    end: &End,
) -> Result<(), Fail> {
    let (status, met) = run(rt, alloc, line, contents, plan)?;
    compare(rt, status, &met, end, line);
    Ok(())
}

/// Compares what a run left with what it must leave.
pub fn compare<R: Abort>(rt: &R, status: u8, met: &Objects, end: &End, line: &str) {
    same_status(rt, status, end.status, line);
    same_bytes(rt, met.out.bytes(), end.out, line);
    same_bytes(rt, met.notes.bytes(), end.notes, line);
}

/// Compares the status of a run with the one that it must end with.
pub fn same_status<R: Abort>(rt: &R, status: u8, expected: u8, line: &str) {
    assert_eq!(rt; status, expected, "{line}");
}

/// Compares the bytes that a run put with those that it must put.
pub fn same_bytes<R: Abort>(rt: &R, put: &[u8], expected: &[u8], line: &str) {
    assert_eq!(rt; put, expected, "{line}");
}

/// Runs the words of a line over images of these bytes.
pub fn run<R: Threads + Sync>(
    rt: &R,
    alloc: Global,
    line: &str,
    contents: &[Vec<u8>],
    plan: &[u8],
) -> Result<(u8, Objects), Memory> {
    let words = words_of(alloc, line)?;
    let mut met = ready(alloc, &words, contents, plan)?;
    let status = run_words(rt, alloc, &words, &mut met);
    Ok((status, met))
}

/// One run that writes: the line of its words, the sectors of its images, and those that it must put.
#[derive(Clone, Copy)]
pub struct Written<'a> {
    pub line: &'a str,
    pub images: &'a [&'a [u8]],
    pub out: &'a [u8],
}

/// Runs each row, and compares what it puts.
pub fn writes_all<R: Threads + Sync + Abort>(
    rt: &R,
    alloc: Global,
    rows: &[Written],
) -> Result<(), Fail> {
    for row in rows {
        writes(rt, alloc, row)?;
    }
    Ok(())
}

/// Runs the row over a source of this text, and compares what it puts.
pub fn writes_by<R: Threads + Sync + Abort>(
    rt: &R,
    alloc: Global,
    row: &Written,
    text: &str,
) -> Result<(), Fail> {
    let contents = images_of(alloc, row.images)?;
    let out = filled(alloc, row.out)?;
    let end = End {
        status: 0,
        out: &out,
        notes: b"",
    };
    ends_so(rt, alloc, row.line, &contents, text.as_bytes(), &end)
}

/// Runs the row, and compares what it puts.
fn writes<R: Threads + Sync + Abort>(rt: &R, alloc: Global, row: &Written) -> Result<(), Fail> {
    let contents = images_of(alloc, row.images)?;
    let out = filled(alloc, row.out)?;
    let end = End {
        status: 0,
        out: &out,
        notes: b"",
    };
    ends_so(rt, alloc, row.line, &contents, b"", &end)
}
