//! Rescue texts and lists of sets at both sides of the most bytes that they may have.
use crate::objects::images_of;
use crate::rows::{End, STRIPES, ends_so};
use outside::Memory;
use std::alloc::Global;
use std::process::Abort;
use std::test::Fail;
use std::thread::Threads;

/// The most bytes of a text that is read.
const MOST: usize = 4_194_304;

/// The first sector of the first image is bad.
const MAP: &[u8] = b"map 0\n0x0 ? 1\n0x0 0x200 -\n0x200 0x200 +\n";

/// A set.
const SETS: &[u8] = b"0 5:ls:none:1:0:0,1,2\n";

/// What stands before the bytes that make a text long, the byte itself, and how a run over the longest text ends, and over one that
/// is a byte longer.
#[derive(Clone, Copy)]
struct Longest<'a> {
    line: &'a str,
    front: &'a [u8],
    more: u8,
    end: End<'a>,
    past: End<'a>,
}

/// A text followed by so many bytes that its length is this.
fn long_text(alloc: Global, front: &[u8], more: u8, length: usize) -> Result<Vec<u8>, Memory> {
    let mut text = front.to_vec(alloc).map_err(|_| Memory)?;
    for _ in front.len()..length {
        text.push(more).map_err(|_| Memory)?;
    }
    Ok(text)
}

/// Runs over the longest text, and over one that is a byte longer.
fn check_longest<R: Threads + Sync + Abort>(
    rt: &R,
    alloc: Global,
    longest: &Longest,
) -> Result<(), Fail> {
    let contents = images_of(alloc, STRIPES)?;
    let text = long_text(alloc, longest.front, longest.more, MOST)?;
    ends_so(rt, alloc, longest.line, &contents, &text, &longest.end)?;
    let text = long_text(alloc, longest.front, longest.more, MOST + 1)?;
    ends_so(rt, alloc, longest.line, &contents, &text, &longest.past)
}

// Empty lines are passed over, so that the longest rescue text says just what its first lines do.
#[test]
fn a_rescue_text_may_be_too_long(rt: HostRuntime) -> Result<(), Fail> {
    let longest = Longest {
        line: "salvage set=5:ls:none:1:0:0,1,2 form=lost -- a b c",
        front: MAP,
        more: b'\n',
        end: End {
            status: 0,
            out: b"good 4 of 4\n",
            notes: b"",
        },
        past: End {
            status: 3,
            out: b"",
            notes: b"reraid: rescue text is longer than 4194304 bytes\n",
        },
    };
    check_longest(&rt, rt.alloc(), &longest)
}

// No line of a list is like the second one here.
#[test]
fn a_list_of_sets_may_be_too_long(rt: HostRuntime) -> Result<(), Fail> {
    let longest = Longest {
        line: "classes images=3 end=2 --",
        front: SETS,
        more: b'x',
        end: End {
            status: 13,
            out: b"",
            notes: b"reraid: set line 2 is not understood\n",
        },
        past: End {
            status: 3,
            out: b"",
            notes: b"reraid: set list is longer than 4194304 bytes\n",
        },
    };
    check_longest(&rt, rt.alloc(), &longest)
}
