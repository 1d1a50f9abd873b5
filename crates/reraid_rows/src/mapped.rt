//! Volumes of damaged images served to a client, by the text of their maps: what is read, found by parity and lost, and what is refused. The
//! bad sectors hold other bytes than the array had there.
use crate::objects::{images_of, ready, words_of};
use crate::rows::{same_bytes, same_status};
use crate::served::{DISC, EIO, ENTER, FIRST, FOUR, GREETING, READS, SECOND, joined, serve_words};
use image_source::MemSource;
use outside::Memory;
use std::alloc::Global;
use std::process::Abort;
use std::test::Fail;

/// The first sector of the first image is bad.
const ONE: &[u8] = b"map 0\n0 + 1\n0 512 -\n512 512 +\n";
/// And that of the third image, in part.
const TWO: &[u8] = b"map 0\n0 + 1\n0 512 -\n512 512 +\nmap 2\n0 + 1\n0 511 +\n511 1 ?\n512 512 +\n";
/// The second sector of the first image is bad, which is the first of its data.
const LATER: &[u8] = b"map 0\n0 + 1\n0 512 +\n512 512 /\n1024 512 +\n";

/// The words for a level 5 without bases.
const LINE: &str = "set=5:ls:none:1:0:0,1,2 maps=m -- a b c";

/// One run: the line of its words, the text of its maps and the call of it that fails, the sectors of its images, and what it must leave.
#[derive(Clone, Copy)]
struct Mapped<'a> {
    line: &'a str,
    maps: &'a [u8],
    failing: Option<u64>,
    images: &'a [&'a [u8]],
    status: u8,
    out: &'a [&'a [u8]],
    notes: &'a str,
}

/// The text of maps, of which a call may fail.
fn text(alloc: Global, bytes: &[u8], failing: Option<u64>) -> Result<MemSource, Memory> {
    let mut maps = MemSource::new(alloc, bytes)?;
    if let Some(call) = failing {
        maps.fail_call(call)?;
    }
    Ok(maps)
}

/// Runs the dialogue, and compares what it leaves.
fn check<R: Abort>(rt: &R, alloc: Global, row: &Mapped) -> Result<(), Fail> {
    let words = words_of(alloc, row.line)?;
    let contents = images_of(alloc, row.images)?;
    let asked = joined(alloc, &[ENTER, READS, DISC])?;
    let mut maps = text(alloc, row.maps, row.failing)?;
    let mut met = ready(alloc, &words, &contents, &asked)?;
    let status = serve_words(alloc, &words, &mut maps, &mut met);
    let want = joined(alloc, row.out)?;
    same_status(rt, status, row.status, row.line);
    same_bytes(rt, met.out.bytes(), &want, row.line);
    same_bytes(rt, met.notes.bytes(), row.notes.as_bytes(), row.line);
    Ok(())
}

/// Volumes of the sectors 1, 3, 6 and 2: the first is found as 3 + 2, and is lost where the third image lacks its 2 too; of a mirror it is the
/// second copy, and is lost where that is bad too.
const SERVED: [Mapped; 6] = [
    Mapped {
        line: LINE,
        maps: ONE,
        failing: None,
        images: &[&[9, 2], &[3, 4], &[2, 6]],
        status: 0,
        out: &[GREETING, FOUR, FIRST, &[1, 1, 3, 3], SECOND, &[6, 2]],
        notes: "",
    },
    Mapped {
        line: LINE,
        maps: TWO,
        failing: None,
        images: &[&[9, 2], &[3, 4], &[8, 6]],
        status: 0,
        out: &[GREETING, FOUR, EIO, SECOND, &[6, 2]],
        notes: "",
    },
    Mapped {
        line: "end=3 maps=m set=5:ls:none:1:1+0+0:0,1,2 -- a b c",
        maps: LATER,
        failing: None,
        images: &[&[7, 9, 2], &[3, 4, 7], &[2, 6, 7]],
        status: 0,
        out: &[GREETING, FOUR, FIRST, &[1, 1, 3, 3], SECOND, &[6, 2]],
        notes: "",
    },
    Mapped {
        line: "maps=m set=5:ls:none:1:0:-,0,1 -- a b",
        maps: b"map 1\n0 + 1\n0 512 -\n512 512 +\n",
        failing: None,
        images: &[&[3, 4], &[8, 6]],
        status: 0,
        out: &[GREETING, FOUR, EIO, SECOND, &[6, 2]],
        notes: "",
    },
    Mapped {
        line: "set=near2:1:0:0,1 maps=m -- a b",
        maps: b"map 0\n0 + 1\n0 512 -\n512 1536 +\n",
        failing: None,
        images: &[&[9, 3, 6, 2], &[1, 8, 7, 8]],
        status: 0,
        out: &[GREETING, FOUR, FIRST, &[1, 1, 3, 3], SECOND, &[6, 2]],
        notes: "",
    },
    Mapped {
        line: "maps=m set=near2:1:0:0,1 -- a b",
        maps: b"map 0\n0 + 1\n0 512 -\n512 1536 +\nmap 1\n0 + 1\n0 512 /\n512 1536 +\n",
        failing: None,
        images: &[&[9, 3, 6, 2], &[8, 8, 7, 8]],
        status: 0,
        out: &[GREETING, FOUR, EIO, SECOND, &[6, 2]],
        notes: "",
    },
];

#[test]
fn damaged_volumes_are_served(rt: HostRuntime) -> Result<(), Fail> {
    for row in &SERVED {
        check(&rt, rt.alloc(), row)?;
    }
    Ok(())
}

/// A run that is refused, and answers its client nothing.
fn refused<'a>(line: &'a str, maps: &'a [u8], status: u8, notes: &'a str) -> Mapped<'a> {
    Mapped {
        line,
        maps,
        failing: None,
        images: &[&[1, 2], &[3, 4], &[2, 6]],
        status,
        out: &[],
        notes,
    }
}

#[test]
fn what_is_refused_of_maps(rt: HostRuntime) -> Result<(), Fail> {
    let first = "reraid: word 1 is not understood\n";
    let second = "reraid: word 2 is not understood\n";
    let third = "reraid: word 3 is not understood\n";
    for row in &[
        refused("maps=m", ONE, 1, second),
        refused("maps=m sector=1 set=near2:1:0:0,1 -- a b", ONE, 1, second),
        refused("sector=1 set=near2:1:0:0,1 maps=m -- a b", ONE, 1, first),
        refused("set=near2:1:0:0,1 maps=m sector=1 -- a b", ONE, 1, third),
        refused(
            "set=near2:0:0:0,1 maps=m -- a b",
            b"map 2\n",
            9,
            "reraid: rescue line 1 is not understood\n",
        ),
        refused(
            "set=5:ls:none:1:0:0,1,2 maps=m maps=m -- a b c",
            ONE,
            1,
            third,
        ),
        refused(
            "set=5:ls:none:1:0:0,1,2 maps=m end=x -- a b c",
            ONE,
            1,
            third,
        ),
        refused("end=2 sector=1 maps=m -- a b c", ONE, 1, second),
        refused(
            LINE,
            b"map 0\nmap 0\n0 1 x\n",
            9,
            "reraid: rescue line 3 is not understood\n",
        ),
        refused(
            LINE,
            b"map 3\n",
            9,
            "reraid: rescue line 1 is not understood\n",
        ),
        refused(
            "maps=m set=5:ls:none:1:0:0,1,2 end=3 -- a b c",
            b"map 3\n",
            4,
            "reraid: images: end given 3 planned 2\n",
        ),
        refused(
            "maps=m set=5:ls:none:0:0:0,1,2 -- a b c",
            ONE,
            7,
            "reraid: set rule 4 value 0\n",
        ),
    ] {
        check(&rt, rt.alloc(), row)?;
    }
    Ok(())
}

#[test]
fn maps_that_cannot_be_read(rt: HostRuntime) -> Result<(), Fail> {
    let row = Mapped {
        line: LINE,
        maps: ONE,
        failing: Some(1),
        images: &[&[1, 2], &[3, 4], &[2, 6]],
        status: 16,
        out: &[],
        notes: "reraid: maps read fault\n",
    };
    check(&rt, rt.alloc(), &row)
}
