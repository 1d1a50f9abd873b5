//! Volumes served to a client: what it asks and is answered, and what is refused. Messages were written by hand after the protocol's
//! specification.
ghost use Rattle.reraid_rows.specs.Ready.{AreReady};

use crate::failing::{Fault, Object, ready_to_fail};
use crate::long_images::Long;
use crate::objects::{Objects, images_of, ready, words_of};
use crate::rows::{STRIPES, STRIPES_LOST, same_bytes, same_status};
use image_source::{MemSink, MemSource};
use outside::Memory;
use reraid_cli::Word;
use reraid_nbd_cli::reraid_nbd;
use std::alloc::Global;
use std::process::Abort;
use std::test::Fail;

/// What a server says first.
pub const GREETING: &[u8] = b"NBDMAGICIHAVEOPT\x00\x03";
/// A client's flags, and `EXPORT_NAME` of the empty name.
pub const ENTER: &[u8] = b"\x00\x00\x00\x03IHAVEOPT\x00\x00\x00\x01\x00\x00\x00\x00";
/// Its reply for a volume of four sectors.
pub const FOUR: &[u8] = b"\x00\x00\x00\x00\x00\x00\x08\x00\x01\x03";
/// A read of four bytes from byte 510 on, and one of two from byte 1,535 on.
pub const READS: &[u8] =
    b"\x25\x60\x95\x13\x00\x00\x00\x00abcdefgh\x00\x00\x00\x00\x00\x00\x01\xfe\x00\x00\x00\x04\x25\x60\x95\x13\x00\x00\x00\x00ijklmnop\x00\x00\x00\x00\x00\x00\x05\xff\x00\x00\x00\x02";
/// The end.
pub const DISC: &[u8] =
    b"\x25\x60\x95\x13\x00\x00\x00\x02abcdefgh\x00\x00\x00\x00\x00\x00\x00\x00\x00\x00\x00\x00";
/// The head of the reply to the first read.
pub const FIRST: &[u8] = b"\x67\x44\x66\x98\x00\x00\x00\x00abcdefgh";
/// The head of that to the second.
pub const SECOND: &[u8] = b"\x67\x44\x66\x98\x00\x00\x00\x00ijklmnop";
/// The first five bytes of a reply.
const FRONT: &[u8] = b"\x67\x44\x66\x98\x00";
/// The reply to the first where the images failed.
pub const EIO: &[u8] = b"\x67\x44\x66\x98\x00\x00\x00\x05abcdefgh";

/// One run: the line of its words, the sectors of its images, what the client sends, and what the run must leave.
#[derive(Clone, Copy)]
struct Dialogue<'a> {
    line: &'a str,
    images: &'a [&'a [u8]],
    asked: &'a [&'a [u8]],
    status: u8,
    out: &'a [&'a [u8]],
    notes: &'a str,
}

/// All parts, one after the other.
pub fn joined(alloc: Global, parts: &[&[u8]]) -> Result<Vec<u8>, Memory> {
    let mut all = Vec::new(alloc);
    for part in parts {
        all.extend_from_slice(part).map_err(|_| Memory)?;
    }
    Ok(all)
}

/// Serves these words to the client whose bytes stand for a plan, with this text of maps, and gives the status.
pub fn serve_words(alloc: Global, words: &[Word], maps: &mut MemSource, objects: &mut Objects) -> u8
    requires { AreReady words.now objects.old.images objects.old.plan objects.old.out objects.old.notes }
{
    reraid_nbd(
        alloc,
        words,
        maps,
        &mut objects.plan,
        &mut objects.images,
        &mut objects.out,
        &mut objects.notes,
    )
}

/// Runs the dialogue, and compares what it leaves.
fn check<R: Abort>(rt: &R, alloc: Global, row: &Dialogue) -> Result<(), Fail> {
    let words = words_of(alloc, row.line)?;
    let contents = images_of(alloc, row.images)?;
    let asked = joined(alloc, row.asked)?;
    let mut met = ready(alloc, &words, &contents, &asked)?;
    let mut maps = MemSource::new(alloc, b"")?;
    let status = serve_words(alloc, &words, &mut maps, &mut met);
    leaves(rt, alloc, row, status, &met)
}

/// Runs the dialogue with a call that fails, and compares what it leaves.
fn check_failing<R: Abort>(
    rt: &R,
    alloc: Global,
    row: &Dialogue,
    fault: Fault,
) -> Result<(), Fail> {
    let words = words_of(alloc, row.line)?;
    let contents = images_of(alloc, row.images)?;
    let asked = joined(alloc, row.asked)?;
    let mut met = ready_to_fail(alloc, &words, &contents, &asked, fault)?;
    let mut maps = MemSource::new(alloc, b"")?;
    let status = serve_words(alloc, &words, &mut maps, &mut met);
    leaves(rt, alloc, row, status, &met)
}

/// Compares what a run left.
fn leaves<R: Abort>(
    rt: &R,
    alloc: Global,
    row: &Dialogue,
    status: u8,
    met: &Objects,
) -> Result<(), Fail> {
    let want = joined(alloc, row.out)?;
    same_status(rt, status, row.status, row.line);
    same_bytes(rt, met.out.bytes(), &want, row.line);
    same_bytes(rt, met.notes.bytes(), row.notes.as_bytes(), row.line);
    Ok(())
}

/// Dialogues over volumes whose sectors are 1, 3, 6, 2: of a level 5, without its first member, where the data of the first image begin a
/// sector later; and 1, 3, 2, 4, of a mirror.
const SERVED: [Dialogue; 4] = [
    Dialogue {
        line: "set=5:ls:none:1:0:0,1,2 -- a b c",
        images: STRIPES,
        asked: &[ENTER, READS, DISC],
        status: 0,
        out: &[GREETING, FOUR, FIRST, &[1, 1, 3, 3], SECOND, &[6, 2]],
        notes: "",
    },
    Dialogue {
        line: "set=5:ls:none:1:0:-,0,1 end=2 -- a b",
        images: STRIPES_LOST,
        asked: &[ENTER, READS],
        status: 0,
        out: &[GREETING, FOUR, FIRST, &[1, 1, 3, 3], SECOND, &[6, 2]],
        notes: "",
    },
    Dialogue {
        line: "end=3 set=5:ls:none:1:1+0+0:0,1,2 -- a b c",
        images: &[&[9, 1, 2], &[3, 4, 9], &[2, 6, 9]],
        asked: &[ENTER, READS, DISC],
        status: 0,
        out: &[GREETING, FOUR, FIRST, &[1, 1, 3, 3], SECOND, &[6, 2]],
        notes: "",
    },
    Dialogue {
        line: "set=near2:1:0:-,0,1,2 -- a b c",
        images: &[&[1, 2], &[3, 4], &[3, 4]],
        asked: &[ENTER, READS, DISC],
        status: 0,
        out: &[GREETING, FOUR, FIRST, &[1, 1, 3, 3], SECOND, &[2, 4]],
        notes: "",
    },
];

#[test]
fn volumes_are_served(rt: HostRuntime) -> Result<(), Fail> {
    for row in &SERVED {
        check(&rt, rt.alloc(), row)?;
    }
    Ok(())
}

/// A run that is refused, and answers its client nothing.
fn refused<'a>(line: &'a str, images: &'a [&'a [u8]], status: u8, notes: &'a str) -> Dialogue<'a> {
    Dialogue {
        line,
        images,
        asked: &[ENTER],
        status,
        out: &[],
        notes,
    }
}

#[test]
fn what_is_refused(rt: HostRuntime) -> Result<(), Fail> {
    let word = "reraid: word 1 is not understood\n";
    let third = "reraid: word 3 is not understood\n";
    for row in &[
        refused("", &[], 1, word),
        refused("write set=5:ls:none:1:0:0,1,2 -- a b c", STRIPES, 1, word),
        refused("sets=5:ls:none:1:0:0,1,2 -- a b c", STRIPES, 1, word),
        refused(
            "end=1 set=near2:1:0:0,1 set=5:ls:none:1:0:0,1,2 -- a",
            &[&[1]],
            1,
            third,
        ),
        refused(
            "end=1 set=5:ls:none:1:0:0,1,2 set=near2:1:0:0,1 -- a",
            &[&[1]],
            1,
            third,
        ),
        refused("end=1 set=near2:1:0:0,1", &[&[1]], 1, third),
        refused(
            "set=near2:1:0:0,1 --",
            &[],
            4,
            "reraid: images: count given 0 planned 1\n",
        ),
        refused(
            "set=5:ls:none:1:0:0,1,2 end=3 -- a b c",
            STRIPES,
            4,
            "reraid: images: end given 3 planned 2\n",
        ),
        refused(
            "set=5:ls:none:0:0:0,1,2 -- a b c",
            STRIPES,
            7,
            "reraid: set rule 4 value 0\n",
        ),
        refused(
            "set=5:ls:none:1:0+0:0,1,2 -- a b c",
            STRIPES,
            7,
            "reraid: set rule 12 value 2\n",
        ),
        refused(
            "set=near2:1:0:0,-,- -- a",
            &[&[5, 6]],
            7,
            "reraid: set rule 25 value 2\n",
        ),
    ] {
        check(&rt, rt.alloc(), row)?;
    }
    Ok(())
}

/// The first dialogue, which ends so where a call fails.
fn ends<'a>(status: u8, out: &'a [&'a [u8]], notes: &'a str) -> Dialogue<'a> {
    Dialogue {
        line: "set=5:ls:none:1:0:0,1,2 -- a b c",
        images: STRIPES,
        asked: &[ENTER, READS],
        status,
        out,
        notes,
    }
}

#[test]
fn what_fails(rt: HostRuntime) -> Result<(), Fail> {
    let alloc = rt.alloc();
    let fault = |object: Object, call: u64| Fault {
        object,
        call,
        taken: 5,
    };
    // The third image cannot be attached; the first reading fails; the source fails in the request, and the sink in its reply.
    let row = ends(10, &[], "reraid: image read fault\n");
    check_failing(&rt, alloc, &row, fault(Object::Images, 3))?;
    let row = ends(0, &[GREETING, FOUR, EIO, SECOND, &[6, 2]], "");
    check_failing(&rt, alloc, &row, fault(Object::Images, 4))?;
    let row = ends(11, &[GREETING, FOUR], "reraid: input fault\n");
    check_failing(&rt, alloc, &row, fault(Object::Plan, 3))?;
    let row = ends(12, &[GREETING, FOUR, FRONT], "reraid: output fault\n");
    check_failing(&rt, alloc, &row, fault(Object::Out, 3))
}

#[test]
fn what_is_malformed(rt: HostRuntime) -> Result<(), Fail> {
    let row = Dialogue {
        line: "set=5:ls:none:1:0:0,1,2 -- a b c",
        images: STRIPES,
        asked: &[b"\x00\x00\x00\x04"],
        status: 14,
        out: &[GREETING],
        notes: "reraid: dialogue is malformed\n",
    };
    check(&rt, rt.alloc(), &row)
}

// Two images of 2^54 sectors and one that is shorter by one, of which two are data; and one that is just short enough.
#[test]
fn what_is_too_long(rt: HostRuntime) -> Result<(), Fail> {
    let alloc = rt.alloc();
    for (line, status, noted) in &[
        (
            "set=5:ls:none:1:0:0,1,2 -- a b c",
            15,
            "reraid: volume of 36028797018963966 sectors is too long\n",
        ),
        (
            "set=near2:1:0:0,1,2 -- a b c",
            15,
            "reraid: volume of 27021597764222974 sectors is too long\n",
        ),
        ("set=near2:1:0:0,1 -- a b", 0, ""),
    ] {
        let words = words_of(alloc, line)?;
        let mut maps = MemSource::new(alloc, b"")?;
        let mut source = MemSource::new(alloc, b"")?;
        let mut images = Long::new(alloc)?;
        let mut out = MemSink::new(alloc, 1000)?;
        let mut notes = MemSink::new(alloc, 1000)?;
        let ended = reraid_nbd(
            alloc,
            &words,
            &mut maps,
            &mut source,
            &mut images,
            &mut out,
            &mut notes,
        );
        same_status(&rt, ended, *status, line);
        same_bytes(&rt, notes.bytes(), noted.as_bytes(), line);
    }
    Ok(())
}
