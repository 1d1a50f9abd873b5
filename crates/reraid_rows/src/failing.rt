//! Each call of each object made to fail in turn.
ghost use Rattle.std.specs.Prelude.{◌≡◌, IfOk};
ghost use Rattle.reraid_rows.specs.Ready.{AreReady};

use crate::objects::{Objects, filled, images_of, ready, run_in_pieces, run_words, words_of};
use crate::placed::{Field, HEADER, Placed, put_all};
use crate::plans::{EACH_OFFSET, LEVEL_SIX, LISTING, NO_LANDMARK, PLAN, bytes_of};
use crate::rows::{End, STRIPES, STRIPES_LOST, compare, same_bytes, same_status};
use outside::Memory;
use reraid_cli::Word;
use std::alloc::Global;
use std::process::Abort;
use std::test::Fail;
use std::thread::Threads;

/// More calls than a run makes of one object.
const MANY: u64 = 200;

/// An object that fails.
#[derive(Clone, Copy)]
pub enum Object {
    Images,
    Plan,
    Out,
    Notes,
}

/// What is put where nothing fails.
#[derive(Clone, Copy)]
enum Answer<'a> {
    Text(&'a str),
    /// Sectors of these bytes.
    Sectors(&'a [u8]),
}

/// A run that ends, with how many calls it makes of each object: of the images and the plan at least these numbers,
/// of the output and the notes exactly these.
#[derive(Clone, Copy)]
struct Run<'a> {
    line: &'a str,
    images: &'a [&'a [u8]],
    placed: &'a [Placed],
    plan: &'a str,
    status: u8,
    answer: Answer<'a>,
    notes: &'a str,
    calls: (u64, u64, u64, u64),
}

/// A call that fails: the one of this number of an object. A put takes `taken` bytes before it fails.
#[derive(Clone, Copy)]
pub struct Fault {
    pub object: Object,
    pub call: u64,
    pub taken: usize,
}

/// Lists the call to fail.
fn fail(objects: &mut Objects, fault: Fault) -> Result<(), Memory>
    ensures files { objects.new.images.files ≡ objects.old.images.files }
    ensures attached { objects.new.images.attached ≡ objects.old.images.attached }
    ensures images { objects.new.images.faults ≡ objects.old.images.faults }
    ensures plan { objects.new.plan.faults ≡ objects.old.plan.faults }
    ensures out { objects.new.out.faults ≡ objects.old.out.faults }
    ensures notes { objects.new.notes.faults ≡ objects.old.notes.faults }
{
    match fault.object {
        Object::Images => objects.images.fail_call(fault.call),
        Object::Plan => objects.plan.fail_call(fault.call),
        Object::Out => objects.out.fail_call(fault.call, fault.taken),
        Object::Notes => objects.notes.fail_call(fault.call, fault.taken),
    }
}

/// Objects for a run of these words with a call that fails.
pub fn ready_to_fail(
    alloc: Global,
    words: &[Word],
    contents: &[Vec<u8>],
    plan: &[u8],
    fault: Fault,
) -> Result<Objects, Memory>
    ensures { IfOk result (λ o. AreReady words.now o.images o.plan o.out o.notes) }
{
    let mut met = ready(alloc, words, contents, plan)?;
    fail(&mut met, fault)?;
    Ok(met)
}

/// The run with a call that fails, of which a put takes five bytes.
fn run_failing<R: Threads + Sync>(
    rt: &R,
    alloc: Global,
    run: &Run,
    contents: &[Vec<u8>],
    object: Object,
    call: u64,
) -> Result<(u8, Objects), Memory> {
    let words = words_of(alloc, run.line)?;
    let fault = Fault {
        object,
        call,
        taken: 5,
    };
    let mut met = ready_to_fail(alloc, &words, contents, run.plan.as_bytes(), fault)?;
    let status = run_words(rt, alloc, &words, &mut met);
    Ok((status, met))
}

/// The bytes that are put where nothing fails.
fn answer_of(alloc: Global, answer: Answer) -> Result<Vec<u8>, Memory> {
    match answer {
        Answer::Text(text) => bytes_of(alloc, text),
        Answer::Sectors(sectors) => filled(alloc, sectors),
    }
}

/// How a run ends where a call of this object fails: its status, the line on the notes, and how many bytes of `whole` stay.
fn fault_of(object: Object, run: &Run, whole: usize) -> (u8, &'static str, usize) {
    match object {
        Object::Images => (10, "reraid: image read fault\n", 0),
        Object::Plan => (11, "reraid: plan read fault\n", 0),
        Object::Out => (12, "reraid: output fault\n", 5),
        Object::Notes => (run.status, "rerai", whole),
    }
}

/// Compares what a run left that met a fault.
fn compare_fault<R: Abort>(
    rt: &R,
    status: u8,
    met: &Objects,
    fault: (u8, &str, usize),
    whole: &[u8],
    line: &str,
) {
    let (ends, noted, left) = fault;
    same_status(rt, status, ends, line);
    same_bytes(rt, met.notes.bytes(), noted.as_bytes(), line);
    is_front(rt, met.out.bytes(), left, whole, line);
}

/// Compares bytes that a run put with the first `left` of all that it may put.
fn is_front<R: Abort>(rt: &R, put: &[u8], left: usize, whole: &[u8], line: &str) {
    assert_eq!(rt; put.len(), left, "{line}");
    assert!(rt; whole.starts_with(put), "{line}");
}

/// Whether a run meets a fault where this call fails. It ends then with the object's status and its line, and of a put that fails the
/// first five bytes stay. The notes alone change no status. Else it ends as without a fault.
fn meets_fault<R: Threads + Sync + Abort>(
    rt: &R,
    alloc: Global,
    run: &Run,
    contents: &[Vec<u8>],
    whole: &[u8],
    object: Object,
    call: u64,
) -> Result<bool, Fail> {
    let (ended, met) = run_failing(rt, alloc, run, contents, object, call)?;
    if ended == run.status && met.notes.bytes() == run.notes.as_bytes() {
        same_bytes(rt, met.out.bytes(), whole, run.line);
        return Ok(false);
    }
    let fault = fault_of(object, run, whole.len());
    compare_fault(rt, ended, &met, fault, whole, run.line);
    Ok(true)
}

/// Fails each call of an object in turn, until the run ends as without a fault, and gives how many calls it made.
fn each_call<R: Threads + Sync + Abort>(
    rt: &R,
    alloc: Global,
    run: &Run,
    object: Object,
) -> Result<u64, Fail> {
    let mut contents = images_of(alloc, run.images)?;
    put_all(&mut contents, run.placed);
    let whole = answer_of(alloc, run.answer)?;
    for call in 1..MANY {
        if !meets_fault(rt, alloc, run, &contents, &whole, object, call)? {
            return Ok(call - 1);
        }
    }
    Ok(MANY)
}

/// The header of an image's own table in block 1 of 100, and its copy in block 99. Checksums were computed by zlib.
const OWN: &[Field] = &[
    (16, &[0x39, 0x73, 0x41, 0x17]),
    (24, &[1]),
    (32, &[99]),
    (72, &[2]),
];

const OWN_COPY: &[Field] = &[
    (16, &[0x38, 0x0D, 0xD8, 0xD4]),
    (24, &[99]),
    (32, &[1]),
    (72, &[98]),
];

const OWN_TABLES: &[Placed] = &[
    (0, 1, HEADER),
    (0, 1, OWN),
    (0, 99, HEADER),
    (0, 99, OWN_COPY),
    (1, 1, HEADER),
    (1, 1, OWN),
    (1, 99, HEADER),
    (1, 99, OWN_COPY),
    (2, 1, HEADER),
    (2, 1, OWN),
    (2, 99, HEADER),
    (2, 99, OWN_COPY),
];

/// The members, where they begin at sector 1 of the first image.
const LATER: &[&[u8]] = &[&[9, 1, 2], &[3, 4, 9], &[2, 6, 9]];

/// A text that says of the first image that its first sector is bad.
const MAP: &str = "map 0\n0x0 ? 1\n0x0 0x200 -\n0x200 0x200 +\n";

/// The runs. A listing reads each image for the tables of rows, which decide at level 5, and at level 6 again in its
/// scan; a test, a volume and a member read each image that a slot holds; a survey reads each image. All answers are
/// one put, but for the volume's, which may be more; and so is the line of the cursor. A search for mirrors reads each image, their volume
/// one copy of each chunk; `salvage` reads each image, or none where it only says what is lost; `map` reads none, and `classes` and
/// `sample` have none.
static RUNS: [Run; 16] = [
    Run {
        line: "list size=10 -- a b c",
        images: STRIPES,
        placed: &[],
        plan: PLAN,
        status: 0,
        answer: Answer::Text(LISTING),
        notes: "",
        calls: (6, 2, 1, 0),
    },
    Run {
        line: "list size=1 -- a b c d",
        images: &[&[0], &[0], &[0], &[0]],
        placed: &[],
        plan: LEVEL_SIX,
        status: 0,
        answer: Answer::Text("0 6:ls:after-q:1:0:0,1,2,3\nnext 1 of 72\n"),
        notes: "",
        calls: (12, 2, 1, 0),
    },
    Run {
        line: "list from=7 -- a b c",
        images: STRIPES,
        placed: &[],
        plan: PLAN,
        status: 6,
        answer: Answer::Text(""),
        notes: "reraid: cursor 7 is past 6\n",
        calls: (3, 2, 0, 1),
    },
    Run {
        line: "survey -- a b c",
        images: &[&[0; 100], &[0; 100], &[0; 100]],
        placed: OWN_TABLES,
        plan: "",
        status: 0,
        answer: Answer::Text(NO_LANDMARK),
        notes: "",
        calls: (6, 0, 1, 0),
    },
    Run {
        line: "write set=5:ls:none:1:0:0,1,2 -- a b c",
        images: STRIPES,
        placed: &[],
        plan: "",
        status: 0,
        answer: Answer::Sectors(&[1, 3, 6, 2]),
        notes: "",
        calls: (6, 0, 1, 0),
    },
    Run {
        line: "rebuild set=5:ls:none:1:0:-,0,1 slot=0 -- a b",
        images: STRIPES_LOST,
        placed: &[],
        plan: "",
        status: 0,
        answer: Answer::Sectors(&[1, 2]),
        notes: "",
        calls: (4, 0, 1, 0),
    },
    Run {
        line: "check set=6:ls:after-q:1:0:0,1,2,3 -- a b c d",
        images: &[&[0x1C], &[0x01], &[0x80], &[0x81]],
        placed: &[],
        plan: LEVEL_SIX,
        status: 0,
        answer: Answer::Text("rank 0\nunsound 0 of 1\npass\n"),
        notes: "",
        calls: (8, 2, 1, 0),
    },
    Run {
        line: "list size=1 -- a b c",
        images: LATER,
        placed: &[],
        plan: EACH_OFFSET,
        status: 0,
        answer: Answer::Text("24 5:ls:none:1:1+0+0:0,1,2\nnext 25 of 48\n"),
        notes: "",
        calls: (6, 2, 1, 0),
    },
    Run {
        line: "write set=5:ls:none:1:1+0+0:0,1,2 -- a b c",
        images: LATER,
        placed: &[],
        plan: "",
        status: 0,
        answer: Answer::Sectors(&[1, 3, 6, 2]),
        notes: "",
        calls: (6, 0, 1, 0),
    },
    Run {
        line: "map set=5:ls:none:1:0:0,1,2 sector=2 -- a b c",
        images: STRIPES,
        placed: &[],
        plan: "",
        status: 0,
        answer: Answer::Text("row 1 item 0 slot 2 image 2 sector 1 p 1 q -\nname left-symmetric\n"),
        notes: "",
        calls: (3, 0, 1, 0),
    },
    Run {
        line: "mirrors chunks=1 offsets=0 size=1 -- a b c",
        images: &[&[5, 6], &[5, 7], &[6, 7]],
        placed: &[],
        plan: "",
        status: 0,
        answer: Answer::Text("0 near2:1:0:0,1,2\nnext 1 of 6\n"),
        notes: "",
        calls: (6, 0, 1, 0),
    },
    Run {
        line: "mirrorwrite set=near2:1:0:0,-,1 -- a b",
        images: &[&[5, 6], &[6, 7]],
        placed: &[],
        plan: "",
        status: 0,
        answer: Answer::Sectors(&[5, 6, 7]),
        notes: "",
        calls: (4, 0, 1, 0),
    },
    Run {
        line: "salvage set=5:ls:none:1:0:0,1,2 -- a b c",
        images: STRIPES,
        placed: &[],
        plan: MAP,
        status: 0,
        answer: Answer::Sectors(&[1, 3, 6, 2]),
        notes: "",
        calls: (6, 2, 1, 0),
    },
    Run {
        line: "salvage set=5:ls:none:1:0:0,1,2 form=lost -- a b c",
        images: STRIPES,
        placed: &[],
        plan: MAP,
        status: 0,
        answer: Answer::Text("good 4 of 4\n"),
        notes: "",
        calls: (3, 2, 1, 0),
    },
    Run {
        line: "classes images=3 end=2 --",
        images: &[],
        placed: &[],
        plan: "0 5:ls:none:1:0:0,1,2\nnext 1 of 6\n",
        status: 0,
        answer: Answer::Text("0 5:ls:none:1:0:0,1,2\nclasses 1 of 1\n"),
        notes: "",
        calls: (0, 2, 1, 0),
    },
    Run {
        line: "sample number=7 set=5:ls:none:8:0:0,1,2 rows=2 --",
        images: &[],
        placed: &[],
        plan: "",
        status: 0,
        answer: Answer::Text(
            "images 3\nsectors 16\nmarks 0\ntotal 1296\nfound yes\nnext 1296 of 1296\n",
        ),
        notes: "",
        calls: (0, 0, 1, 0),
    },
];

/// Fails each call of an object in turn, at least this number of them.
fn many_calls<R: Threads + Sync + Abort>(
    rt: &R,
    alloc: Global,
    run: &Run,
    object: Object,
    least: u64,
) -> Result<(), Fail> {
    let calls = each_call(rt, alloc, run, object)?;
    assert!(rt; least <= calls && calls < MANY, "{}", run.line);
    Ok(())
}

/// Fails each call of an object in turn, exactly this number of them.
fn few_calls<R: Threads + Sync + Abort>(
    rt: &R,
    alloc: Global,
    run: &Run,
    object: Object,
    number: u64,
) -> Result<(), Fail> {
    let calls = each_call(rt, alloc, run, object)?;
    assert_eq!(rt; calls, number, "{}", run.line);
    Ok(())
}

/// Fails each call of each object in turn.
fn each_object<R: Threads + Sync + Abort>(rt: &R, alloc: Global, run: &Run) -> Result<(), Fail> {
    let (images, plan, out, notes) = run.calls;
    many_calls(rt, alloc, run, Object::Images, images)?;
    many_calls(rt, alloc, run, Object::Plan, plan)?;
    few_calls(rt, alloc, run, Object::Out, out)?;
    few_calls(rt, alloc, run, Object::Notes, notes)
}

#[test]
fn each_call_that_fails_has_its_status(rt: HostRuntime) -> Result<(), Fail> {
    for run in &RUNS {
        each_object(&rt, rt.alloc(), run)?;
    }
    Ok(())
}

/// The first listing.
const FIRST: &str = "list size=10 -- a b c";

/// The first listing with the plan in pieces of seven bytes, where this call of its source fails.
fn listed_in_pieces<R: Threads + Sync>(
    rt: &R,
    alloc: Global,
    call: u64,
) -> Result<(u8, Objects), Memory> {
    let words = words_of(alloc, FIRST)?;
    let contents = images_of(alloc, STRIPES)?;
    let fault = Fault {
        object: Object::Plan,
        call,
        taken: 0,
    };
    let mut met = ready_to_fail(alloc, &words, &contents, PLAN.as_bytes(), fault)?;
    let status = run_in_pieces(rt, alloc, &words, &mut met, 7)?;
    Ok((status, met))
}

/// What a listing leaves where its source fails.
const PLAN_FAULT: End = End {
    status: 11,
    out: b"",
    notes: b"reraid: plan read fault\n",
};

/// Runs the first listing in pieces, where this call of its source fails, and compares what it leaves.
fn check_pieces<R: Threads + Sync + Abort>(
    rt: &R,
    alloc: Global,
    call: u64,
    end: &End,
) -> Result<(), Fail> {
    let (status, met) = listed_in_pieces(rt, alloc, call)?;
    compare(rt, status, &met, end, FIRST);
    Ok(())
}

// A text of 193 bytes is 28 pieces of seven, and one more call sees its end.
#[test]
fn each_piece_of_a_plan_may_fail(rt: HostRuntime) -> Result<(), Fail> {
    for call in 1..30 {
        check_pieces(&rt, rt.alloc(), call, &PLAN_FAULT)?;
    }
    let listed = End {
        status: 0,
        out: LISTING.as_bytes(),
        notes: b"",
    };
    check_pieces(&rt, rt.alloc(), 30, &listed)
}

/// The most bytes of a plan.
const LONGEST: usize = 4_194_304;

/// The status of a listing over a plan of `length` bytes, whose source gives one byte at a time. The call after the one that sees the
/// end, or after the one that takes a byte too many, fails.
fn status_of_long<R: Threads + Sync>(rt: &R, alloc: Global, length: usize) -> Result<u8, Memory> {
    let words = words_of(alloc, "list -- a b c")?;
    let fault = Fault {
        object: Object::Plan,
        call: 4_194_306,
        taken: 0,
    };
    let plan = vec![in alloc; b'x'; length].map_err(|_| Memory)?;
    let mut met = ready_to_fail(alloc, &words, &[], &plan, fault)?;
    run_in_pieces(rt, alloc, &words, &mut met, 1)
}

// Of a source that gives one byte at a time as many bytes are taken as a plan may have, and then one more, or its end
// is seen. No further call is made: it would fail.
#[test]
fn a_source_is_asked_once_more_than_a_plan_is_long(rt: HostRuntime) -> Result<(), Fail> {
    assert_eq!(rt; status_of_long(&rt, rt.alloc(), LONGEST)?, 2);
    assert_eq!(rt; status_of_long(&rt, rt.alloc(), LONGEST + 1)?, 3);
    Ok(())
}

/// A volume, and a put of it that takes 100 bytes before it fails.
fn write_that_fails<R: Threads + Sync>(rt: &R, alloc: Global) -> Result<(u8, Objects), Memory> {
    let words = words_of(alloc, "write set=5:ls:none:1:0:0,1,2 -- a b c")?;
    let contents = images_of(alloc, STRIPES)?;
    let fault = Fault {
        object: Object::Out,
        call: 1,
        taken: 100,
    };
    let mut met = ready_to_fail(alloc, &words, &contents, b"", fault)?;
    let status = run_words(rt, alloc, &words, &mut met);
    Ok((status, met))
}

/// What it leaves.
const FRONT: End = End {
    status: 12,
    out: &[1; 100],
    notes: b"reraid: output fault\n",
};

// The first put of the volume begins with the sector of 01 of row 0.
#[test]
fn a_front_of_the_volume_may_be_written(rt: HostRuntime) -> Result<(), Fail> {
    let (status, met) = write_that_fails(&rt, rt.alloc())?;
    compare(&rt, status, &met, &FRONT, "write");
    Ok(())
}
