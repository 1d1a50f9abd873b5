//! That plans and sets are read and written, and at which line texts one step off are refused.
use arrayvec::ArrayVec;
use plan_text::{PlanFault, Text, read_plan, read_set, set_line, write_plan, write_set};
use raid_params::{Geometry, Head, Level, Pattern, Syndrome, Wide};
use search_plan::Plan;
use std::alloc::Global;
use std::process::Abort;
use std::test::Fail;

/// The lines before `badrows` of a plan over three images of two sectors: fifteen.
const FRONT: &[u8] =
    b"reraid-plan 1\nimages 3\nlength 2\nlength 2\nlength 2\nend 2\nlevels 5\nmembers 3\npatterns ls\nsyndromes none\nchunks 1\noffsets 0\norigins 0\nmissing 0\nforeign 0\n";

const BADROWS: &[u8] = b"badrows 0\n";

const WINDOW: &[u8] = b"window 2\n";

const TESTS: &[u8] = b"misfits 0\nleast 1\n";

const DONE: &[u8] = b"done\n";

/// A plan with each kind of group, mark and rule.
const MARKED: &[u8] =
    b"reraid-plan 1\nimages 2\nlength 70000\nlength 65536\nend 65536\nlevels 0,5,6\nmembers 2,3\npatterns plain,la,parity-first-6\nsyndromes none,by-slot\nchunks 8,128\noffsets 0,2048\norigins 0,2048\nmissing 1\nforeign 0\nbadrows 3\nwindow 64\nmisfits 2\nleast 0\ngroup gpt\nmark gpt 1 0 at:1\ngroup ntfs\nmark boot 0 5 either:0:65535\nmark record 1 5 either:32:33\ngroup xfs\ngroup xfs\nmark super 0 0 every:4096:4:0\nmark agf 1 1 at:1\nmark agi 0 2 at:2\ndone\n";

/// Compares what is read of it.
fn compare_marked<R: Abort>(rt: &R, plan: &Plan) {
    assert_eq!(rt;
        (plan.limits.window, plan.tests.misfits, plan.tests.least),
        (64, 2, 0)
    );
    assert_eq!(rt; plan.groups.as_slice().len(), 4);
}

#[test]
fn a_plan_is_read_and_written(rt: HostRuntime) -> Result<(), Fail> {
    let plan = read_plan(rt.alloc(), MARKED)?;
    compare_marked(&rt, &plan);
    let text = write_plan(rt.alloc(), &plan)?;
    assert_eq!(rt; text.as_slice(), MARKED);
    Ok(())
}

/// Why the joined parts are no plan.
fn fault(alloc: Global, parts: &[&[u8]]) -> Result<Option<PlanFault>, Fail> {
    let mut text = Vec::new(alloc);
    for part in parts {
        text.extend_from_slice(part)?;
    }
    Ok(read_plan(alloc, &text).err())
}

/// Parts of a text, and the line at which it is refused.
type Refused = (&'static [&'static [u8]], u64);

/// Reads texts that are refused, and compares the lines.
fn check_all<R: Abort>(rt: &R, alloc: Global, texts: &[Refused]) -> Result<(), Fail> {
    for (parts, line) in texts {
        assert_eq!(rt; fault(alloc, parts)?, Some(PlanFault::Line(*line)));
    }
    Ok(())
}

/// Numbers out of range.
static OUT_OF_RANGE: [Refused; 3] = [
    (
        &[FRONT, b"badrows 36028797018963968\n", WINDOW, TESTS, DONE],
        16,
    ),
    (&[FRONT, BADROWS, b"window 0\n", TESTS, DONE], 17),
    (
        &[
            FRONT,
            BADROWS,
            WINDOW,
            TESTS,
            b"group xfs\nmark super 0 0 every:18014398509481984:2:0\n",
            DONE,
        ],
        21,
    ),
];

#[test]
fn numbers_out_of_range_are_refused_at_their_line(rt: HostRuntime) -> Result<(), Fail> {
    check_all(&rt, rt.alloc(), &OUT_OF_RANGE)
}

#[test]
fn a_text_is_a_plan(rt: HostRuntime) -> Result<(), Fail> {
    let found = fault(rt.alloc(), &[FRONT, BADROWS, WINDOW, TESTS, DONE])?;
    assert!(rt; found.is_none());
    Ok(())
}

/// What follows the first fourteen bytes of `FRONT`, its first line.
const PAST_FIRST: &[u8] =
    b"images 3\nlength 2\nlength 2\nlength 2\nend 2\nlevels 5\nmembers 3\npatterns ls\nsyndromes none\nchunks 1\noffsets 0\norigins 0\nmissing 0\nforeign 0\n";

/// Texts that are one step off.
static ONE_STEP_OFF: [Refused; 4] = [
    (&[], 1),
    (
        &[
            b"reraid-plan 1\r\n",
            PAST_FIRST,
            BADROWS,
            WINDOW,
            TESTS,
            DONE,
        ],
        1,
    ),
    (&[FRONT, BADROWS, WINDOW, TESTS, b"done"], 20),
    (&[FRONT, BADROWS, WINDOW, TESTS, DONE, b"\n"], 21),
];

#[test]
fn texts_one_step_off_are_refused_at_their_line(rt: HostRuntime) -> Result<(), Fail> {
    check_all(&rt, rt.alloc(), &ONE_STEP_OFF)
}

/// The lines before the groups of a plan over one image: seventeen.
const ONE_IMAGE: &[u8] =
    b"reraid-plan 1\nimages 1\nlength 70000\nend 65536\nlevels 0\nmembers 2\npatterns plain\nsyndromes none\nchunks 8\noffsets 0\norigins 0\nmissing 1\nforeign 0\nbadrows 0\nwindow 1\nmisfits 0\nleast 1\n";

/// A plan with a group of 4,097 marks, without its end.
fn many_marks(alloc: Global) -> Result<Text, Fail> {
    let mut text = Text::new(alloc);
    text.extend_from_slice(ONE_IMAGE)?;
    text.extend_from_slice(b"group xfs\n")?;
    for sector in 0..4097u64 {
        let line = format!(in alloc; "mark agf 0 {sector} at:0\n")?;
        text.extend_from_slice(line.as_bytes())?;
    }
    Ok(text)
}

#[test]
fn one_mark_too_many_is_refused_at_its_line(rt: HostRuntime) -> Result<(), Fail> {
    let text = many_marks(rt.alloc())?;
    let fault = read_plan(rt.alloc(), text.as_slice()).err();
    assert_eq!(rt; fault, Some(PlanFault::Line(18 + 4097)));
    Ok(())
}

/// Four members, of which the first is missing.
fn one_missing() -> Wide {
    let mut slots = ArrayVec::new();
    slots.push(None);
    slots.push(Some(11));
    slots.push(Some(0));
    slots.push(Some(3));
    let head = Head {
        level: Level::Raid6,
        members: 4,
        pattern: Pattern::NRestart,
        delay: 1,
        syndrome: Syndrome::BySlot,
        chunk: 128,
        offset: 2048,
    };
    Wide {
        geo: Geometry { head, slots },
        bases: ArrayVec::new(),
    }
}

#[test]
fn a_set_is_written_with_its_rank(rt: HostRuntime) -> Result<(), Fail> {
    let line = set_line(rt.alloc(), 907, &one_missing())?;
    assert_eq!(rt;
        line.as_slice(),
        b"907 6:n-restart:by-slot:128:2048:-,11,0,3\n".as_slice()
    );
    Ok(())
}

#[test]
fn a_set_is_written(rt: HostRuntime) -> Result<(), Fail> {
    let word = write_set(rt.alloc(), &one_missing())?;
    assert_eq!(rt;
        word.as_slice(),
        b"6:n-restart:by-slot:128:2048:-,11,0,3".as_slice()
    );
    Ok(())
}

fn is_one_missing(geo: &Geometry) -> bool {
    matches!(geo.head.level, Level::Raid6)
        && geo.head.members == 4
        && matches!(geo.head.pattern, Pattern::NRestart)
        && matches!(geo.head.syndrome, Syndrome::BySlot)
        && geo.head.chunk == 128
        && geo.head.offset == 2048
        && geo.slots.as_slice() == [None, Some(11), Some(0), Some(3)].as_slice()
}

#[test]
fn a_set_is_read(rt: HostRuntime) -> Result<(), Fail> {
    let read = read_set(b"6:n-restart:by-slot:128:2048:-,11,0,3");
    assert!(rt; read.is_some_and(|set| set.bases.is_empty() && is_one_missing(&set.geo)));
    Ok(())
}

/// The words of the sets of three images in three slots, and of sets whose parity stays for some rows.
static ORDERS: [&[u8]; 9] = [
    b"5:ls:none:1:0:0,1,2",
    b"5:ls:none:1:0:0,2,1",
    b"5:ls:none:1:0:1,0,2",
    b"5:ls:none:1:0:1,2,0",
    b"5:ls:none:1:0:2,0,1",
    b"5:ls:none:1:0:2,1,0",
    b"5:la*16:none:128:2048:0,1,2",
    b"5:parity-last*2:none:1:0:0,1,2",
    b"6:ls-6*4294967295:by-data:8:0:0,-,1,2",
];

/// The word of the set that a word stands for.
fn written_again(alloc: Global, word: &[u8]) -> Result<Option<Text>, Fail> {
    match read_set(word) {
        Some(set) => Ok(Some(write_set(alloc, &set)?)),
        None => Ok(None),
    }
}

#[test]
fn sets_are_written_as_they_were_read(rt: HostRuntime) -> Result<(), Fail> {
    for word in &ORDERS {
        let again = written_again(rt.alloc(), word)?;
        assert!(rt; again.is_some_and(|text| text.as_slice() == *word));
    }
    Ok(())
}

/// Words that are no sets.
static OTHER_WORDS: [&[u8]; 16] = [
    b"5:ls:none:0128:0:0,1,2",
    b"5:ls:none:4294967296:0:0,1,2",
    b"5:ls:none:128:0:0,1,24",
    b"5:ls:none:128:0:-,-,-,-,-,-,-,-,-,-,-,-,-,-,-,-,-,-,-,-,-,-,-,-,-",
    b"5:ls:none:128:0:",
    b"5:ls:none:128:0:0,1,2 ",
    b"5:left:none:128:0:0,1,2",
    b"5:la*1:none:128:0:0,1,2",
    b"5:la*0:none:128:0:0,1,2",
    b"5:la*:none:128:0:0,1,2",
    b"5:la*016:none:128:0:0,1,2",
    b"5:la*4294967296:none:128:0:0,1,2",
    b"5:la**16:none:128:0:0,1,2",
    b"5:la*16*2:none:128:0:0,1,2",
    b"5:*16:none:128:0:0,1,2",
    b"5:la *16:none:128:0:0,1,2",
];

#[test]
fn a_set_has_its_delay(rt: HostRuntime) -> Result<(), Fail> {
    let read = read_set(b"5:la*16:none:128:2048:0,1,2");
    assert!(rt;
        read.is_some_and(|set| set.geo.head.delay == 16
            && matches!(set.geo.head.pattern, Pattern::La))
    );
    let read = read_set(b"5:la:none:128:2048:0,1,2");
    assert!(rt; read.is_some_and(|set| set.geo.head.delay == 1));
    Ok(())
}

#[test]
fn other_words_are_refused(rt: HostRuntime) -> Result<(), Fail> {
    for word in &OTHER_WORDS {
        assert!(rt; read_set(word).is_none());
    }
    Ok(())
}
