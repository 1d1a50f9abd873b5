//! Lines of words, refused and not.
use crate::objects::{Objects, ready, run_words};
use crate::rows::{End, compare, ends_so, run};
use outside::Memory;
use std::alloc::Global;
use std::process::Abort;
use std::test::Fail;
use std::thread::Threads;

/// Lines with their refused words, counted from 1, or 0 where they are command lines. A refused word is the first with which no
/// command line goes on, or the one after the last where all of them begin one.
static LINES: [(&str, u64); 132] = [
    // no command, or another spelling of one
    ("", 1),
    (" list -- a", 1),
    ("reraid list -- a", 1),
    ("Survey -- a", 1),
    ("checks set=0:plain:none:1:0:0,1 -- a", 1),
    ("--h", 1),
    ("helps", 1),
    ("--", 1),
    ("--versions", 1),
    // words that ask for something alone
    ("--help", 0),
    ("-h", 0),
    ("help", 0),
    ("-h x", 1),
    ("help list", 1),
    ("--version", 0),
    ("--help ", 1),
    ("--version -- a", 1),
    // lines that end too early
    ("list", 2),
    ("survey", 2),
    ("map", 2),
    ("survey levels=0", 3),
    ("list from=0 size=1 span=1 pages=1 form=text", 7),
    ("map set=0:plain:none:1:0:0,1 sector=0", 4),
    ("rebuild set=0:plain:none:1:0:0,1", 3),
    ("sample number=1", 3),
    (
        "sample number=1 set=5:ls:none:8:0:0,1,2 rows=1 marks=xfs",
        6,
    ),
    // no operands, and those of another command
    ("list a", 2),
    ("list = -- a", 2),
    ("list from -- a", 2),
    ("list from= -- a", 2),
    ("list from=1,2 -- a", 2),
    ("list From=1 -- a", 2),
    ("list  from=1 -- a", 2),
    ("list end=1 -- a", 2),
    ("check end=1 set=0:plain:none:1:0:0,1 -- a", 2),
    ("write slot=0 set=0:plain:none:1:0:0,1 -- a", 2),
    ("survey set=0:plain:none:1:0:0,1 -- a", 2),
    ("survey size=1 -- a", 2),
    ("map set=0:plain:none:1:0:0,1 from=0 -- a", 3),
    // classes of listed sets
    ("classes images=1 end=0 --", 0),
    ("classes images=1 --", 3),
    ("classes end=0 --", 3),
    ("classes images=0 end=0 --", 2),
    ("classes images=25 end=0 --", 2),
    ("classes images=1 end=0 -- a", 5),
    // one operand twice
    ("list from=1 from=1 -- a", 3),
    ("list size=2 size=3 -- a", 3),
    ("survey end=1 window=1 end=1 -- a", 4),
    (
        "check set=0:plain:none:1:0:0,1 set=0:plain:none:1:0:0,1 -- a",
        3,
    ),
    // an operand that is not given
    ("check -- a", 2),
    ("map -- a", 2),
    ("map sector=0 -- a", 3),
    ("map set=0:plain:none:1:0:0,1 -- a", 3),
    ("map end=1 sector=0 -- a", 4),
    ("write -- a", 2),
    ("write end=1 -- a", 3),
    ("rebuild slot=1 -- a", 3),
    ("rebuild end=1 set=5:ls:none:1:0:0,1,- -- a", 4),
    ("sample set=5:ls:none:8:0:0,1,2 rows=1 --", 4),
    ("sample number=1 rows=1 --", 4),
    ("sample number=1 set=5:ls:none:8:0:0,1,2 --", 4),
    // names after a sample
    ("sample number=1 set=5:ls:none:8:0:0,1,2 rows=1 -- a", 6),
    ("sample number=1 set=5:ls:none:8:0:0,1,2 rows=1 -- --", 6),
    ("sample number=1 set=5:ls:none:8:0:0,1,2 rows=1 -- ", 6),
    // numbers at their limits
    ("list from=18446744073709551615 -- a", 0),
    ("list from=18446744073709551616 -- a", 2),
    ("list from=00 -- a", 2),
    ("list size=1000000 -- a", 0),
    ("list size=1000001 -- a", 2),
    ("list size=0 -- a", 2),
    ("list span=18446744073709551615 -- a", 0),
    ("list span=18446744073709551616 -- a", 2),
    ("list span=0 -- a", 2),
    ("list pages=1000001 -- a", 2),
    ("list pages=1000001 size=1 -- a", 2),
    ("list pages=0 -- a", 2),
    ("list form=TEXT -- a", 2),
    ("list form=text,json -- a", 2),
    (
        "map sector=18446744073709551615 set=0:plain:none:1:0:0,1 -- a",
        0,
    ),
    (
        "map sector=18446744073709551616 set=0:plain:none:1:0:0,1 -- a",
        2,
    ),
    (
        "map end=36028797018963967 sector=0 set=0:plain:none:1:0:0,1 -- a",
        0,
    ),
    (
        "map end=36028797018963968 sector=0 set=0:plain:none:1:0:0,1 -- a",
        2,
    ),
    ("rebuild slot=23 set=5:ls:none:1:0:0,1,- -- a", 0),
    ("rebuild slot=24 set=5:ls:none:1:0:0,1,- -- a", 2),
    ("rebuild slot=- set=5:ls:none:1:0:0,1,- -- a", 2),
    (
        "sample number=18446744073709551616 set=5:ls:none:8:0:0,1,2 rows=1 --",
        2,
    ),
    ("sample number=1 set=5:ls:none:8:0:0,1,2 rows=0 --", 4),
    ("sample number=1 set=5:ls:none:8:0:0,1,2 rows=65537 --", 4),
    (
        "sample rows=1 marks=gpt number=1 set=5:ls:none:8:0:0,1,2 --",
        3,
    ),
    (
        "sample rows=65536 marks=none number=1 set=5:ls:none:3:0:0,1,2 --",
        0,
    ),
    // pages that are longer than 4,000,000 lines, with the size that is not given being 100
    ("list size=1000000 pages=4 -- a", 0),
    ("list size=1000000 pages=5 -- a", 3),
    ("list pages=5 size=1000000 -- a", 3),
    ("list size=4 pages=1000000 -- a", 0),
    ("list size=5 pages=1000000 -- a", 3),
    ("list pages=1000000 -- a", 3),
    ("list pages=40000 -- a", 0),
    ("list pages=40001 -- a", 3),
    ("list pages=40001", 3),
    ("list pages=40001 form=text -- a", 4),
    ("list pages=40001 size=100 -- a", 3),
    ("list pages=40001 size=99 -- a", 0),
    // set words
    ("check set=0:plain:none:0:0:- -- a", 0),
    (
        "check set=6:parity-first-6:by-slot:4294967295:36028797018963967:0,23,-,0,0,0,0,0,0,0,0,0,0,0,0,0,0,0,0,0,0,0,0,0 -- a",
        0,
    ),
    (
        "check set=6:parity-first-6:by-slot:4294967295:36028797018963967:0,23,-,0,0,0,0,0,0,0,0,0,0,0,0,0,0,0,0,0,0,0,0,0,0 -- a",
        2,
    ),
    ("check set=1:plain:none:1:0:0,1 -- a", 2),
    ("check set=0:raid0:none:1:0:0,1 -- a", 2),
    ("check set=0:plain:no:1:0:0,1 -- a", 2),
    ("check set=0:plain:none:4294967296:0:0,1 -- a", 2),
    ("check set=0:plain:none:1:36028797018963968:0,1 -- a", 2),
    ("check set=0:plain:none:1:0:24,1 -- a", 2),
    ("check set=0:plain:none:1:0:0,,1 -- a", 2),
    ("check set=0:plain:none:1:0: -- a", 2),
    ("check set=0:plain:none:1:0 -- a", 2),
    ("check set=0:plain:none:1:0:0,1: -- a", 2),
    ("check set=00:plain:none:1:0:0,1 -- a", 2),
    // lists of a survey
    (
        "survey kinds=gpt,ntfs,xfs levels=0,5,6 members=2,3,24 -- a",
        0,
    ),
    ("survey kinds=ntfs,gpt -- a", 2),
    ("survey chunks=1,2,3 -- a", 2),
    ("survey members=25 -- a", 2),
    ("survey foreign=24 -- a", 0),
    ("survey foreign=25 -- a", 2),
    ("survey drop=0:1,0:2,1:0,23:36028797018963967 -- a", 0),
    ("survey drop=24:0 -- a", 2),
    ("survey drop=0:2,0:1 -- a", 2),
    // a survey for images with offsets of their own
    ("survey mode=each foreign=1 -- a", 3),
    ("survey foreign=1 mode=each -- a", 3),
    ("survey mode=each offsets=18014398509481984 -- a", 3),
    (
        "survey mode=each offsets=18014398509481983 logical=4096 -- a",
        0,
    ),
    // after the mark every word is a name
    ("list -- -- size=1 ", 0),
    ("list --", 0),
    ("survey --", 0),
];

/// Runs a line, and compares the word that it is refused at.
fn check<R: Threads + Sync + Abort>(
    rt: &R,
    alloc: Global,
    line: &str,
    refused: u64,
) -> Result<(), Fail> {
    if refused == 0 {
        return accepted(rt, alloc, line);
    }
    let noted = format!(in alloc; "reraid: word {refused} is not understood\n")?;
    let end = End {
        status: 1,
        out: b"",
        notes: noted.as_bytes(),
    };
    ends_so(rt, alloc, line, &[], b"", &end)
}

/// Runs a line that is not refused at a word.
fn accepted<R: Threads + Sync + Abort>(rt: &R, alloc: Global, line: &str) -> Result<(), Fail> {
    let (status, _) = run(rt, alloc, line, &[], b"")?;
    assert_ne!(rt; status, 1, "{line}");
    Ok(())
}

/// A run of no words.
fn without_words<R: Threads + Sync>(rt: &R, alloc: Global) -> Result<(u8, Objects), Memory> {
    let words = Vec::new(alloc);
    let mut met = ready(alloc, &words, &[], b"")?;
    let status = run_words(rt, alloc, &words, &mut met);
    Ok((status, met))
}

/// What it leaves.
const FIRST_WORD: End = End {
    status: 1,
    out: b"",
    notes: b"reraid: word 1 is not understood\n",
};

#[test]
fn no_words_are_refused_at_the_first(rt: HostRuntime) -> Result<(), Fail> {
    let (status, met) = without_words(&rt, rt.alloc())?;
    compare(&rt, status, &met, &FIRST_WORD, "no words");
    Ok(())
}

#[test]
fn lines_are_refused_at_their_words(rt: HostRuntime) -> Result<(), Fail> {
    for (line, refused) in &LINES {
        check(&rt, rt.alloc(), line, *refused)?;
    }
    Ok(())
}

/// A survey with an operand that lists `count` numbers, each after the text `before`.
fn listed(alloc: Global, operand: &str, before: &str, count: u64) -> Result<String, Memory> {
    let mut line = String::new(alloc);
    line.push_str("survey ").map_err(|_| Memory)?;
    line.push_str(operand).map_err(|_| Memory)?;
    for number in 0..count {
        let comma = if number == 0 { "=" } else { "," };
        let element = format!(in alloc; "{comma}{before}{number}").map_err(|_| Memory)?;
        line.push_str(element.as_str()).map_err(|_| Memory)?;
    }
    line.push_str(" -- a").map_err(|_| Memory)?;
    Ok(line)
}

/// Operands that list numbers, with the text before each.
const LISTS: [(&str, &str); 3] = [("offsets", ""), ("origins", ""), ("drop", "0:")];

/// Checks a list of 64 elements, and one of 65.
fn check_list<R: Threads + Sync + Abort>(
    rt: &R,
    alloc: Global,
    operand: &str,
    before: &str,
) -> Result<(), Fail> {
    let most = listed(alloc, operand, before, 64)?;
    check(rt, alloc, most.as_str(), 0)?;
    let more = listed(alloc, operand, before, 65)?;
    check(rt, alloc, more.as_str(), 2)
}

#[test]
fn lists_have_64_elements_at_most(rt: HostRuntime) -> Result<(), Fail> {
    for (operand, before) in &LISTS {
        check_list(&rt, rt.alloc(), operand, before)?;
    }
    Ok(())
}
