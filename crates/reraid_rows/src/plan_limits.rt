//! Plans at both sides of each limit.
use crate::objects::images_of;
use crate::plans::with_line;
use crate::rows::{End, STRIPES, ends_so, run};
use outside::Memory;
use std::alloc::Global;
use std::process::Abort;
use std::test::Fail;
use std::thread::Threads;

/// Other texts for a line of the first plan, and the line that is refused with it, or 0.
static LINES: [(usize, &str, u64); 91] = [
    (1, "reraid-plan 2", 0),
    (1, "reraid-plan 3", 2),
    (1, "reraid-plan 3\nmode common", 21),
    (1, "reraid-plan 4", 1),
    (1, "reraid-plan 1\r", 1),
    (2, "images 0", 2),
    (2, "images 25", 2),
    (2, "images 03", 2),
    // a plan of one image has its end after one length, and a plan of 24 after 24
    (2, "images 1", 4),
    (2, "images 24", 6),
    (3, "length 36028797018963967", 0),
    (3, "length 36028797018963968", 3),
    (3, "length 18446744073709551616", 3),
    (3, "length 0", 6),
    (6, "end 0", 0),
    (6, "end 2", 0),
    (6, "end 3", 6),
    (7, "levels 0,5,6", 0),
    (7, "levels 1", 7),
    (7, "levels 5,0", 7),
    (7, "levels 5,5", 7),
    (7, "levels ", 7),
    (8, "members 2,24", 0),
    (8, "members 1", 8),
    (8, "members 25", 8),
    (8, "members 3,2", 8),
    (
        9,
        "patterns plain,la,ra,ls,rs,parity-first,parity-last,n-restart,n-continue,la-6,ra-6,ls-6,rs-6,parity-first-6",
        0,
    ),
    (9, "patterns ls,la", 9),
    (9, "patterns ls,ls", 9),
    (9, "patterns parity-last-6", 9),
    (10, "syndromes none,after-q,by-data,by-slot", 0),
    (10, "syndromes by-slot,none", 10),
    (
        11,
        "chunks 1,2,4,8,16,32,64,128,256,512,1024,2048,4096,8192,16384,32768",
        0,
    ),
    (11, "chunks 0", 11),
    (11, "chunks 3", 11),
    (11, "chunks 2,1", 11),
    (11, "chunks 65536", 11),
    (12, "offsets 0,36028797018963967", 0),
    (12, "offsets 36028797018963968", 12),
    (12, "offsets 1,0", 12),
    (
        12,
        "offsets 0,1,2,3,4,5,6,7,8,9,10,11,12,13,14,15,16,17,18,19,20,21,22,23,24,25,26,27,28,29,30,31,32,33,34,35,36,37,38,39,40,41,42,43,44,45,46,47,48,49,50,51,52,53,54,55,56,57,58,59,60,61,62,63",
        0,
    ),
    (
        12,
        "offsets 0,1,2,3,4,5,6,7,8,9,10,11,12,13,14,15,16,17,18,19,20,21,22,23,24,25,26,27,28,29,30,31,32,33,34,35,36,37,38,39,40,41,42,43,44,45,46,47,48,49,50,51,52,53,54,55,56,57,58,59,60,61,62,63,64",
        12,
    ),
    (13, "origins 0,36028797018963967", 0),
    (13, "origins 36028797018963968", 13),
    (
        13,
        "origins 0,1,2,3,4,5,6,7,8,9,10,11,12,13,14,15,16,17,18,19,20,21,22,23,24,25,26,27,28,29,30,31,32,33,34,35,36,37,38,39,40,41,42,43,44,45,46,47,48,49,50,51,52,53,54,55,56,57,58,59,60,61,62,63",
        0,
    ),
    (
        13,
        "origins 0,1,2,3,4,5,6,7,8,9,10,11,12,13,14,15,16,17,18,19,20,21,22,23,24,25,26,27,28,29,30,31,32,33,34,35,36,37,38,39,40,41,42,43,44,45,46,47,48,49,50,51,52,53,54,55,56,57,58,59,60,61,62,63,64",
        13,
    ),
    (14, "missing 2", 0),
    (14, "missing 3", 14),
    (15, "foreign 24", 0),
    (15, "foreign 25", 15),
    (16, "badrows 36028797018963967", 0),
    (16, "badrows 36028797018963968", 16),
    (17, "window 1", 0),
    (17, "window 0", 17),
    (17, "window 36028797018963967", 0),
    (17, "window 36028797018963968", 17),
    (18, "misfits 36028797018963967", 0),
    (18, "misfits 36028797018963968", 18),
    (19, "least 36028797018963967", 0),
    (19, "least 36028797018963968", 19),
    (19, "least  1", 19),
    (19, "least +1", 19),
    (19, "least 1 ", 19),
    (19, "least 1\r", 19),
    (19, "least\t1", 19),
    (19, "LEAST 1", 19),
    (19, "", 19),
    (20, "Done", 20),
    (20, "done ", 20),
    (20, "done\n", 21),
    (20, "done\ndone", 21),
    (20, "group gpt\ndone", 0),
    (20, "group gpt\ngroup gpt\ndone", 21),
    (20, "group ntfs\ngroup gpt\ndone", 21),
    (20, "group xfs\ngroup ntfs\ndone", 21),
    (20, "group gpt\ngroup ntfs\ngroup xfs\ndone", 0),
    (20, "group ext4\ndone", 20),
    (20, "group gpt ntfs\ndone", 20),
    (20, "mark gpt 0 0 at:0\ndone", 20),
    (20, "group gpt\nmark boot 0 0 at:0\ndone", 21),
    (20, "group ntfs\nmark super 0 0 at:0\ndone", 21),
    (
        20,
        "group xfs\nmark agf 0 0 at:0\nmark agi 0 1 at:0\ndone",
        0,
    ),
    (20, "group gpt\nmark gpt 2 1 at:0\ndone", 0),
    (20, "group gpt\nmark gpt 3 1 at:0\ndone", 21),
    (20, "group gpt\nmark gpt 2 2 at:0\ndone", 21),
    (
        20,
        "group gpt\nmark gpt 1 0 at:0\nmark gpt 2 0 at:0\ndone",
        0,
    ),
    (
        20,
        "group gpt\nmark gpt 2 0 at:0\nmark gpt 1 1 at:0\ndone",
        0,
    ),
    (
        20,
        "group gpt\nmark gpt 2 0 at:0\nmark gpt 1 0 at:0\ndone",
        22,
    ),
    (
        20,
        "group gpt\nmark gpt 1 0 at:0\nmark gpt 1 0 at:1\ndone",
        22,
    ),
    (20, "group gpt\nmark gpt 0 0\ndone", 21),
    (20, "group ntfs\nmark record 0 0 every:0:0:0\ndone", 0),
];

/// Rules of a mark in the place of the last line, and the line that is refused with each, or 0.
static RULES: [(&str, u64); 18] = [
    ("at:0", 0),
    ("at:36028797018963967", 0),
    ("at:36028797018963968", 21),
    ("at:1:2", 21),
    ("either:36028797018963967:36028797018963967", 0),
    ("either:0:36028797018963968", 21),
    ("either:0", 21),
    ("every:1:36028797018963967:0", 0),
    ("every:36028797018963967:1:0", 0),
    ("every:0:0:36028797018963967", 0),
    ("every:18014398509481983:2:1", 0),
    ("every:18014398509481983:2:2", 21),
    ("every:18014398509481984:2:0", 21),
    ("every:36028797018963967:36028797018963967:0", 21),
    ("every:36028797018963968:0:0", 21),
    ("every:0:36028797018963968:0", 21),
    ("every:0:0:36028797018963968", 21),
    ("every:0:0", 21),
];

/// Lists over a plan that is refused at this line.
fn refused<R: Threads + Sync + Abort>(
    rt: &R,
    alloc: Global,
    line: &str,
    contents: &[Vec<u8>],
    plan: &[u8],
    refused: u64,
) -> Result<(), Fail> {
    let noted = format!(in alloc; "reraid: plan line {refused} is not understood\n")?;
    let end = End {
        status: 2,
        out: b"",
        notes: noted.as_bytes(),
    };
    ends_so(rt, alloc, line, contents, plan, &end)
}

/// Lists over the first plan with another text in the place of a line, which is refused at this line, or read if that is 0.
fn limit<R: Threads + Sync + Abort>(
    rt: &R,
    alloc: Global,
    contents: &[Vec<u8>],
    number: usize,
    text: &str,
    line: u64,
) -> Result<(), Fail> {
    let plan = with_line(alloc, number, text)?;
    if line != 0 {
        return refused(rt, alloc, LIST, contents, &plan, line);
    }
    let (status, _) = run(rt, alloc, LIST, contents, &plan)?;
    assert!(rt; status == 0 || status == 4, "{text}");
    Ok(())
}

/// A listing over three images.
const LIST: &str = "list -- a b c";

// Where the text is a plan, a listing goes on to the images: to the lengths, which may differ, or to the end.
#[test]
fn plans_at_their_limits(rt: HostRuntime) -> Result<(), Fail> {
    let alloc = rt.alloc();
    let contents = images_of(alloc, STRIPES)?;
    for (number, text, line) in &LINES {
        limit(&rt, alloc, &contents, *number, text, *line)?;
    }
    for (rule, line) in &RULES {
        let text = format!(in alloc; "group gpt\nmark gpt 0 0 {rule}\ndone")?;
        limit(&rt, alloc, &contents, 20, text.as_str(), *line)?;
    }
    Ok(())
}

// A rule without a distance: no mark fits, and one has to.
#[test]
fn a_mark_may_lie_nowhere(rt: HostRuntime) -> Result<(), Fail> {
    let alloc = rt.alloc();
    let contents = images_of(alloc, STRIPES)?;
    let plan = with_line(alloc, 20, "group ntfs\nmark record 0 0 every:0:0:0\ndone")?;
    let end = End {
        status: 0,
        out: b"next 6 of 6\n",
        notes: b"",
    };
    ends_so(&rt, alloc, LIST, &contents, &plan, &end)
}

/// The lines of a plan over one image of 20,000 sectors, before its groups.
const BEFORE: &str =
    "reraid-plan 1\nimages 1\nlength 20000\nend 2\nlevels 5\nmembers 3\npatterns ls\nsyndromes none\nchunks 1\noffsets 0\norigins 0\nmissing 0\nforeign 0\nbadrows 0\nwindow 2\nmisfits 0\nleast 1\n";

/// How many lines they are.
const LINES_BEFORE: u64 = 17;

/// A plan that is being written.
fn begun(alloc: Global) -> Result<Vec<u8>, Memory> {
    BEFORE.as_bytes().to_vec(alloc).map_err(|_| Memory)
}

/// Appends `count` marks of a kind, one in each sector from `first` on.
fn push_marks(
    alloc: Global,
    plan: &mut Vec<u8>,
    kind: &str,
    first: u64,
    count: u64,
) -> Result<(), Memory> {
    for number in 0..count {
        let sector = first.saturating_add(number);
        let line = format!(in alloc; "mark {kind} 0 {sector} at:1\n").map_err(|_| Memory)?;
        push_text(plan, line.as_str())?;
    }
    Ok(())
}

/// Appends a text.
fn push_text(plan: &mut Vec<u8>, text: &str) -> Result<(), Memory> {
    plan.extend_from_slice(text.as_bytes()).map_err(|_| Memory)
}

/// The line of a group, or the kind of marks with the first sector.
type Part = (&'static str, Option<u64>);

/// The groups of a plan, each with its marks, up to those of the last kind.
const PARTS: [Part; 8] = [
    ("group gpt\n", None),
    ("gpt", Some(0)),
    ("group ntfs\n", None),
    ("boot", Some(0)),
    ("record", Some(4096)),
    ("group xfs\n", None),
    ("super", Some(0)),
    ("agf", Some(4096)),
];

/// A plan with 4,096 marks of each kind, and `more` further marks of the last kind.
fn marked(alloc: Global, more: u64) -> Result<Vec<u8>, Memory> {
    let mut plan = begun(alloc)?;
    for (text, first) in &PARTS {
        match first {
            None => push_text(&mut plan, text)?,
            Some(sector) => push_marks(alloc, &mut plan, text, *sector, 4096)?,
        }
    }
    push_marks(alloc, &mut plan, "agi", 8192, more.saturating_add(4096))?;
    push_text(&mut plan, "done\n")?;
    Ok(plan)
}

/// A plan with `ntfs` groups of NTFS and `xfs` groups of XFS, without marks.
fn grouped(alloc: Global, ntfs: u64, xfs: u64) -> Result<Vec<u8>, Memory> {
    let mut plan = begun(alloc)?;
    for _ in 0..ntfs {
        push_text(&mut plan, "group ntfs\n")?;
    }
    for _ in 0..xfs {
        push_text(&mut plan, "group xfs\n")?;
    }
    push_text(&mut plan, "done\n")?;
    Ok(plan)
}

const LENGTHS_DIFFER: &str = "reraid: images: length 0 given 2 planned 20000\n";

/// Lists over one image and a plan that is refused at this line, or read if that is 0.
fn listed<R: Threads + Sync + Abort>(
    rt: &R,
    alloc: Global,
    plan: &[u8],
    line: u64,
) -> Result<(), Fail> {
    let contents = images_of(alloc, &[&[0, 0]])?;
    if line != 0 {
        return refused(rt, alloc, "list -- a", &contents, plan, line);
    }
    let end = End {
        status: 4,
        out: b"",
        notes: LENGTHS_DIFFER.as_bytes(),
    };
    ends_so(rt, alloc, "list -- a", &contents, plan, &end)
}

/// How many marks more than 4,096 a plan has of its last kind, and the line after the last that may stand, which is refused, or 0
/// where the plan is read: 17 lines, three of groups, 24,576 marks, and one more.
const MARKED: [(u64, u64); 2] = [(0, 0), (1, LINES_BEFORE + 3 + 24_576 + 1)];

#[test]
fn marks_at_their_limits(rt: HostRuntime) -> Result<(), Fail> {
    for (more, line) in MARKED {
        let plan = marked(rt.alloc(), more)?;
        listed(&rt, rt.alloc(), &plan, line)?;
    }
    Ok(())
}

/// How many groups of NTFS and of XFS a plan has, and the line after the last that may stand, which is refused, or 0 where the plan
/// is read: 17 lines and 33 groups; 17 lines, 32 groups, and 33.
const GROUPED: [(u64, u64, u64); 3] = [
    (32, 32, 0),
    (33, 0, LINES_BEFORE + 33),
    (32, 33, LINES_BEFORE + 32 + 33),
];

#[test]
fn groups_at_their_limits(rt: HostRuntime) -> Result<(), Fail> {
    for (ntfs, xfs, line) in GROUPED {
        let plan = grouped(rt.alloc(), ntfs, xfs)?;
        listed(&rt, rt.alloc(), &plan, line)?;
    }
    Ok(())
}
