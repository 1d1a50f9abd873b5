//! Command lines and the words at which they are refused, found by hand from the rules of the grammar.
use command_words::{Command, Form, RelationWords, SurveyWords, Word, read_words};
use near_mirror::{CopyLayout, Copying, NearSet};
use raid_params::{Bounds, Geometry, Level, Pattern, Syndrome, Wide};
use std::alloc::Global;
use std::process::Abort;
use std::test::Fail;

/// What the words of a line say. A space ends a word, so two beside each other have an empty word between
/// them.
fn read_text(alloc: Global, line: &str) -> Result<Result<Command, u64>, Fail> {
    let mut words = Vec::new(alloc);
    for text in line.split(' ') {
        words.push(Word::new(alloc, text)?)?;
    }
    Ok(read_words(&words))
}

/// The refused word of a line, or 0.
fn refused_word(alloc: Global, line: &str) -> Result<u64, Fail> {
    Ok(read_text(alloc, line)?.err().unwrap_or(0))
}

/// Lines with their refused words, counted from 1.
static REFUSED: [(&str, u64); 166] = [
    ("", 1),
    ("lists -- a", 1),
    ("LIST -- a", 1),
    ("-- a", 1),
    ("size=1 list -- a", 1),
    ("list", 2),
    ("survey", 2),
    ("list a -- a", 2),
    ("list  -- a", 2),
    ("list size -- a", 2),
    ("list =1 -- a", 2),
    ("list size= -- a", 2),
    ("list Size=1 -- a", 2),
    ("list size=0 -- a", 2),
    ("list size=01 -- a", 2),
    ("list size=+1 -- a", 2),
    ("list size=1000001 -- a", 2),
    ("list size=1=1 -- a", 2),
    ("list pages=0 -- a", 2),
    ("list pages=1000001 -- a", 2),
    ("list span=0 -- a", 2),
    ("list from=18446744073709551616 -- a", 2),
    (
        "list from=100000000000000000000000000000000000000000000000000000000001 -- a",
        2,
    ),
    ("list form=yaml -- a", 2),
    ("list set=0:plain:none:8:0:0,1 -- a", 2),
    ("list missing=1 -- a", 2),
    ("list size=2 size=3 -- a", 3),
    ("list size=2 size=2 -- a", 3),
    ("list form=json from=1 form=text -- a", 4),
    ("list size=10", 3),
    ("list size=10 form=text", 4),
    ("list pages=40001 -- a", 3),
    ("list pages=40001 form=text -- a", 4),
    ("list pages=40001 size=100 -- a", 3),
    ("list size=1000000 pages=5", 3),
    ("list size=1000000 pages=5 -- a", 3),
    ("list pages=5 from=1 size=800001 -- a", 4),
    ("check", 2),
    ("check -- a", 2),
    ("write -- a", 2),
    ("write end=4 -- a", 3),
    (
        "write set=0:plain:none:8:0:0,1 end=36028797018963968 -- a",
        3,
    ),
    ("write set=1:plain:none:8:0:0,1 -- a", 2),
    ("write set=0:plain:none:4294967296:0:0,1 -- a", 2),
    ("write set=0:plain:none:8:36028797018963968:0,1 -- a", 2),
    ("write set=0:plain:none:8:0+18014398509481984:0,1 -- a b", 2),
    ("write set=0:plain:none:8:0:0,24 -- a", 2),
    ("write set=0:plain:none:8:0: -- a", 2),
    ("map set=0:plain:none:8:0:0,1 -- a", 3),
    ("map sector=1 -- a", 3),
    ("map sector=-1 -- a", 2),
    ("rebuild set=0:plain:none:8:0:0,1 slot=24 -- a", 3),
    ("rebuild set=0:plain:none:8:0:0,1 -- a", 3),
    ("survey levels=5,0 -- a", 2),
    ("survey levels=5,5 -- a", 2),
    ("survey levels= -- a", 2),
    ("survey levels=4 -- a", 2),
    ("survey members=1 -- a", 2),
    ("survey members=25 -- a", 2),
    ("survey delays=0 -- a", 2),
    ("survey delays=1025 -- a", 2),
    ("survey delays=16,1 -- a", 2),
    ("survey delays=1,1 -- a", 2),
    ("survey delays=016 -- a", 2),
    (
        "survey delays=1,2,3,4,5,6,7,8,9,10,11,12,13,14,15,16,17 -- a",
        2,
    ),
    ("survey delays=1 delays=16 -- a", 3),
    ("mirrors delays=1 -- a", 2),
    ("write set=5:la*1:none:8:0:0,1,2 -- a", 2),
    ("survey chunks=0 -- a", 2),
    ("survey chunks=3 -- a", 2),
    ("survey chunks=65536 -- a", 2),
    ("survey offsets=36028797018963968 -- a", 2),
    ("survey missing=3 foreign=1 -- a", 2),
    ("survey foreign=25 -- a", 2),
    ("survey window=0 -- a", 2),
    ("survey kinds=xfs,gpt -- a", 2),
    ("survey drop=0:5,0:5 -- a", 2),
    ("survey drop=24:0 -- a", 2),
    ("survey kinds=lvm,btrfs -- a", 2),
    ("survey mode=own -- a", 2),
    ("survey logical=1024 -- a", 2),
    ("survey logical=0512 -- a", 2),
    ("list mode=common -- a", 2),
    ("survey mode=each foreign=1 -- a", 3),
    ("survey foreign=1 mode=each -- a", 3),
    ("survey foreign=1 logical=512 mode=each", 4),
    ("survey mode=each offsets=0,18014398509481984 -- a", 3),
    ("survey offsets=0,18014398509481984 mode=each -- a", 3),
    ("sample number=1 set=0:plain:none:8:0:0,1 rows=2 -- a", 6),
    ("mirror -- a", 1),
    ("mirrors missing=24 -- a", 2),
    ("mirrors pages=1 -- a", 2),
    ("mirrors form=text -- a", 2),
    ("mirrors levels=0 -- a", 2),
    ("mirrors set=near2:1:0:0,1 -- a b", 2),
    ("mirrors size=1000001 -- a", 2),
    ("mirrors chunks=1 offsets=36028797018963968 -- a", 3),
    ("mirrors members=1 -- a", 2),
    ("mirrors size=2", 3),
    ("mirrors layouts= -- a b", 2),
    ("mirrors layouts=near -- a b", 2),
    ("mirrors layouts=near1 -- a b", 2),
    ("mirrors layouts=near5 -- a b", 2),
    ("mirrors layouts=mid2 -- a b", 2),
    ("mirrors layouts=near2, -- a b", 2),
    ("mirrors layouts=near2,near2 -- a b", 2),
    ("mirrors layouts=far2,near2 -- a b", 2),
    ("mirrors layouts=offset2,far4 -- a b", 2),
    ("mirrors layouts=near2 layouts=far2 -- a b", 3),
    ("survey layouts=near2 -- a b", 2),
    ("mirrorwrite layouts=near2 -- a b", 2),
    ("mirrorwrite -- a b", 2),
    ("mirrorwrite set=5:ls:none:1:0:0,1,2 -- a b c", 2),
    ("mirrorwrite end=4 set=near2:1:0+0:0,1 -- a b", 3),
    ("write set=near2:1:0:0,1 -- a b", 2),
    ("mirrorwrite set=near2:1:0:0,1 set=near2:1:0:0,1 -- a b", 3),
    ("salvage -- a", 2),
    ("salvage form=lost end=8 -- a", 4),
    ("salvage form=text -- a", 2),
    ("salvage set=5:ls:none:1:0:0,1,2 form=json -- a b c", 3),
    ("salvage set=near2:1:0:0,1 -- a b", 2),
    ("salvage set=5:ls:none:1:0:0,1,2 slot=0 -- a b c", 3),
    ("list form=lost -- a", 2),
    ("relation -- a b", 1),
    ("relations", 2),
    ("relations from=0", 3),
    ("relations size=1 -- a b", 2),
    ("relations set=5:ls:none:1:0:0,1,2 -- a b", 2),
    ("relations step=0 -- a b", 2),
    ("relations step=36028797018963968 -- a b", 2),
    ("relations step=1 step=1 -- a b", 3),
    ("relations from=36028797018963968 -- a b", 2),
    ("relations end=36028797018963968 -- a b", 2),
    ("relations offsets= -- a b", 2),
    ("relations offsets=1,2 -- a b", 2),
    ("relations offsets=1+ -- a b", 2),
    ("relations offsets=1+02 -- a b", 2),
    ("relations offsets=1+36028797018963968 -- a b", 2),
    ("relations form=lost -- a b", 2),
    ("survey step=1 -- a", 2),
    ("survey offsets=1+2 -- a", 2),
    ("mirrors offsets=1+2 -- a b", 2),
    ("--help --", 1),
    ("--help a", 1),
    ("--help ", 1),
    ("--version --version", 1),
    ("--version from=1 -- a", 1),
    ("--helping", 1),
    ("-help", 1),
    ("-h --", 1),
    ("-h -h", 1),
    ("-h x", 1),
    ("-h ", 1),
    ("-H", 1),
    ("h", 1),
    ("--h", 1),
    ("help --", 1),
    ("help list", 1),
    ("help x", 1),
    ("help ", 1),
    ("helps", 1),
    ("Help", 1),
    ("list -h", 2),
    ("list help -- a", 2),
    ("list --help", 2),
    ("list from=1 --help -- a", 3),
];

/// Lines that are command lines.
static ACCEPTED: [&str; 59] = [
    "list --",
    "list -- a",
    "list -- -- a",
    "list -- size=0 size=0",
    "list --  a",
    "list form=json pages=1000000 size=4 span=1 from=18446744073709551615 -- a",
    "list size=1000000 pages=4 -- a",
    "list pages=40000 -- a",
    "list size=4 pages=1000000 -- a",
    "check set=5:ls:none:1:0:0,1,2 -- a b c",
    "check set=0:plain:none:0:0:- -- a",
    "check set=6:parity-first-6:by-slot:4294967295:36028797018963967:0,0,23 --",
    "map sector=18446744073709551615 set=5:ls:none:1:0:0 -- a",
    "map end=0 sector=0 set=0:la:after-q:1:0:0,1 -- a",
    "write set=5:ls:none:1:0:0,1,2 -- a b c",
    "write set=5:ls:none:1:1+0+0:0,1,2 -- a b c",
    "write end=36028797018963967 set=5:ls:none:1:0:0,1,2 -- a b c",
    "rebuild slot=23 set=5:ls:none:1:0:0,1,- -- a b",
    "sample rows=65536 set=5:ls:none:1:0:0,1,- number=0 --",
    "sample rows=1 marks=none set=5:ls:none:1:0:0,1,- number=18446744073709551615 --",
    "survey -- a",
    "survey --",
    "survey levels=0,6 members=2,24 patterns=plain,parity-first-6 syndromes=none,by-slot -- a",
    "survey chunks=1,32768 offsets=0,36028797018963967 origins=7 -- a",
    "survey missing=2 foreign=24 badrows=0 misfits=36028797018963967 least=0 -- a",
    "survey window=1 end=0 -- a",
    "survey window=36028797018963967 -- a",
    "survey kinds=gpt,xfs -- a",
    "survey kinds=ntfs -- a",
    "survey drop=0:5,0:6,23:0 -- a",
    "survey drop=1:36028797018963967,2:0 -- a",
    "survey kinds=gpt,ntfs,xfs,btrfs,lvm,ext -- a",
    "survey kinds=ext -- a",
    "survey mode=common foreign=1 offsets=18014398509481984 -- a",
    "survey offsets=0,18014398509481983 mode=each foreign=0 -- a",
    "survey logical=4096 mode=each -- a",
    "survey logical=512 -- a",
    "mirrors --",
    "mirrors -- a b",
    "mirrors layouts=offset4 -- a b",
    "mirrors layouts=near2,near3,near4,far2,far3,far4,offset2,offset3,offset4 -- a b",
    "mirrors size=1 layouts=near4,far2 members=4 -- a b",
    "mirrors missing=1 foreign=24 badrows=36028797018963967 window=1 end=0 -- a b",
    "mirrors span=1 size=1000000 from=18446744073709551615 -- a b",
    "mirrorwrite set=near2:1:0:0,1 -- a b",
    "mirrorwrite end=36028797018963967 set=near2:4294967295:36028797018963967:-,-,0 --",
    "salvage set=5:ls:none:1:0:0,1,2 -- a b c",
    "salvage form=data set=5:ls:none:1:0:0,1,2 -- a b c",
    "salvage form=lost end=36028797018963967 set=5:ls:none:1:1+0+0:0,1,2 -- a b c",
    "salvage set=6:parity-first-6:by-slot:4294967295:36028797018963967:0,0,23 --",
    "relations --",
    "relations -- a b",
    "relations -- --help",
    "relations form=json offsets=1+0+1 step=36028797018963967 end=0 from=36028797018963967 -- a b c",
    "relations offsets=36028797018963967 -- a",
    "--help",
    "-h",
    "help",
    "--version",
];

/// Compares the refused word of a line, or 0.
fn check<R: Abort>(rt: &R, alloc: Global, line: &str, word: u64) -> Result<(), Fail> {
    assert_eq!(rt; refused_word(alloc, line)?, word, "{line}");
    Ok(())
}

#[test]
fn lines_are_refused_at_their_words(rt: HostRuntime) -> Result<(), Fail> {
    for (line, word) in &REFUSED {
        check(&rt, rt.alloc(), line, *word)?;
    }
    Ok(())
}

#[test]
fn lines_are_command_lines(rt: HostRuntime) -> Result<(), Fail> {
    for line in &ACCEPTED {
        check(&rt, rt.alloc(), line, 0)?;
    }
    Ok(())
}

#[test]
fn no_word_is_no_command_line(rt: HostRuntime) {
    assert!(rt; matches!(read_words(&[]), Err(1)));
}

/// What a listing is asked for, with its form as a word.
fn listing(alloc: Global, line: &str) -> Result<Option<(u64, u64, u64, u64, bool, usize)>, Fail> {
    Ok(match read_text(alloc, line)? {
        Ok(
            Command::List {
                from,
                size,
                span,
                pages,
                form,
                names,
            },
        ) => Some((from, size, span, pages, matches!(form, Form::Json), names)),
        _ => None,
    })
}

#[test]
fn operands_are_told_from_defaults(rt: HostRuntime) -> Result<(), Fail> {
    let alloc = rt.alloc();
    assert_eq!(rt;
        listing(alloc, "list -- a")?,
        Some((0, 100, 18446744073709551615, 1, false, 2))
    );
    assert_eq!(rt;
        listing(alloc, "list form=json pages=3 from=7 span=9 size=2 -- a")?,
        Some((7, 2, 9, 3, true, 7))
    );
    Ok(())
}

/// What a volume is asked for: the set, the end, and the place of the names.
fn volume(alloc: Global, line: &str) -> Result<Option<(Wide, Option<u64>, usize)>, Fail> {
    Ok(match read_text(alloc, line)? {
        Ok(Command::Write { set, end, names }) => Some((set, end, names)),
        _ => None,
    })
}

/// Whether a set is `6:n-restart:by-slot:128:2048:-,11,0`.
fn is_the_set(set: &Geometry) -> bool {
    matches!(set.head.level, Level::Raid6)
        && matches!(set.head.pattern, Pattern::NRestart)
        && matches!(set.head.syndrome, Syndrome::BySlot)
        && set.head.members == 3
        && set.head.chunk == 128
        && set.head.offset == 2048
        && set.slots.as_slice() == [None, Some(11), Some(0)].as_slice()
}

#[test]
fn a_volume_has_its_operands(rt: HostRuntime) -> Result<(), Fail> {
    let line = "write end=8 set=6:n-restart:by-slot:128:2048:-,11,0 -- a";
    let asked = volume(rt.alloc(), line)?;
    assert!(rt; asked.is_some());
    if let Some((set, end, names)) = asked {
        assert!(rt; set.bases.is_empty() && is_the_set(&set.geo));
        assert_eq!(rt; (end, names), (Some(8), 4));
    }
    Ok(())
}

/// What a survey is asked for.
fn asked(alloc: Global, line: &str) -> Result<Option<SurveyWords>, Fail> {
    Ok(match read_text(alloc, line)? {
        Ok(Command::Survey(asked)) => Some(asked),
        _ => None,
    })
}

/// Compares the lists that are not given.
fn compare_lists<R: Abort>(rt: &R, bounds: &Bounds) {
    assert_eq!(rt; (bounds.levels.len(), bounds.members.len()), (3, 0));
    assert_eq!(rt; (bounds.patterns.len(), bounds.syndromes.len()), (14, 4));
    assert_eq!(rt; bounds.delays.as_slice(), [1].as_slice());
    assert_eq!(rt;
        bounds.chunks.as_slice(),
        [8, 16, 32, 64, 128, 256, 512, 1024, 2048].as_slice()
    );
    assert_eq!(rt;
        bounds.offsets.as_slice(),
        [0, 2048, 262144, 264192].as_slice()
    );
}

/// Compares the other operands that are not given.
fn compare_others<R: Abort>(rt: &R, plain: &SurveyWords) {
    assert_eq!(rt; plain.tests.origins.as_slice(), [0, 2048].as_slice());
    assert_eq!(rt; (plain.tests.misfits, plain.tests.least), (0, 1));
    assert_eq!(rt;
        (plain.end, plain.window, plain.badrows, plain.names),
        (None, None, 0, 2)
    );
    assert!(rt; plain.kinds.gpt && plain.kinds.ntfs && plain.kinds.xfs);
    assert!(rt; plain.kinds.btrfs && plain.kinds.lvm && !plain.kinds.ext);
    assert_eq!(rt; (plain.each, plain.unit), (false, 1));
    assert_eq!(rt; plain.drops.len(), 0);
}

#[test]
fn a_survey_has_its_defaults(rt: HostRuntime) -> Result<(), Fail> {
    let plain = asked(rt.alloc(), "survey -- a b")?;
    assert!(rt; plain.is_some());
    if let Some(plain) = plain {
        compare_lists(&rt, &plain.bounds);
        compare_others(&rt, &plain);
    }
    Ok(())
}

/// Compares operands that are given.
fn compare_told<R: Abort>(rt: &R, told: &SurveyWords) {
    assert!(rt; told.kinds.gpt && !told.kinds.ntfs && told.kinds.xfs);
    assert_eq!(rt; told.bounds.members.as_slice(), [3].as_slice());
    assert_eq!(rt; (told.tests.least, told.drops.len(), told.names), (4, 2, 6));
}

#[test]
fn a_survey_has_its_operands(rt: HostRuntime) -> Result<(), Fail> {
    let line = "survey drop=2:9,3:1 kinds=gpt,xfs least=4 members=3 -- a";
    let told = asked(rt.alloc(), line)?;
    assert!(rt; told.is_some());
    if let Some(told) = told {
        compare_told(&rt, &told);
    }
    Ok(())
}

#[test]
fn a_survey_has_its_delays(rt: HostRuntime) -> Result<(), Fail> {
    let told = asked(rt.alloc(), "survey patterns=la delays=1,16,1024 -- a b c")?;
    assert!(rt; told.is_some_and(|told| told.bounds.delays.as_slice() == [1, 16, 1024].as_slice()));
    let told = asked(
        rt.alloc(),
        "survey delays=1,2,3,4,5,6,7,8,9,10,11,12,13,14,15,16 -- a",
    )?;
    assert!(rt; told.is_some_and(|told| told.bounds.delays.len() == 16));
    Ok(())
}

#[test]
fn a_survey_has_its_mode_and_blocks(rt: HostRuntime) -> Result<(), Fail> {
    let line = "survey logical=4096 kinds=lvm,ext mode=each -- a";
    let told = asked(rt.alloc(), line)?;
    assert!(rt; told.is_some());
    if let Some(told) = told {
        assert_eq!(rt; (told.each, told.unit, told.names), (true, 8, 5));
        assert!(rt; told.kinds.lvm && told.kinds.ext && !told.kinds.btrfs && !told.kinds.gpt);
    }
    let line = "survey logical=512 mode=common -- a";
    let told = asked(rt.alloc(), line)?;
    assert!(rt; told.is_some_and(|told| !told.each && told.unit == 1));
    Ok(())
}

/// A layout of so many copies.
fn layout(copying: Copying, copies: u8) -> CopyLayout {
    CopyLayout { copying, copies }
}

#[test]
fn mirrors_have_their_defaults(rt: HostRuntime) -> Result<(), Fail> {
    let plain = read_text(rt.alloc(), "mirrors -- a b")?;
    if let Ok(
        Command::Mirrors {
            layouts,
            members,
            chunks,
            offsets,
            missing,
            foreign,
            badrows,
            window,
            end,
            from,
            size,
            span,
            names,
        },
    ) = plain
    {
        assert_eq!(rt; layouts.as_slice(), [layout(Copying::Near, 2)].as_slice());
        assert_eq!(rt; (members.len(), chunks.len()), (0, 9));
        assert_eq!(rt; offsets.as_slice(), [0, 2048, 262144, 264192].as_slice());
        assert_eq!(rt; (missing, foreign, badrows), (0, 0, 0));
        assert_eq!(rt; (window, end), (None, None));
        assert_eq!(rt; (from, size, span, names), (0, 100, u64::MAX, 2));
    } else {
        assert!(rt; false, "mirrors");
    }
    Ok(())
}

#[test]
fn mirrors_have_their_operands(rt: HostRuntime) -> Result<(), Fail> {
    let line =
        "mirrors span=9 size=2 from=7 end=6 window=5 badrows=4 foreign=3 missing=1 offsets=0,2 chunks=1,8 members=2,5 layouts=near3,far2,offset4 -- a b";
    let told = read_text(rt.alloc(), line)?;
    if let Ok(
        Command::Mirrors {
            layouts,
            members,
            chunks,
            offsets,
            missing,
            foreign,
            badrows,
            window,
            end,
            from,
            size,
            span,
            names,
        },
    ) = told
    {
        let tried = [
            layout(Copying::Near, 3),
            layout(Copying::Far, 2),
            layout(Copying::Offset, 4),
        ];
        assert_eq!(rt; layouts.as_slice(), tried.as_slice());
        assert_eq!(rt; members.as_slice(), [2, 5].as_slice());
        assert_eq!(rt; chunks.as_slice(), [1, 8].as_slice());
        assert_eq!(rt; offsets.as_slice(), [0, 2].as_slice());
        assert_eq!(rt; (missing, foreign, badrows), (1, 3, 4));
        assert_eq!(rt; (window, end), (Some(5), Some(6)));
        assert_eq!(rt; (from, size, span, names), (7, 2, 9, 14));
    } else {
        assert!(rt; false, "mirrors");
    }
    Ok(())
}

/// What the volume of a mirror is asked for: the set, the end, and the place of the names.
fn mirror(alloc: Global, line: &str) -> Result<Option<(NearSet, Option<u64>, usize)>, Fail> {
    Ok(match read_text(alloc, line)? {
        Ok(Command::MirrorWrite { set, end, names }) => Some((set, end, names)),
        _ => None,
    })
}

#[test]
fn the_volume_of_a_mirror_has_its_operands(rt: HostRuntime) -> Result<(), Fail> {
    let asked = mirror(
        rt.alloc(),
        "mirrorwrite end=8 set=near2:128:2048:11,-,0 -- a",
    )?;
    assert!(rt; asked.is_some());
    if let Some((set, end, names)) = asked {
        let head = set.head;
        assert_eq!(rt; (head.members, head.chunk, head.offset), (3, 128, 2048));
        assert!(rt; set.slots.as_slice() == [Some(11), None, Some(0)].as_slice());
        assert_eq!(rt; (end, names), (Some(8), 4));
    }
    Ok(())
}

/// What is to be salvaged: the set, whether what is lost is asked for, the end, and the place of the names.
fn salvaged(alloc: Global, line: &str) -> Result<Option<(Wide, bool, Option<u64>, usize)>, Fail> {
    Ok(match read_text(alloc, line)? {
        Ok(
            Command::Salvage {
                set,
                lost,
                end,
                names,
            },
        ) => Some((set, lost, end, names)),
        _ => None,
    })
}

#[test]
fn a_salvage_has_its_operands(rt: HostRuntime) -> Result<(), Fail> {
    let line = "salvage end=8 set=6:n-restart:by-slot:128:2048:-,11,0 form=lost -- a";
    let asked = salvaged(rt.alloc(), line)?;
    assert!(rt; asked.is_some());
    if let Some((set, lost, end, names)) = asked {
        assert!(rt; set.bases.is_empty() && is_the_set(&set.geo));
        assert_eq!(rt; (lost, end, names), (true, Some(8), 5));
    }
    Ok(())
}

#[test]
fn a_salvage_gives_the_volume_unless_told(rt: HostRuntime) -> Result<(), Fail> {
    let alloc = rt.alloc();
    let plain = salvaged(alloc, "salvage set=5:ls:none:1:0:0,1,2 -- a b c")?;
    assert!(rt; plain.is_some_and(|(_, lost, end, names)| !lost && end.is_none() && names == 3));
    let told = salvaged(alloc, "salvage form=data set=5:ls:none:1:0:0,1,2 -- a b c")?;
    assert!(rt; told.is_some_and(|(_, lost, end, names)| !lost && end.is_none() && names == 4));
    Ok(())
}

/// What relations are asked for.
fn related(alloc: Global, line: &str) -> Result<Option<RelationWords>, Fail> {
    Ok(match read_text(alloc, line)? {
        Ok(Command::Relations(asked)) => Some(asked),
        _ => None,
    })
}

#[test]
fn relations_have_their_defaults(rt: HostRuntime) -> Result<(), Fail> {
    let plain = related(rt.alloc(), "relations -- a b")?;
    assert!(rt; plain.is_some());
    if let Some(plain) = plain {
        assert_eq!(rt; (plain.from, plain.end, plain.step), (0, None, None));
        assert_eq!(rt; (plain.offsets.len(), plain.names), (0, 2));
        assert!(rt; matches!(plain.form, Form::Text));
    }
    Ok(())
}

#[test]
fn relations_have_their_operands(rt: HostRuntime) -> Result<(), Fail> {
    let line = "relations offsets=7+0+7 form=json step=3 end=9 from=2 -- a b c";
    let told = related(rt.alloc(), line)?;
    assert!(rt; told.is_some());
    if let Some(told) = told {
        assert_eq!(rt; (told.from, told.end, told.step), (2, Some(9), Some(3)));
        assert_eq!(rt; told.offsets.as_slice(), [7, 0, 7].as_slice());
        assert_eq!(rt; told.names, 7);
        assert!(rt; matches!(told.form, Form::Json));
    }
    Ok(())
}

/// Relations with an offset for each of so many images.
fn placed(alloc: Global, count: u64) -> Result<String, Fail> {
    let mut line = String::new(alloc);
    line.push_str("relations offsets=0")?;
    for _ in 1..count {
        line.push_str("+0")?;
    }
    line.push_str(" -- a")?;
    Ok(line)
}

#[test]
fn relations_have_64_offsets_at_most(rt: HostRuntime) -> Result<(), Fail> {
    let alloc = rt.alloc();
    let most = placed(alloc, 64)?;
    check(&rt, alloc, most.as_str(), 0)?;
    let more = placed(alloc, 65)?;
    check(&rt, alloc, more.as_str(), 2)
}

#[test]
fn a_word_alone_asks_for_its_text(rt: HostRuntime) -> Result<(), Fail> {
    let alloc = rt.alloc();
    for word in &["--help", "-h", "help"] {
        assert!(rt;
            matches!(read_text(alloc, word)?, Ok(Command::Help)),
            "{word}"
        );
    }
    assert!(rt; matches!(read_text(alloc, "--version")?, Ok(Command::Version)));
    Ok(())
}
