//! What `--help` and `--version` put.
use crate::objects::{Objects, ready, words_of};
use crate::rows::{End, compare, run, same_bytes, same_status};
use crate::served::serve_words;
use image_source::MemSource;
use outside::Memory;
use std::alloc::Global;
use std::process::Abort;
use std::test::Fail;

/// The first line of each command: its operands in their order, as the manual page has them.
static USES: [&str; 14] = [
    "usage: reraid COMMAND [NAME=VALUE..] -- [IMAGE..]",
    "  relations [from=ROW] [end=ROW] [step=ROWS] [offsets=A+B..] [form=FORM]",
    "  survey [levels=LIST] [members=LIST] [patterns=LIST] [delays=LIST]",
    "  list [from=RANK] [size=LINES] [span=RANKS] [pages=PAGES] [form=FORM]",
    "  check set=SET -- IMAGE..  < PLAN",
    "  map set=SET sector=SECTOR [end=END] -- IMAGE..",
    "  write set=SET [end=END] -- IMAGE..  > VOLUME",
    "  rebuild set=SET slot=SLOT [end=END] -- IMAGE..  > MEMBER",
    "  sample number=NUMBER set=SET rows=ROWS [marks=MARKS] --",
    "  classes images=IMAGES end=END --  < LINES",
    "  mirrors [layouts=LIST] [members=LIST] [chunks=LIST] [offsets=LIST]",
    "  mirrorwrite set=NEARSET [end=END] -- IMAGE..  > VOLUME",
    "  salvage set=SET [form=FORM] [end=END] -- IMAGE..  < MAPS",
    "The manual: reraid(1), and USING.md, FORMATS.md and more in share/doc/reraid.",
];

/// The version.
const VERSION: End = End {
    status: 0,
    out: b"reraid 0.9.0\n",
    notes: b"",
};

#[test]
fn the_version_is_put(rt: HostRuntime) -> Result<(), Fail> {
    let (status, met) = run(&rt, rt.alloc(), "--version", &[], b"")?;
    compare(&rt, status, &met, &VERSION, "--version");
    Ok(())
}

#[test]
fn two_short_words_put_the_help(rt: HostRuntime) -> Result<(), Fail> {
    let (_, long) = run(&rt, rt.alloc(), "--help", &[], b"")?;
    for word in &["-h", "help"] {
        let end = End {
            status: 0,
            out: long.out.bytes(),
            notes: b"",
        };
        let (status, met) = run(&rt, rt.alloc(), word, &[], b"")?;
        compare(&rt, status, &met, &end, word);
    }
    Ok(())
}

#[test]
fn the_help_has_each_command(rt: HostRuntime) -> Result<(), Fail> {
    let (status, met) = run(&rt, rt.alloc(), "--help", &[], b"")?;
    same_status(&rt, status, 0, "--help");
    same_bytes(&rt, met.notes.bytes(), b"", "--help");
    for used in &USES {
        let wanted = used.as_bytes();
        let found = met
            .out
            .bytes()
            .split(|byte| *byte == b'\n')
            .any(|line| line == wanted);
        assert!(rt; found, "{used}");
    }
    Ok(())
}

/// Has the server answer the words of a line, with a client that sends nothing.
fn serve(alloc: Global, line: &str) -> Result<(u8, Objects), Memory> {
    let words = words_of(alloc, line)?;
    let mut met = ready(alloc, &words, &[], b"")?;
    let mut maps = MemSource::new(alloc, b"")?;
    let status = serve_words(alloc, &words, &mut maps, &mut met);
    Ok((status, met))
}

/// Compares what the server leaves.
fn serves<R: Abort>(rt: &R, alloc: Global, line: &str, end: &End) -> Result<(), Fail> {
    let (status, met) = serve(alloc, line)?;
    compare(rt, status, &met, end, line);
    Ok(())
}

#[test]
fn the_server_has_a_version(rt: HostRuntime) -> Result<(), Fail> {
    let alloc = rt.alloc();
    let version = End {
        status: 0,
        out: b"reraid-nbd 0.9.0\n",
        notes: b"",
    };
    serves(&rt, alloc, "--version", &version)?;
    let refused = End {
        status: 1,
        out: b"",
        notes: b"reraid: word 1 is not understood\n",
    };
    serves(&rt, alloc, "--version ", &refused)?;
    serves(&rt, alloc, "-h", &refused)?;
    serves(&rt, alloc, "help", &refused)?;
    serves(&rt, alloc, "--help -- a", &refused)
}

#[test]
fn the_server_has_a_help(rt: HostRuntime) -> Result<(), Fail> {
    let (status, met) = serve(rt.alloc(), "--help")?;
    same_status(&rt, status, 0, "--help");
    let use_line = b"usage: reraid-nbd set=SET [maps=FILE] [end=END] -- IMAGE..\n".as_slice();
    assert!(rt; met.out.bytes().starts_with(use_line));
    same_bytes(&rt, met.notes.bytes(), b"", "--help");
    Ok(())
}
