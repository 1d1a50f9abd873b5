//! What sources and sinks over files do.
use image_source::{StdSink, StdSource};
use outside::{Sink, Source};
use std::fs::File;
use std::io::{Cursor, ErrorKind, Read};
use std::test::Fail;
use std::{fs, io};

// How many bytes are taken, with eight that begin with them and are zero past them.
fn taken<R: Read + Drop>(source: &mut StdSource<R>) -> Option<(usize, [u8; 8])> {
    let mut to = [0; 8];
    let count = source.take(&mut to).ok()?;
    Some((count, to))
}

// Puts `abc` and `de` into a file.
fn write_five(rt: &HostRuntime) -> Result<(), Fail> {
    let mut sink = StdSink::new(File::create(rt, "stream.txt")?);
    sink.put(b"abc")?;
    sink.put(b"de")?;
    Ok(())
}

#[test]
fn streams_are_files(rt: HostRuntime) -> Result<(), Fail> {
    write_five(&rt)?;
    let mut source = StdSource::new(File::open(&rt, "stream.txt")?);
    assert!(rt; taken(&mut source) == Some((5, *b"abcde\0\0\0")));
    assert!(rt; taken(&mut source) == Some((0, [0; 8])));
    assert!(rt; fs::remove_file(&rt, "stream.txt").is_ok());
    Ok(())
}

// A reader that fails is a fault.
#[test]
fn a_folder_is_a_fault(rt: HostRuntime) -> Result<(), Fail> {
    let mut folder = StdSource::new(File::open(&rt, ".")?);
    assert!(rt; taken(&mut folder).is_none());
    Ok(())
}

// A writer that fails and one that takes nothing more are faults.
#[test]
fn full_writers_are_faults(rt: HostRuntime) -> Result<(), Fail> {
    let mut full = StdSink::new(File::options().write(true).open(&rt, "/dev/full")?);
    assert!(rt; full.put(b"a").is_err());
    let mut short = StdSink::new(Cursor::new([0u8; 3]));
    assert!(rt; short.put(b"abcd").is_err());
    Ok(())
}

// A reader of bytes `x`, one at a time, that is interrupted before each.
#[derive(Drop)]
struct Interrupted {
    calls: u64,
}

impl Read for Interrupted {
    fn read(&mut self, to: &mut [u8]) -> io::Result<usize> {
        self.calls = self.calls.wrapping_add(1);
        match to {
            [first, ..] if self.calls % 2 == 0 => {
                *first = b'x';
                Ok(1)
            }
            _ => Err(io::Error::from(ErrorKind::Interrupted)),
        }
    }
}

// A read that was interrupted is made again, and is no fault.
#[test]
fn interrupted_reads_are_made_again(rt: HostRuntime) {
    let mut source = StdSource::new(Interrupted { calls: 0 });
    assert!(rt; taken(&mut source) == Some((1, *b"x\0\0\0\0\0\0\0")));
    assert!(rt; taken(&mut source) == Some((1, *b"x\0\0\0\0\0\0\0")));
}

// A reader that fails at its first call, otherwise than by an interruption, and gives bytes `x` from then on.
#[derive(Drop)]
struct Broken {
    has_failed: bool,
}

impl Read for Broken {
    fn read(&mut self, to: &mut [u8]) -> io::Result<usize> {
        if !self.has_failed {
            self.has_failed = true;
            return Err(io::Error::from(ErrorKind::WouldBlock));
        }
        match to {
            [first, ..] => {
                *first = b'x';
                Ok(1)
            }
            [] => Ok(0),
        }
    }
}

// A read that failed otherwise is a fault at once: it is not made again before the next call.
#[test]
fn reads_that_fail_are_not_made_again(rt: HostRuntime) {
    let mut source = StdSource::new(Broken { has_failed: false });
    assert!(rt; taken(&mut source).is_none());
    assert!(rt; taken(&mut source) == Some((1, *b"x\0\0\0\0\0\0\0")));
}
