//! The program: it makes the real files, streams and words, and calls the top call.
//!
//! What it does is promised by `reraid_nbd_cli::reraid_nbd`. Before that call only two things end a run: a word that is not text, and
//! running out of memory. The client speaks on standard input and is answered on standard output. The text of maps is the file that a
//! word `maps=FILE` names; one that cannot be opened is a source that fails.
//!
//! A run may be started with a standard descriptor closed. A file that is opened takes the lowest free one, so an image would then be
//! taken for the client. `hold_descriptors` takes these places before.
#![tactic(auto)]

ghost use Rattle.std.specs.Prelude.{None};

use image_source::{FileImages, StdSink, StdSource};
use outside::{Failed, Sink, Source};
use reraid_nbd_cli::{NbdEnd, NbdStop, Refusal, Word, reraid_nbd};
use std::alloc::Global;
use std::fs::File;
use std::io::ErrorKind;
use std::process::ExitCode;
use std::rt::{Env, Files};
use std::{env, io};

fn main(rt: HostRuntime) -> ExitCode {
    let alloc = rt.alloc();
    let _held = hold_descriptors(&rt);
    let mut notes = StdSink::new(rt.stderr());
    let words = match command_line(&rt, alloc) {
        Ok(words) => words,
        Err(end) => return refuse(end, &mut notes),
    };
    let Ok(mut images) = FileImages::new(&rt, alloc) else {
        return refuse(OUT_OF_MEMORY, &mut notes);
    };
    let mut source = StdSource::new(rt.stdin());
    let mut out = StdSink::new(rt.stdout());
    ExitCode::from(match open_maps(&rt, &words) {
        Some(file) => reraid_nbd(
            alloc,
            &words,
            &mut StdSource::new(file),
            &mut source,
            &mut images,
            &mut out,
            &mut notes,
        ),
        None => reraid_nbd(
            alloc,
            &words,
            &mut Unopened { faults: 0 },
            &mut source,
            &mut images,
            &mut out,
            &mut notes,
        ),
    })
}

/// The file that the first word before `--` with `maps=` names, if there is one that can be opened.
fn open_maps<R: Files>(rt: &R, words: &[Word]) -> Option<R::File> {
    for word in words {
        let text = word.as_str();
        if text == "--" {
            return None;
        }
        if let Some(name) = text.strip_prefix("maps=") {
            return File::open(rt, name).ok();
        }
    }
    None
}

/// A source that fails whenever something is taken of it: what stands for a file that cannot be opened.
#[derive(Drop)]
struct Unopened {
    /// How often it failed.
    faults: u64,
}

impl Source for Unopened {
    ghost left = { λ _. None };

    ghost faults = { λ s. s.faults };

    fn take(&mut self, _to: &mut [u8]) -> Result<usize, Failed> {
        self.faults = self.faults.saturating_add(1);
        Err(Failed)
    }
}

/// Opens `/dev/null` three times. So each of the descriptors 0 to 2 that was closed is taken as long as the answer lives. What is read
/// there is empty, and what is written there fails.
fn hold_descriptors<R: Files>(rt: &R) -> [io::Result<R::File>; 3] {
    let open = || File::open(rt, "/dev/null");
    [open(), open(), open()]
}

/// The words after the program's name.
fn command_line<R: Env + AllocGlobal>(rt: &R, alloc: Global) -> Result<Vec<Word>, NbdEnd> {
    let mut words = Vec::new(alloc);
    let arguments = match env::args(rt) {
        Ok(arguments) => arguments,
        Err(e) if e.kind() == ErrorKind::InvalidData => return Err(NOT_TEXT),
        Err(_) => return Err(OUT_OF_MEMORY),
    };
    for text in arguments.skip(1) {
        let word = Word::new(alloc, text.as_str()).map_err(|_| OUT_OF_MEMORY)?;
        words.push(word).map_err(|_| OUT_OF_MEMORY)?;
    }
    Ok(words)
}

/// The end where memory is wanting.
const OUT_OF_MEMORY: NbdEnd = NbdEnd::Stopped(NbdStop::OutOfMemory);

/// The end where a word is not text. The runtime hands over no such word, so the top call never has this one.
const NOT_TEXT: NbdEnd = NbdEnd::Refused(Refusal::Word(1));

/// Writes why the top call is not made, and gives the status.
fn refuse<N: Sink>(end: NbdEnd, notes: &mut N) -> ExitCode {
    let notice = end.notice();
    let _ = notes.put(notice.line.as_bytes());
    ExitCode::from(notice.status)
}
