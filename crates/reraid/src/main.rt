//! The program: it makes the real files, streams and words, and calls the top call.
//!
//! What it answers is promised by `reraid_cli::reraid`. Before that call only two things end a run: a word
//! that is not text, and running out of memory. `docs/USING.md` shows how to use it.
//!
//! A run may be started with a standard descriptor closed. A file that is opened takes the lowest free
//! one, so an image would then be read as the plan. `hold_descriptors` takes these places before.
#![tactic(auto)]

use image_source::{FileImages, StdSink, StdSource};
use outside::Sink;
use reraid_cli::{OpenGate, Refusal, Stop, Word, reraid};
use std::alloc::Global;
use std::fs::File;
use std::io::ErrorKind;
use std::process::ExitCode;
use std::rt::{Env, Files};
use std::{env, io};

fn main(rt: HostRuntime) -> ExitCode {
    let alloc = rt.alloc();
    let _held = hold_descriptors(&rt);
    let mut notes = StdSink::new(rt.stderr());
    let words = match command_line(&rt, alloc) {
        Ok(words) => words,
        Err(stop) => return refuse(stop, &mut notes),
    };
    let Ok(mut images) = FileImages::new(&rt, alloc) else {
        return refuse(Stop::OutOfMemory, &mut notes);
    };
    let mut plan = StdSource::new(rt.stdin());
    let mut out = StdSink::new(rt.stdout());
    ExitCode::from(reraid(
        &rt,
        alloc,
        &words,
        &mut plan,
        &mut images,
        &mut out,
        &mut notes,
        &OpenGate,
    ))
}

/// Opens `/dev/null` three times. So each of the descriptors 0 to 2 that was closed is taken as long as
/// the answer lives. A plan read from there is empty, and what is written there fails.
fn hold_descriptors<R: Files>(rt: &R) -> [io::Result<R::File>; 3] {
    let open = || File::open(rt, "/dev/null");
    [open(), open(), open()]
}

/// The words after the program's name.
fn command_line<R: Env + AllocGlobal>(rt: &R, alloc: Global) -> Result<Vec<Word>, Stop> {
    let mut words = Vec::new(alloc);
    let arguments = match env::args(rt) {
        Ok(arguments) => arguments,
        Err(e) if e.kind() == ErrorKind::InvalidData => return Err(NOT_TEXT),
        Err(_) => return Err(Stop::OutOfMemory),
    };
    for text in arguments.skip(1) {
        let word = Word::new(alloc, text.as_str()).map_err(|_| Stop::OutOfMemory)?;
        words.push(word).map_err(|_| Stop::OutOfMemory)?;
    }
    Ok(words)
}

/// The stop where a word is not text. The runtime hands over no such word, so the top call never has this one.
const NOT_TEXT: Stop = Stop::Refused(Refusal::Word(1));

/// Writes why the top call is not made, and gives the status.
fn refuse<N: Sink>(stop: Stop, notes: &mut N) -> ExitCode {
    let notice = stop.notice();
    let _ = notes.put(notice.line.as_bytes());
    ExitCode::from(notice.status)
}
