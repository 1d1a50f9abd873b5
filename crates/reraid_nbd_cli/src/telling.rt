//! What a word asks for alone: a text in place of a dialogue.
ghost use Rattle.std.specs.Prelude.{◌≡◌};
ghost use Rattle.run_ends.specs.Jobs.{stream};
ghost use Rattle.reraid_nbd_cli.specs.Runs.{PutsText, alone_text};
ghost use Rattle.reraid_nbd_cli.specs.Words.{alone_in};

use crate::ends::NbdEnd;
use command_words::Word;
use nbd_server::NbdStop;
use outside::Sink;
use program_texts::{nbd_help_text, nbd_version_text};

/// What a word asks for alone.
#[derive(Clone, Copy)]
pub enum Alone {
    /// `--help`: how the program is used.
    Help,
    /// `--version`: the version of the program.
    Version,
}

impl Alone {
    /// The text.
    fn text(self) -> &'static str
        ensures { result.now ≡ alone_text self }
    {
        match self {
            Alone::Help => nbd_help_text(),
            Alone::Version => nbd_version_text(),
        }
    }
}

/// What one word asks for alone, if it does.
pub(crate) fn read_alone(words: &[Word]) -> Option<Alone>
    ensures { result ≡ alone_in words.now }
{
    let (first, rest) = words.split_first()?;
    if !rest.is_empty() {
        return None;
    }
    match first.as_str() {
        "--help" => Some(Alone::Help),
        "--version" => Some(Alone::Version),
        _ => None,
    }
}

/// Puts the text.
pub(crate) fn tell<K: Sink>(alone: Alone, out: &mut K) -> Result<(), NbdEnd>
    ensures { PutsText (alone_text alone) (stream (K.gained out.old) (K.faults out.old)) (stream (K.gained out.new) (K.faults out.new)) result }
{
    match out.put(alone.text().as_bytes()) {
        Ok(()) => Ok(()),
        Err(_) => Err(NbdEnd::Stopped(NbdStop::OutFault)),
    }
}
