//! What the words ask for.
ghost use Rattle.std.specs.Prelude.{ℕ, List, ◌≡◌, ◌+◌, ◌<◌, ◌^◌, ◌++◌, IfErr, IfOk, OnOk, length};
ghost use Rattle.command_words.specs.Commands.{IsWithin};
ghost use Rattle.reraid_nbd_cli.specs.Words.{AreNamed, Asks, AsksDamaged, PutsVolume, as_typed as as_typed_of, is_maps_word, maps_at, without};

use command_words::{Command, Verb, Word, read_words_after};
use outside::Memory;
use std::alloc::Global;

/// The command of `reraid` whose volume the words ask for: they are its words without the first. It is `write`, or `mirrorwrite` where
/// they are not those of `write`. The names of the images begin a word earlier than the command says.
///
/// Where they are neither, the answer is the number of the refused word, counted from 1.
pub(crate) fn read_asked(words: &[Word]) -> Result<Command, u64>
    ensures asks { Asks words.now result }
    ensures volume { IfOk result PutsVolume }
    ensures within { IfOk result IsWithin }
    ensures named { IfOk result (AreNamed words.now) }
    ensures short { IfErr result (λ number. number + 1 < 2 ^ 64) }
{
    match read_words_after(Verb::Write, words) {
        Ok(command) => Ok(command),
        Err(number) => match read_words_after(Verb::MirrorWrite, words) {
            Ok(command) => Ok(command),
            Err(other) => Err(number.max(other) - 1),
        },
    }
}

/// Whether a word begins with `maps=`.
fn is_maps(word: &Word) -> bool
    ensures { result ≡ is_maps_word word.now }
{
    matches!(word.as_str().as_bytes(), [b'm', b'a', b'p', b's', b'=', ..])
}

/// The place of the word that names the text of maps, if one before `--` does.
pub(crate) fn maps_place(words: &[Word]) -> Option<usize>
    ensures { result ≡ maps_at words.now }
{
    for (place, word) in words.iter().enumerate() {
        if word.as_str() == "--" {
            return None;
        }
        if is_maps(word) {
            return Some(place);
        }
    }
    None
}

/// Adds copies of words.
fn add_words(alloc: Global, words: &[Word], to: &mut Vec<Word>) -> Result<(), Memory>
    ensures { OnOk result (to.new.items ≡ to.old.items ++ words.now) }
{
    for word in words {
        let word = Word::new(alloc, word.as_str())?;
        to.push(word).map_err(|_| Memory)?;
    }
    Ok(())
}

/// Copies of the words without the one at a place.
pub(crate) fn words_without(
    alloc: Global,
    words: &[Word],
    place: usize,
) -> Result<Vec<Word>, Memory>
    requires { place < length words.now }
    ensures { IfOk result (λ others. others.items ≡ without place words.now) }
{
    let mut others = Vec::new(alloc);
    add_words(alloc, &words[..place], &mut others)?;
    add_words(alloc, &words[place + 1..], &mut others)?;
    Ok(others)
}

/// The number of a word as it was typed, counted from 1: without the one at this place it is this one.
fn as_typed(place: usize, number: u64) -> u64
    requires place { place < 2 ^ 63 }
    requires short { number + 1 < 2 ^ 64 }
    ensures { result ≡ as_typed_of place number }
{
    if number < place as u64 + 1 {
        number
    } else {
        number + 1
    }
}

/// The command whose damaged volume the words ask for, without the one that names the text of maps, which stood at this place. Else the
/// number of the refused word as it was typed, counted from 1.
pub(crate) fn read_damaged(others: &[Word], place: usize) -> Result<Command, u64>
    requires { place < 2 ^ 63 }
    ensures asks { (words : List (List ℕ)) → others.now ≡ without place words → AsksDamaged place words result }
    ensures volume { IfOk result PutsVolume }
    ensures within { IfOk result IsWithin }
    ensures named { IfOk result (AreNamed others.now) }
{
    match read_asked(others) {
        Ok(command) => Ok(command),
        Err(number) => Err(as_typed(place, number)),
    }
}
