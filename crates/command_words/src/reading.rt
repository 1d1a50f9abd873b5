//! Reading the words of a command line.
ghost use Rattle.std.specs.Prelude.{◌≡◌, ◌≢◌, ◌<◌, ◌^◌, ◌∷◌, IfOk, MatchOption, MatchResult, length};
ghost use Rattle.command_words.specs.Commands.{EndsInNames, IsRefusedWord, IsWithin, Reads, SaysAlone, verb_word};
ghost use Rattle.command_words.specs.Steps.{StandBefore};
ghost use Rattle.command_words.specs.declared.command.Command.{Command as CommandOf};
ghost use Rattle.command_words.specs.declared.command.Verb.{Verb as VerbOf};

use crate::building::{build, can_go_on};
use crate::command::{Command, Verb};
use crate::operands::{Operands, find_value, read_operand};
use crate::word::Word;
use arrayvec::ArrayVec;

/// Reads the words: a command, its operands in any order, each at most once, then `--` and the
/// names of the images; or `--help`, `-h`, `help` or `--version` alone. It takes no memory.
///
/// Where they are no such list, the answer is the number of the refused word, counted from 1: with the
/// words before it some command with its operands begins, and with it none. It is one more than the words are where the
/// list is only not at its end.
#[inline(never)]
#[tactic(auto, using(crate::proofs::WhatWasRead::all_within, crate::proofs::WhatWasRead::all_names))]
pub fn read_words(words: &[Word]) -> Result<Command, u64>
    ensures reads { Reads words.now result }
    ensures within { IfOk result IsWithin }
    ensures names { IfOk result (EndsInNames words.now) }
{
    read_line(words)
}

/// Reads the words.
fn read_line(words: &[Word]) -> Result<Command, u64>
    ensures { Reads words.now result }
{
    let Some((first, rest)) = words.split_first() else {
        return Err(1);
    };
    if let Some(command) = read_alone(first) {
        return if rest.is_empty() { Ok(command) } else { Err(1) };
    }
    let Some(verb) = read_verb(first) else {
        return Err(1);
    };
    read_line_after(verb, rest)
}

/// What the word asks for alone.
fn read_alone(word: &Word) -> Option<Command>
    ensures { MatchOption result ((command : CommandOf) → SaysAlone word.now command → ⊥) (λ command. SaysAlone word.now command) }
{
    match word.as_str() {
        "--help" | "-h" | "help" => Some(Command::Help),
        "--version" => Some(Command::Version),
        _ => None,
    }
}

/// Reads the words that follow the word of a command, as `read_words` reads them behind it. It takes no memory.
///
/// The numbers of the answer count the command's word too: that of the refused word, and that of the words up to the names.
#[tactic(auto, using(crate::proofs::WhatWasRead::all_within, crate::proofs::WhatWasRead::all_names))]
pub fn read_words_after(verb: Verb, words: &[Word]) -> Result<Command, u64>
    ensures reads { Reads (verb_word verb ∷ words.now) result }
    ensures within { IfOk result IsWithin }
    ensures names { IfOk result (EndsInNames (verb_word verb ∷ words.now)) }
{
    read_line_after(verb, words)
}

/// Reads the words after the first one.
fn read_line_after(verb: Verb, words: &[Word]) -> Result<Command, u64>
    ensures { Reads (verb_word verb ∷ words.now) result }
{
    let operands = read_operands(verb, words)?;
    read_names(verb, &operands, words)
}

/// The command that the first word names.
fn read_verb(word: &Word) -> Option<Verb>
    ensures { MatchOption result ((k : VerbOf) → word.now ≢ verb_word k) (λ k. word.now ≡ verb_word k) }
{
    match word.as_str() {
        "survey" => Some(Verb::Survey),
        "list" => Some(Verb::List),
        "check" => Some(Verb::Check),
        "map" => Some(Verb::Map),
        "write" => Some(Verb::Write),
        "rebuild" => Some(Verb::Rebuild),
        "sample" => Some(Verb::Sample),
        "classes" => Some(Verb::Classes),
        "mirrors" => Some(Verb::Mirrors),
        "mirrorwrite" => Some(Verb::MirrorWrite),
        "salvage" => Some(Verb::Salvage),
        "relations" => Some(Verb::Relations),
        _ => None,
    }
}

/// Reads the operands, up to `--`.
#[inline(never)]
fn read_operands(verb: Verb, words: &[Word]) -> Result<Operands, u64>
    requires { length words.now < 2 ^ 63 }
    ensures { MatchResult result
        (λ operands. StandBefore verb operands.items words.now)
        (λ n. IsRefusedWord (verb_word verb ∷ words.now) n) }
{
    let mut operands: Operands = ArrayVec::new();
    for (place, word) in words.iter().enumerate() {
        if word.as_str() == "--" {
            return Ok(operands);
        }
        let refused = place as u64 + 2;
        let Some(operand) = read_operand(verb, word.as_str().as_bytes()) else {
            return Err(refused);
        };
        if find_value(&operands, operand.name).is_some() {
            return Err(refused);
        }
        operands.push(operand);
        if !can_go_on(&operands) {
            return Err(refused);
        }
    }
    Err(words.len() as u64 + 2)
}

/// What the operands ask for, where nothing follows their `--` that may not.
#[inline(never)]
fn read_names(verb: Verb, operands: &Operands, words: &[Word]) -> Result<Command, u64>
    requires { StandBefore verb operands.now.items words.now }
    ensures { Reads (verb_word verb ∷ words.now) result }
{
    let names = operands.len() + 2;
    let Some(command) = build(verb, operands, names) else {
        return Err(names as u64);
    };
    if !verb.takes_names() && names <= words.len() {
        return Err(names as u64 + 1);
    }
    Ok(command)
}
