//! Putting an answer to the output, and the parts of its text.
ghost use Rattle.std.specs.Prelude.{◌≡◌, ◌++◌, OnOk};
ghost use Rattle.run_ends.specs.Jobs.{IsPrinted, stream};
ghost use Rattle.run_ends.specs.Printing.{or_dash, share_line};

use crate::stop::Stop;
use outside::{Memory, Sink};
use value_text::{Text, add_number};

/// Puts the answer whole, if there is one, or says why there is none.
pub fn print<K: Sink>(out: &mut K, answer: Result<Text, Stop>) -> Result<(), Stop>
    ensures { IsPrinted (stream (K.gained out.old) (K.faults out.old)) (stream (K.gained out.new) (K.faults out.new)) answer result }
{
    let text = answer?;
    match out.put(text.as_slice()) {
        Ok(()) => Ok(()),
        Err(_) => Err(Stop::OutFault),
    }
}

/// Appends a number, or a dash where there is none.
pub fn add_or_dash(text: &mut Text, number: Option<u64>) -> Result<(), Memory>
    ensures { OnOk result (text.new ≡ text.old ++ or_dash number) }
{
    match number {
        Some(number) => add_number(text, number),
        None => text.extend_from_slice(b"-"),
    }
}

/// Appends the line `NAME PART of WHOLE`. The name ends with a space.
#[tactic(auto, unfolding(crate::specs::Printing::share_line))]
pub fn add_share(text: &mut Text, name: &[u8], part: u64, whole: u64) -> Result<(), Memory>
    ensures { OnOk result (text.new ≡ text.old ++ share_line name.now part whole) }
{
    text.extend_from_slice(name)?;
    add_number(text, part)?;
    text.extend_from_slice(b" of ")?;
    add_number(text, whole)?;
    text.extend_from_slice(b"\n")
}
