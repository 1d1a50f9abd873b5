//! Putting the texts.
ghost use Rattle.run_ends.specs.Jobs.{Around, Does, IsPrinted, Named, stream};
ghost use Rattle.std.specs.Prelude.{Ok};
ghost use Rattle.program_texts.specs.Telling.{help_job, version_job};

use crate::texts::{help_text, version_text};
use outside::Sink;
use run_ends::Stop;

/// Puts how `reraid` is used. It takes no memory.
#[tactic(auto, using(crate::proofs::Told::told))]
pub fn help<K: Sink>(out: &mut K) -> Result<(), Stop>
    ensures { (given : Named) (place : Around) → Does help_job given place place
        (stream (K.gained out.old) (K.faults out.old)) (stream (K.gained out.new) (K.faults out.new)) result }
{
    put(out, help_text())
}

/// Puts the version of `reraid`. It takes no memory.
#[tactic(auto, using(crate::proofs::Told::told))]
pub fn version<K: Sink>(out: &mut K) -> Result<(), Stop>
    ensures { (given : Named) (place : Around) → Does version_job given place place
        (stream (K.gained out.old) (K.faults out.old)) (stream (K.gained out.new) (K.faults out.new)) result }
{
    put(out, version_text())
}

/// Puts a text whole.
fn put<K: Sink>(out: &mut K, text: &str) -> Result<(), Stop>
    ensures { IsPrinted (stream (K.gained out.old) (K.faults out.old)) (stream (K.gained out.new) (K.faults out.new)) (Ok text.now) result }
{
    match out.put(text.as_bytes()) {
        Ok(()) => Ok(()),
        Err(_) => Err(Stop::OutFault),
    }
}
