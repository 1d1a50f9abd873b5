//! A cursor over the lines of a text.
ghost use Rattle.std.specs.Prelude.{◌≡◌, ◌≢◌, ◌+◌, ◌++◌, ◌∷◌, [], MatchResult};
ghost use Rattle.plan_text.specs.declared.fault.PlanFault.TheVariants.{Line};
ghost use Rattle.plan_text.specs.PlanText.{IsLine};

use crate::fault::PlanFault;
use std::marker::Model;
use value_text::cut;

/// A cursor over the lines of a text. Contracts see what is left of the text, and how many lines were taken.
#[derive(Drop)]
pub struct PlanReader<'a> {
    rest: &'a [u8],
    taken: u64,
}

impl<'a> Model for PlanReader<'a> {
    ghost use Rattle.std.specs.Prelude.{◌+◌, ◌<◌, ◌^◌, length};
    ghost use Rattle.plan_text.specs.Reading.{Cursor};

    ghost Value = { Cursor };

    ghost view = { λ r. record { rest = r.rest.now; taken = r.taken } };

    ghost invariant = { λ r. r.taken + length r.rest.now < 2 ^ 63 };
}

impl<'a> PlanReader<'a> {
    /// Before the first line of a text.
    pub fn new(text: &'a [u8]) -> Self
        ensures rest { result.rest ≡ text.entry.now }
        ensures taken { result.taken ≡ 0 }
    {
        PlanReader {
            rest: text,
            taken: 0,
        }
    }

    /// That nothing is left; what is left is refused at the next line.
    pub fn end(&self) -> Result<(), PlanFault>
        ensures { MatchResult result (λ _. self.now.rest ≡ []) (λ fault. (fault ≡ Line (self.now.taken + 1)) × (self.now.rest ≢ [])) }
    {
        if self.rest.is_empty() {
            Ok(())
        } else {
            Err(PlanFault::Line(self.taken + 1))
        }
    }

    /// Takes the next line, without its line feed. Where none is left that a line feed ends, nothing is taken.
    pub fn next_line(&mut self) -> Result<&'a [u8], PlanFault>
        ensures { MatchResult result
            (λ line. IsLine line.now × (self.old.rest ≡ line.now ++ 10 ∷ self.new.rest) × (self.new.taken ≡ self.old.taken + 1))
            (λ fault. (fault ≡ Line (self.old.taken + 1)) × IsLine self.old.rest) }
    {
        match cut(self.rest, b'\n') {
            None => Err(PlanFault::Line(self.taken + 1)),
            Some((line, rest)) => {
                self.rest = rest;
                self.taken += 1;
                Ok(line)
            }
        }
    }

    /// The refusal of the line that was taken last.
    pub fn refusal(&self) -> PlanFault
        ensures { result ≡ Line self.now.taken }
    {
        PlanFault::Line(self.taken)
    }
}
