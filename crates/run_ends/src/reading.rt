//! Reading a source to its end.
ghost use Rattle.std.specs.Prelude.{◌≡◌, ◌≤◌, ◌<◌, ◌^◌, length, IfOk, IfErr, IfSome, OnOk};
ghost use Rattle.std.specs.Io.KnownBytes.{IsAtEnd};
ghost use Rattle.run_ends.specs.Counts.{Raises};
ghost use Rattle.run_ends.specs.Source.{IsUnread, TakesFew};
ghost use Rattle.run_ends.specs.Stops.{IsTextless};

use crate::stop::{Refusal, Stop};
use outside::Source;
use std::alloc::Global;

/// Why the text of a source is wanting.
#[derive(Clone, Copy)]
pub enum Unread {
    /// The source had more bytes left than the text may have.
    TooLong,
    /// The source failed.
    Fault,
    /// Out of memory.
    OutOfMemory,
}

/// The most bytes that one call takes.
const PIECE: usize = 4096;

/// All that a source has left, unless that is more than `most` bytes. At most one call of `take` more than `most`
/// is made, since each but the last gives at least one byte.
#[tactic(auto, using(crate::proofs::Taking::nothing_read, crate::proofs::Taking::consumes_more, crate::proofs::Taking::all_read, crate::proofs::Taking::read_was_left))]
pub fn read_all<S: Source>(alloc: Global, source: &mut S, most: usize) -> Result<Vec<u8>, Unread>
    requires { most < 2 ^ 32 }
    ensures text { IfOk result (λ text. IfSome (S.left source.old) (λ left. text.items ≡ left)) }
    ensures short { IfOk result (λ text. length text.items ≤ most) }
    ensures ends { IfErr result (IsUnread most (S.left source.old)) }
    ensures takes { TakesFew most (S.left source.old) (S.left source.new) }
    ensures end { OnOk result (IsAtEnd (S.left source.new)) }
    ensures faults { Raises Unread.Fault (S.faults source.old) (S.faults source.new) result }
{
    let mut text = Vec::new(alloc);
    let mut piece = [0u8; PIECE];
    for _ in 0..most + 1 {
        let room = (most + 1 - text.len()).min(PIECE);
        let count = source.take(&mut piece[..room]).map_err(|_| Unread::Fault)?;
        if count == 0 {
            return Ok(text);
        }
        text.extend_from_slice(&piece[..count])
            .map_err(|_| Unread::OutOfMemory)?;
        if text.len() > most {
            return Err(Unread::TooLong);
        }
    }
    unreachable!()
}

/// The text that a source has left, for a job: of more than `most` bytes `long` is the refusal.
pub fn text_left<S: Source>(
    alloc: Global,
    source: &mut S,
    most: usize,
    long: Refusal,
) -> Result<Vec<u8>, Stop>
    requires { most < 2 ^ 32 }
    ensures text { IfOk result (λ text. IfSome (S.left source.old) (λ left. text.items ≡ left)) }
    ensures short { IfOk result (λ text. length text.items ≤ most) }
    ensures ends { IfErr result (IsTextless most long (S.left source.old)) }
    ensures takes { TakesFew most (S.left source.old) (S.left source.new) }
    ensures end { OnOk result (IsAtEnd (S.left source.new)) }
    ensures faults { Raises Stop.SourceFault (S.faults source.old) (S.faults source.new) result }
{
    match read_all(alloc, source, most) {
        Ok(text) => Ok(text),
        Err(Unread::TooLong) => Err(Stop::Refused(long)),
        Err(Unread::Fault) => Err(Stop::SourceFault),
        Err(Unread::OutOfMemory) => Err(Stop::OutOfMemory),
    }
}
