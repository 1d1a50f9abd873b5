//! Taking just so many bytes of a source.
ghost use Rattle.std.specs.Prelude.{◌≡◌, ◌<◌, ◌≤◌, [], length, true, false, Bool};
ghost use Rattle.outside.specs.Causes.{HasCause};
ghost use Rattle.nbd_server.specs.Taken.{Fills, Raises, Skips, TakesHead, TakesOr};

use crate::NbdStop;
use outside::{Failed, Source};

/// Fills `to` with the next bytes, and gives their number: fewer than fit only at the end of the source.
fn fill<S: Source>(source: &mut S, to: &mut [u8]) -> Result<usize, Failed>
    ensures fills { Fills (S.left source.old) (S.left source.new) to.new result }
    ensures cause { HasCause (S.faults source.old) (S.faults source.new) result }
{
    let mut filled = 0;
    for _ in 0..to.len() {
        let count = source.take(&mut to[filled..])?;
        filled += count;
        if count == 0 || filled == to.len() {
            return Ok(filled);
        }
    }
    Ok(filled)
}

/// Takes the next `asked` bytes and lets them go, and gives their number: fewer only at the end of the source. `room` is
/// where they are taken to.
fn skip<S: Source>(source: &mut S, room: &mut [u8], asked: u32) -> Result<u32, Failed>
    requires { 0 < length room.old }
    ensures skips { Skips asked (S.left source.old) (S.left source.new) result }
    ensures cause { HasCause (S.faults source.old) (S.faults source.new) result }
{
    let mut taken = 0;
    for _ in 0..asked {
        let most = room.len().min((asked - taken) as usize);
        let count = source.take(&mut room[..most])?;
        taken += count as u32;
        if count == 0 || taken == asked {
            return Ok(taken);
        }
    }
    Ok(taken)
}

/// Takes the head of a message, or gives false where the source has ended before it.
pub(crate) fn take_head<S: Source>(source: &mut S, head: &mut [u8]) -> Result<bool, NbdStop>
    requires { 0 < length head.old }
    ensures takes { TakesHead (S.left source.old) (S.left source.new) head.new result }
    ensures faults { Raises NbdStop.SourceFault (S.faults source.old) (S.faults source.new) result }
{
    match fill(source, head) {
        Ok(count) if count == head.len() => Ok(true),
        Ok(0) => Ok(false),
        Ok(_) => Err(NbdStop::Malformed),
        Err(_) => Err(NbdStop::SourceFault),
    }
}

/// Takes the data of a message into `to`.
pub(crate) fn take_data<S: Source>(source: &mut S, to: &mut [u8]) -> Result<(), NbdStop>
    ensures takes { TakesOr (length to.new) (S.left source.old) (S.left source.new) (λ _ part. part ≡ to.new) result }
    ensures faults { Raises NbdStop.SourceFault (S.faults source.old) (S.faults source.new) result }
{
    match fill(source, to) {
        Ok(count) if count == to.len() => Ok(()),
        Ok(_) => Err(NbdStop::Malformed),
        Err(_) => Err(NbdStop::SourceFault),
    }
}

/// Takes the data of a message and lets them go. `room` is where they are taken to.
pub(crate) fn let_go<S: Source>(source: &mut S, room: &mut [u8], asked: u32) -> Result<(), NbdStop>
    requires { 0 < length room.old }
    ensures takes { TakesOr asked (S.left source.old) (S.left source.new) (λ _ _. Unit {0}) result }
    ensures faults { Raises NbdStop.SourceFault (S.faults source.old) (S.faults source.new) result }
{
    match skip(source, room, asked) {
        Ok(count) if count == asked => Ok(()),
        Ok(_) => Err(NbdStop::Malformed),
        Err(_) => Err(NbdStop::SourceFault),
    }
}
