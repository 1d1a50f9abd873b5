//! A whole dialogue.
ghost use Rattle.std.specs.Prelude.{◌≡◌, ◌<◌, ◌≤◌, ◌*◌, ◌^◌, length, IfSome};
ghost use Rattle.nbd_text.specs.Dialogue.{after_greeting, dialogue};
ghost use Rattle.nbd_server.specs.Served.{Serves, Talks, end_of as end_of_phase};
ghost use Rattle.nbd_server.specs.Taken.{Raises};
ghost use Rattle.nbd_server.specs.Turns.{wire};

use crate::NbdStop;
use crate::reading::{ROOM, room_for};
use crate::turns::{put, turn};
use block_device::BlockDevice;
use nbd_text::{Phase, greeting};
use outside::{Sink, Source};
use std::alloc::Global;

/// How a run ends in a phase that is over.
fn end_of(phase: Phase) -> Result<(), NbdStop>
    ensures { result ≡ end_of_phase phase }
{
    match phase {
        Phase::Malformed => Err(NbdStop::Malformed),
        _ => Ok(()),
    }
}

/// What follows the greeting.
fn talk<D: BlockDevice, S: Source, K: Sink>(
    device: &mut D,
    source: &mut S,
    out: &mut K,
    room: &mut [u8],
) -> Result<(), NbdStop>
    requires room { length room.old ≡ ROOM }
    requires small { 512 * D.size device.old < 2 ^ 63 }
    ensures talks { IfSome (D.content device.old) (λ content. Talks D.reads (after_greeting content)
        (wire (S.left source.old) (K.gained out.old) device.old) (wire (S.left source.new) (K.gained out.new) device.new) result) }
    ensures kept { (D.content device.new ≡ D.content device.old) × (D.size device.new ≡ D.size device.old) }
    ensures fixed { D.fixed device.new ≡ D.fixed device.old }
    ensures later { D.faults device.old ≤ D.faults device.new }
    ensures source { Raises NbdStop.SourceFault (S.faults source.old) (S.faults source.new) result }
    ensures sink { Raises NbdStop.OutFault (K.faults out.old) (K.faults out.new) result }
{
    let mut phase = Phase::Flags;
    for _ in 0..u64::MAX {
        let Some(next) = turn(device, source, out, room, phase)? else {
            return Ok(());
        };
        if !next.is_open() {
            return end_of(next);
        }
        phase = next;
    }
    Ok(())
}

/// Serves a device to the client that speaks over a source and a sink: the greeting, and then an answer to each message, until the
/// client ends the dialogue or the input ends between two messages.
///
/// All memory is taken before the greeting. A reply is put once it is whole, before more is taken, and no byte is taken behind the end.
/// The device is read for requests alone, and asked for their sectors alone. A reading of it that fails is told the client as `EIO`,
/// and nothing else is: so by the device's `fails` just a request of which a sector is lost, or in whose reading a fault rose. The
/// dialogue goes on. Every run ends, at the latest with its input.
pub fn serve<D: BlockDevice, S: Source, K: Sink>(
    alloc: Global,
    device: &mut D,
    source: &mut S,
    out: &mut K,
) -> Result<(), NbdStop>
    requires { 512 * D.size device.old < 2 ^ 63 }

    // What is put is what the dialogue over the device's bytes says for the bytes that are taken, and the device was read as it says.
    ensures serves { IfSome (D.content device.old) (λ content. Serves D.reads (dialogue content)
        (wire (S.left source.old) (K.gained out.old) device.old) (wire (S.left source.new) (K.gained out.new) device.new) result) }
    ensures kept { (D.content device.new ≡ D.content device.old) × (D.size device.new ≡ D.size device.old) }
    ensures fixed { D.fixed device.new ≡ D.fixed device.old }
    ensures later { D.faults device.old ≤ D.faults device.new }
    ensures source { Raises NbdStop.SourceFault (S.faults source.old) (S.faults source.new) result }
    ensures sink { Raises NbdStop.OutFault (K.faults out.old) (K.faults out.new) result }
{
    let mut room = room_for(alloc, ROOM)?;
    put(out, &greeting())?;
    talk(device, source, out, &mut room)
}
