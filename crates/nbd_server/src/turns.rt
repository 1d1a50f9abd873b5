//! One turn of a dialogue: a message is taken, and answered.
ghost use Rattle.std.specs.Prelude.{ℕ, List, ◌≡◌, ◌<◌, ◌≤◌, ◌*◌, ◌^◌, ◌==◌, if◌then◌else◌, true, length, IfErr, IfSome};
ghost use Rattle.std.specs.declared.option.Option.{Option};
ghost use Rattle.std.specs.declared.option.Option.TheVariants.{Some};
ghost use Rattle.outside.specs.Streams.{Puts};
ghost use Rattle.nbd_text.specs.Dialogue.{data_length, is_open};
ghost use Rattle.nbd_text.specs.Options.{answered, export_answer as export_answer_of, option_answer as option_answer_of};
ghost use Rattle.nbd_server.specs.Taken.{Raises, TakesOr};
ghost use Rattle.nbd_server.specs.Turns.{Turns, Replies, wire};

use crate::NbdStop;
use crate::reading::{ROOM, read_request};
use crate::taking::{let_go, take_data, take_head};
use block_device::BlockDevice;
use nbd_text::numbers::*;
use nbd_text::{
    Answer, OptionHead, Phase, Request, bare_answer, export_answer, flags_phase, info_answer,
    is_looked_at, simple_reply, u32_at,
};
use outside::{Sink, Source};

/// Puts bytes.
pub(crate) fn put<K: Sink>(out: &mut K, bytes: &[u8]) -> Result<(), NbdStop>
    ensures puts { Puts (K.gained out.old) (K.gained out.new) result bytes.now }
    ensures only { IfErr result (λ stop. stop ≡ NbdStop.OutFault) }
    ensures faults { Raises NbdStop.OutFault (K.faults out.old) (K.faults out.new) result }
{
    match out.put(bytes) {
        Ok(()) => Ok(()),
        Err(_) => Err(NbdStop::OutFault),
    }
}

/// The client's flags. Whatever the device is, it is left alone.
fn flags_turn<D: BlockDevice, S: Source>(source: &mut S) -> Result<Option<Phase>, NbdStop>
    ensures turns { (content : List ℕ) (gained : Option (List ℕ)) (device : D) → Turns D.reads content Phase.Flags (wire (S.left source.old) gained device) (wire (S.left source.new) gained device) result }
    ensures only { IfErr result (λ stop. stop ≡ NbdStop.OutFault → ⊥) }
    ensures faults { Raises NbdStop.SourceFault (S.faults source.old) (S.faults source.new) result }
{
    let mut head = [0u8; FLAGS_HEAD];
    if !take_head(source, &mut head)? {
        return Ok(None);
    }
    Ok(Some(flags_phase(u32_at(0, &head))))
}

/// Takes the data of an option, and answers it for a device of `size` bytes.
fn take_option<S: Source>(
    source: &mut S,
    room: &mut [u8],
    size: u64,
    plain: bool,
    head: &OptionHead,
) -> Result<Answer, NbdStop>
    requires { OPTION_MOST ≤ length room.old }
    ensures takes { TakesOr (if head.now.option == OPT_EXPORT_NAME then 0 else head.now.length) (S.left source.old) (S.left source.new)
        (λ answer text. answered answer.reply.items answer.phase ≡
        (if head.now.option == OPT_EXPORT_NAME then export_answer_of size plain head.now.length else option_answer_of size plain head.now.option text)) result }
    ensures faults { Raises NbdStop.SourceFault (S.faults source.old) (S.faults source.new) result }
{
    if head.option == OPT_EXPORT_NAME {
        return Ok(export_answer(size, plain, head.length));
    }
    if !is_looked_at(head.option, head.length) {
        let_go(source, room, head.length)?;
        return Ok(bare_answer(plain, head.option, head.length));
    }
    let text = &mut room[..head.length as usize];
    take_data(source, text)?;
    Ok(info_answer(size, plain, head.option, text))
}

/// An option, for a device of `size` bytes. Whatever the device is, it is left alone.
fn option_turn<D: BlockDevice, S: Source, K: Sink>(
    source: &mut S,
    out: &mut K,
    room: &mut [u8],
    size: u64,
    plain: bool,
) -> Result<Option<Phase>, NbdStop>
    requires { OPTION_MOST ≤ length room.old }
    ensures turns { (content : List ℕ) (device : D) → length content ≡ size → Turns D.reads content (Phase.Options plain)
        (wire (S.left source.old) (K.gained out.old) device) (wire (S.left source.new) (K.gained out.new) device) result }
    ensures source { Raises NbdStop.SourceFault (S.faults source.old) (S.faults source.new) result }
    ensures sink { Raises NbdStop.OutFault (K.faults out.old) (K.faults out.new) result }
{
    let mut bytes = [0u8; OPTION_HEAD];
    if !take_head(source, &mut bytes)? {
        return Ok(None);
    }
    let head = OptionHead::read(&bytes);
    if head.magic != IHAVEOPT {
        return Ok(Some(Phase::Malformed));
    }
    let answer = take_option(source, room, size, plain, &head)?;
    put(out, &answer.reply)?;
    Ok(Some(answer.phase))
}

/// Takes the data behind a request.
fn take_request<S: Source>(
    source: &mut S,
    room: &mut [u8],
    request: &Request,
) -> Result<(), NbdStop>
    requires { 0 < length room.old }
    ensures takes { TakesOr (data_length (Some request.now)) (S.left source.old) (S.left source.new) (λ _ _. Unit {0}) result }
    ensures faults { Raises NbdStop.SourceFault (S.faults source.old) (S.faults source.new) result }
{
    if request.command != CMD_WRITE {
        return Ok(());
    }
    let_go(source, room, request.length)
}

/// Answers a request.
fn answer_request<D: BlockDevice, K: Sink>(
    device: &mut D,
    out: &mut K,
    room: &mut [u8],
    request: &Request,
) -> Result<(), NbdStop>
    requires room { length room.old ≡ ROOM }
    requires small { 512 * D.size device.old < 2 ^ 63 }
    ensures replies { (left : Option (List ℕ)) → IfSome (D.content device.old) (λ content. Replies D.reads content request.now
        (wire left (K.gained out.old) device.old) (wire left (K.gained out.new) device.new) result) }
    ensures only { IfErr result (λ stop. stop ≡ NbdStop.OutFault) }
    ensures kept { (D.content device.new ≡ D.content device.old) × (D.size device.new ≡ D.size device.old) }
    ensures fixed { D.fixed device.new ≡ D.fixed device.old }
    ensures later { D.faults device.old ≤ D.faults device.new }
    ensures sink { Raises NbdStop.OutFault (K.faults out.old) (K.faults out.new) result }
{
    let size = 512 * device.sectors();
    if !request.is_read(size) {
        return put(out, &simple_reply(request.error(size), request.handle));
    }
    match read_request(device, room, request) {
        Ok(start) => put(
            out,
            &room[start..start + REPLY_HEAD + request.length as usize],
        ),
        Err(_) => put(out, &simple_reply(EIO, request.handle)),
    }
}

/// A request.
fn request_turn<D: BlockDevice, S: Source, K: Sink>(
    device: &mut D,
    source: &mut S,
    out: &mut K,
    room: &mut [u8],
) -> Result<Option<Phase>, NbdStop>
    requires room { length room.old ≡ ROOM }
    requires small { 512 * D.size device.old < 2 ^ 63 }
    ensures turns { IfSome (D.content device.old) (λ content. Turns D.reads content Phase.Requests
        (wire (S.left source.old) (K.gained out.old) device.old) (wire (S.left source.new) (K.gained out.new) device.new) result) }
    ensures kept { (D.content device.new ≡ D.content device.old) × (D.size device.new ≡ D.size device.old) }
    ensures fixed { D.fixed device.new ≡ D.fixed device.old }
    ensures later { D.faults device.old ≤ D.faults device.new }
    ensures source { Raises NbdStop.SourceFault (S.faults source.old) (S.faults source.new) result }
    ensures sink { Raises NbdStop.OutFault (K.faults out.old) (K.faults out.new) result }
{
    let mut bytes = [0u8; REQUEST_HEAD];
    if !take_head(source, &mut bytes)? {
        return Ok(None);
    }
    let Some(request) = Request::read(&bytes) else {
        return Ok(Some(Phase::Malformed));
    };
    take_request(source, room, &request)?;
    if request.command == CMD_DISC {
        return Ok(Some(Phase::Closed));
    }
    answer_request(device, out, room, &request)?;
    Ok(Some(Phase::Requests))
}

/// The next message of a dialogue that goes on, and where the dialogue stands after it; or None where the source has ended before it.
pub(crate) fn turn<D: BlockDevice, S: Source, K: Sink>(
    device: &mut D,
    source: &mut S,
    out: &mut K,
    room: &mut [u8],
    phase: Phase,
) -> Result<Option<Phase>, NbdStop>
    requires open { is_open phase ≡ true }
    requires room { length room.old ≡ ROOM }
    requires small { 512 * D.size device.old < 2 ^ 63 }
    ensures turns { IfSome (D.content device.old) (λ content. Turns D.reads content phase
        (wire (S.left source.old) (K.gained out.old) device.old) (wire (S.left source.new) (K.gained out.new) device.new) result) }
    ensures kept { (D.content device.new ≡ D.content device.old) × (D.size device.new ≡ D.size device.old) }
    ensures fixed { D.fixed device.new ≡ D.fixed device.old }
    ensures later { D.faults device.old ≤ D.faults device.new }
    ensures source { Raises NbdStop.SourceFault (S.faults source.old) (S.faults source.new) result }
    ensures sink { Raises NbdStop.OutFault (K.faults out.old) (K.faults out.new) result }
{
    match phase {
        Phase::Flags => flags_turn::<D, S>(source),
        Phase::Options(plain) => {
            option_turn::<D, S, K>(source, out, room, 512 * device.sectors(), plain)
        }
        Phase::Requests => request_turn(device, source, out, room),
        Phase::Closed | Phase::Malformed => Ok(None),
    }
}
