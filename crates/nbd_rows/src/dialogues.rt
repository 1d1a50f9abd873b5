//! What clients ask, and what they are answered.
use crate::MemDevice;
use image_source::{MemSink, MemSource};
use nbd_server::{NbdStop, serve};
use std::alloc::Global;
use std::process::Abort;
use std::test::Fail;

/// What a server says first.
pub const GREETING: &[u8] = b"NBDMAGICIHAVEOPT\x00\x03";
/// A client's flags: the fixed newstyle, without zeros.
pub const FLAGS: &[u8] = b"\x00\x00\x00\x03";
/// `GO` for the empty name, asking for the sizes of blocks.
pub const GO: &[u8] = b"IHAVEOPT\x00\x00\x00\x07\x00\x00\x00\x08\x00\x00\x00\x00\x00\x01\x00\x03";
/// What it is answered of a device of 1,024 bytes.
pub const GONE: &[u8] =
    b"\x00\x03\xe8\x89\x04\x55\x65\xa9\x00\x00\x00\x07\x00\x00\x00\x03\x00\x00\x00\x0c\x00\x00\x00\x00\x00\x00\x00\x00\x04\x00\x01\x03\x00\x03\xe8\x89\x04\x55\x65\xa9\x00\x00\x00\x07\x00\x00\x00\x03\x00\x00\x00\x0e\x00\x03\x00\x00\x00\x01\x00\x00\x10\x00\x02\x00\x00\x00\x00\x03\xe8\x89\x04\x55\x65\xa9\x00\x00\x00\x07\x00\x00\x00\x01\x00\x00\x00\x00";
/// A read of four bytes from byte 510 on.
pub const READ: &[u8] =
    b"\x25\x60\x95\x13\x00\x00\x00\x00abcdefgh\x00\x00\x00\x00\x00\x00\x01\xfe\x00\x00\x00\x04";
/// Its reply.
pub const FOUR: &[u8] = b"\x67\x44\x66\x98\x00\x00\x00\x00abcdefgh\x08\x09\x0a\x0b";
/// Its reply where the device failed.
pub const EIO: &[u8] = b"\x67\x44\x66\x98\x00\x00\x00\x05abcdefgh";
/// The end.
pub const DISC: &[u8] =
    b"\x25\x60\x95\x13\x00\x00\x00\x02abcdefgh\x00\x00\x00\x00\x00\x00\x00\x00\x00\x00\x00\x00";

/// A device of two sectors, whose bytes count up to 250 and begin again.
pub fn device(alloc: Global, failing: u64) -> Result<MemDevice, Fail> {
    let mut bytes = Vec::new(alloc);
    for i in 0..1024u32 {
        bytes.push((i % 251) as u8)?;
    }
    Ok(MemDevice {
        bytes,
        failing,
        reads: 0,
        faults: 0,
    })
}

/// Serves a device to a client that sends these bytes.
pub fn talk<R: Abort>(
    rt: &R,
    alloc: Global,
    device: &mut MemDevice,
    asked: &[u8],
    out: &mut MemSink,
) -> Result<Result<(), NbdStop>, Fail> {
    let mut source = MemSource::new(alloc, asked)?;
    assert!(rt; device.bytes.len() < 100_000_000);
    Ok(serve(alloc, device, &mut source, out))
}

/// All parts, one after the other.
pub fn joined(alloc: Global, parts: &[&[u8]]) -> Result<Vec<u8>, Fail> {
    let mut all = Vec::new(alloc);
    for part in parts {
        all.extend_from_slice(part)?;
    }
    Ok(all)
}

/// Looks whether a client that asks this is answered that after the greeting, up to an end without fault.
fn answers<R: Abort>(
    rt: &R,
    alloc: Global,
    failing: u64,
    asked: &[&[u8]],
    want: &[&[u8]],
) -> Result<(), Fail> {
    let asked = joined(alloc, asked)?;
    let want = joined(alloc, want)?;
    let mut out = MemSink::new(alloc, 4096)?;
    let mut device = device(alloc, failing)?;
    let end = talk(rt, alloc, &mut device, &asked, &mut out)?;
    assert!(rt; end == Ok(()));
    assert!(rt; out.bytes() == want.as_slice());
    Ok(())
}

#[test]
fn an_ordinary_client(rt: HostRuntime) -> Result<(), Fail> {
    let asked = [FLAGS, GO, READ, READ, DISC];
    answers(&rt, rt.alloc(), 0, &asked, &[GREETING, GONE, FOUR, FOUR])
}

// A reading that fails is told, and the next one is answered.
#[test]
fn a_fault_in_between(rt: HostRuntime) -> Result<(), Fail> {
    let asked = [FLAGS, GO, READ, READ, READ];
    let want = [GREETING, GONE, FOUR, EIO, FOUR];
    answers(&rt, rt.alloc(), 2, &asked, &want)
}

/// `EXPORT_NAME` of the empty name.
const NAME: &[u8] = b"IHAVEOPT\x00\x00\x00\x01\x00\x00\x00\x00";
/// Its reply, for a device of 1,024 bytes.
const SIZE: &[u8] = b"\x00\x00\x00\x00\x00\x00\x04\x00\x01\x03";
/// Flags of a client that wants the zeros after it.
const WITH_ZEROS: &[u8] = b"\x00\x00\x00\x01";
/// The zeros.
const ZEROS: &[u8] = &[0; 124];

// A client of the old way in, that wants the zeros left out; and one that does not.
#[test]
fn by_the_name_of_the_export(rt: HostRuntime) -> Result<(), Fail> {
    let asked = [FLAGS, NAME, READ];
    answers(&rt, rt.alloc(), 0, &asked, &[GREETING, SIZE, FOUR])
}

#[test]
fn with_zeros(rt: HostRuntime) -> Result<(), Fail> {
    let asked = [WITH_ZEROS, NAME, READ, DISC];
    answers(&rt, rt.alloc(), 0, &asked, &[GREETING, SIZE, ZEROS, FOUR])
}

// LIST, STRUCTURED_REPLY, GO for the name "a", INFO cut short, LIST with data, and ABORT.
#[test]
fn options_and_their_refusals(rt: HostRuntime) -> Result<(), Fail> {
    let asked = [
        FLAGS,
        b"IHAVEOPT\x00\x00\x00\x03\x00\x00\x00\x00".as_slice(),
        b"IHAVEOPT\x00\x00\x00\x08\x00\x00\x00\x00".as_slice(),
        b"IHAVEOPT\x00\x00\x00\x07\x00\x00\x00\x07\x00\x00\x00\x01a\x00\x00".as_slice(),
        b"IHAVEOPT\x00\x00\x00\x06\x00\x00\x00\x05\x00\x00\x00\x00\x00".as_slice(),
        b"IHAVEOPT\x00\x00\x00\x03\x00\x00\x00\x01x".as_slice(),
        b"IHAVEOPT\x00\x00\x00\x02\x00\x00\x00\x00".as_slice(),
    ];
    let want = [
        GREETING,
        b"\x00\x03\xe8\x89\x04\x55\x65\xa9\x00\x00\x00\x03\x00\x00\x00\x02\x00\x00\x00\x04\x00\x00\x00\x00".as_slice(),
        b"\x00\x03\xe8\x89\x04\x55\x65\xa9\x00\x00\x00\x03\x00\x00\x00\x01\x00\x00\x00\x00".as_slice(),
        b"\x00\x03\xe8\x89\x04\x55\x65\xa9\x00\x00\x00\x08\x80\x00\x00\x01\x00\x00\x00\x00".as_slice(),
        b"\x00\x03\xe8\x89\x04\x55\x65\xa9\x00\x00\x00\x07\x80\x00\x00\x06\x00\x00\x00\x00".as_slice(),
        b"\x00\x03\xe8\x89\x04\x55\x65\xa9\x00\x00\x00\x06\x80\x00\x00\x03\x00\x00\x00\x00".as_slice(),
        b"\x00\x03\xe8\x89\x04\x55\x65\xa9\x00\x00\x00\x03\x80\x00\x00\x03\x00\x00\x00\x00".as_slice(),
        b"\x00\x03\xe8\x89\x04\x55\x65\xa9\x00\x00\x00\x02\x00\x00\x00\x01\x00\x00\x00\x00".as_slice(),
    ];
    answers(&rt, rt.alloc(), 0, &asked, &want)
}

// A write of two bytes, one that wants them on the medium at once (FUA), FLUSH, a read past the end, one that is too long, one with a
// flag, one of nothing, and a command that there is not.
#[test]
fn requests_and_their_refusals(rt: HostRuntime) -> Result<(), Fail> {
    let asked = [
        FLAGS,
        GO,
        b"\x25\x60\x95\x13\x00\x00\x00\x01write  1\x00\x00\x00\x00\x00\x00\x00\x00\x00\x00\x00\x02xy".as_slice(),
        b"\x25\x60\x95\x13\x00\x01\x00\x01at once1\x00\x00\x00\x00\x00\x00\x00\x00\x00\x00\x00\x02xy".as_slice(),
        b"\x25\x60\x95\x13\x00\x00\x00\x03flush  2\x00\x00\x00\x00\x00\x00\x00\x00\x00\x00\x00\x00".as_slice(),
        b"\x25\x60\x95\x13\x00\x00\x00\x00past   3\x00\x00\x00\x00\x00\x00\x03\xff\x00\x00\x00\x02".as_slice(),
        b"\x25\x60\x95\x13\x00\x00\x00\x00long   4\x00\x00\x00\x00\x00\x00\x00\x00\x02\x00\x00\x01".as_slice(),
        b"\x25\x60\x95\x13\x00\x01\x00\x00flag   5\x00\x00\x00\x00\x00\x00\x00\x00\x00\x00\x00\x01".as_slice(),
        b"\x25\x60\x95\x13\x00\x00\x00\x00none   6\x00\x00\x00\x00\x00\x00\x04\x00\x00\x00\x00\x00".as_slice(),
        b"\x25\x60\x95\x13\x00\x00\x00\x05cache  7\x00\x00\x00\x00\x00\x00\x00\x00\x00\x00\x00\x01".as_slice(),
        b"\x25\x60\x95\x13\x00\x00\x00\x00last   8\x00\x00\x00\x00\x00\x00\x03\xff\x00\x00\x00\x01".as_slice(),
    ];
    let want = [
        GREETING,
        GONE,
        b"\x67\x44\x66\x98\x00\x00\x00\x01write  1".as_slice(),
        b"\x67\x44\x66\x98\x00\x00\x00\x01at once1".as_slice(),
        b"\x67\x44\x66\x98\x00\x00\x00\x16flush  2".as_slice(),
        b"\x67\x44\x66\x98\x00\x00\x00\x16past   3".as_slice(),
        b"\x67\x44\x66\x98\x00\x00\x00\x16long   4".as_slice(),
        b"\x67\x44\x66\x98\x00\x00\x00\x16flag   5".as_slice(),
        b"\x67\x44\x66\x98\x00\x00\x00\x00none   6".as_slice(),
        b"\x67\x44\x66\x98\x00\x00\x00\x16cache  7".as_slice(),
        b"\x67\x44\x66\x98\x00\x00\x00\x00last   8\x13".as_slice(),
    ];
    answers(&rt, rt.alloc(), 0, &asked, &want)
}

/// A read of 32 MiB from byte 1 on.
const LONG_READ: &[u8] =
    b"\x25\x60\x95\x13\x00\x00\x00\x00abcdefgh\x00\x00\x00\x00\x00\x00\x00\x01\x02\x00\x00\x00";

// The longest read, of a client of the old way in, which was told no sizes of blocks.
#[test]
fn the_longest_read(rt: HostRuntime) -> Result<(), Fail> {
    let alloc = rt.alloc();
    let mut bytes = vec![in alloc; 7u8; 33_555_456]?;
    bytes[1] = 1;
    bytes[33_554_432] = 2;
    bytes[33_554_433] = 3;
    let mut device = MemDevice {
        bytes,
        failing: 0,
        reads: 0,
        faults: 0,
    };
    let mut out = MemSink::new(alloc, 33_560_000)?;
    let asked = joined(alloc, &[FLAGS, NAME, LONG_READ])?;
    assert!(rt; talk(&rt, alloc, &mut device, &asked, &mut out)? == Ok(()));
    assert!(rt; out.bytes().len() == 18 + 10 + 16 + 33_554_432);
    assert!(rt;
        &out.bytes()[28..46] == b"\x67\x44\x66\x98\x00\x00\x00\x00abcdefgh\x01\x07".as_slice()
    );
    assert!(rt; &out.bytes()[18 + 10 + 16 + 33_554_430..] == b"\x07\x02".as_slice());
    Ok(())
}
