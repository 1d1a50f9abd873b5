//! How dialogues end.
use crate::dialogues::{DISC, FLAGS, GO, GONE, GREETING, READ, device, joined, talk};
use image_source::{MemSink, MemSource};
use nbd_server::{NbdStop, serve};
use std::alloc::Global;
use std::process::Abort;
use std::test::Fail;

/// Looks whether a dialogue ends so.
fn ends<R: Abort>(rt: &R, alloc: Global, asked: &[&[u8]], want: NbdStop) -> Result<(), Fail> {
    let asked = joined(alloc, asked)?;
    let mut out = MemSink::new(alloc, 4096)?;
    let mut device = device(alloc, 0)?;
    let end = talk(rt, alloc, &mut device, &asked, &mut out)?;
    assert!(rt; end == Err(want));
    Ok(())
}

/// Flags of which one was not offered.
const WRONG_FLAGS: &[u8] = b"\x00\x00\x00\x04";
/// `EXPORT_NAME` of an export that there is not.
const WRONG_NAME: &[u8] = b"IHAVEOPT\x00\x00\x00\x01\x00\x00\x00\x01a";
/// An option with a wrong magic number.
const WRONG_MAGIC: &[u8] = b"IHAVEOPS\x00\x00\x00\x03\x00\x00\x00\x00";
/// A write of nine bytes, and eight of them.
const SHORT_WRITE: &[u8] =
    b"\x25\x60\x95\x13\x00\x00\x00\x01abcdefgh\x00\x00\x00\x00\x00\x00\x00\x00\x00\x00\x00\x0912345678";
/// The front of a request.
const FRONT: &[u8] = b"\x25\x60\x95\x13\x00\x00\x00\x00abcdefgh";

#[test]
fn malformed(rt: HostRuntime) -> Result<(), Fail> {
    let alloc = rt.alloc();
    ends(&rt, alloc, &[WRONG_FLAGS, GO, DISC], NbdStop::Malformed)?;
    ends(&rt, alloc, &[FLAGS, WRONG_NAME], NbdStop::Malformed)?;
    ends(&rt, alloc, &[FLAGS, WRONG_MAGIC], NbdStop::Malformed)?;
    // An option where a request is due.
    ends(&rt, alloc, &[FLAGS, GO, GO, DISC], NbdStop::Malformed)
}

#[test]
fn cut_short(rt: HostRuntime) -> Result<(), Fail> {
    let alloc = rt.alloc();
    ends(&rt, alloc, &[FLAGS, GO, FRONT], NbdStop::Malformed)?;
    ends(&rt, alloc, &[FLAGS, GO, SHORT_WRITE], NbdStop::Malformed)?;
    ends(&rt, alloc, &[b"\x00\x00\x00"], NbdStop::Malformed)
}

// The client goes away where it has taken two bytes of the reply to a read.
#[test]
fn away_in_mid_reply(rt: HostRuntime) -> Result<(), Fail> {
    let alloc = rt.alloc();
    let mut out = MemSink::new(alloc, 4096)?;
    out.fail_call(3, 2)?;
    let mut device = device(alloc, 0)?;
    let asked = joined(alloc, &[FLAGS, GO, READ, READ])?;
    let end = talk(&rt, alloc, &mut device, &asked, &mut out)?;
    assert!(rt; end == Err(NbdStop::OutFault));
    let want = joined(alloc, &[GREETING, GONE, b"\x67\x44"])?;
    assert!(rt; out.bytes() == want.as_slice());
    Ok(())
}

// The source fails where the second option would come: what came before is answered.
#[test]
fn a_source_that_fails(rt: HostRuntime) -> Result<(), Fail> {
    let alloc = rt.alloc();
    let asked = joined(alloc, &[FLAGS, GO, READ])?;
    let mut source = MemSource::new(alloc, &asked)?;
    source.fail_call(4)?;
    let mut out = MemSink::new(alloc, 4096)?;
    let mut device = device(alloc, 0)?;
    assert!(rt; device.bytes.len() < 1_000_000);
    assert!(rt; serve(alloc, &mut device, &mut source, &mut out) == Err(NbdStop::SourceFault));
    let want = joined(alloc, &[GREETING, GONE])?;
    assert!(rt; out.bytes() == want.as_slice());
    Ok(())
}
