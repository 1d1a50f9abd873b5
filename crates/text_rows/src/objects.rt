//! Lines as they are to be read, written out by hand.
use arrayvec::ArrayVec;
use json_lines::{json_line, json_next};
use raid_params::{Geometry, Head, Level, Pattern, Slots, Syndrome, Wide};
use std::test::Fail;
use value_text::read_set;

/// Four members, of which the second is missing.
fn one_missing() -> Wide {
    let mut slots = Slots::new();
    slots.push(Some(0));
    slots.push(None);
    slots.push(Some(2));
    slots.push(Some(1));
    let head = Head {
        level: Level::Raid6,
        members: 4,
        pattern: Pattern::La,
        delay: 1,
        syndrome: Syndrome::ByData,
        chunk: 128,
        offset: 2048,
    };
    Wide {
        geo: Geometry { head, slots },
        bases: ArrayVec::new(),
    }
}

/// Its line.
const LINE: &[u8] =
    b"{\"chunk\":128,\"level\":6,\"name\":null,\"offset\":2048,\"pattern\":\"la\",\"rank\":7,\"slots\":[0,null,2,1],\"syndrome\":\"by-data\"}\n";

#[test]
fn a_set(rt: HostRuntime) -> Result<(), Fail> {
    let line = json_line(rt.alloc(), 7, &one_missing())?;
    assert!(rt; line.as_slice() == LINE);
    Ok(())
}

#[test]
fn where_the_next_page_begins(rt: HostRuntime) -> Result<(), Fail> {
    let next = json_next(rt.alloc(), 8, 18)?;
    assert!(rt; next.as_slice() == b"{\"next\":8,\"total\":18}\n".as_slice());
    Ok(())
}

/// The line of a set whose parity stays for 16 rows: md has no name for its layout.
const DELAYED: &[u8] =
    b"{\"chunk\":128,\"level\":5,\"name\":null,\"offset\":2048,\"pattern\":\"la*16\",\"rank\":3,\"slots\":[0,1,2],\"syndrome\":\"none\"}\n";

#[test]
fn a_set_with_a_delay(rt: HostRuntime) -> Result<(), Fail> {
    let set = read_set(b"5:la*16:none:128:2048:0,1,2").ok_or("a set")?;
    let line = json_line(rt.alloc(), 3, &set)?;
    assert!(rt; line.as_slice() == DELAYED);
    Ok(())
}

/// The line of a set in which the data of the first image begin one sector after those of the others.
const APART: &[u8] =
    b"{\"chunk\":1,\"level\":5,\"name\":\"left-symmetric\",\"offset\":[1,0,0],\"pattern\":\"ls\",\"rank\":24,\"slots\":[0,1,2],\"syndrome\":\"none\"}\n";

#[test]
fn a_set_with_bases(rt: HostRuntime) -> Result<(), Fail> {
    let set = read_set(b"5:ls:none:1:1+0+0:0,1,2").ok_or("a set")?;
    let line = json_line(rt.alloc(), 24, &set)?;
    assert!(rt; line.as_slice() == APART);
    Ok(())
}
