//! Volumes of damaged images that were worked out by hand.
ghost use Rattle.image_source.specs.Bytes.{shelf_tells};
ghost use Rattle.image_source.specs.Memory.{seen_of};

use crate::objects::{are_sectors, repeat, serve_damaged, set_of, two_of_ones};
use arrayvec::ArrayVec;
use gates::{Gate, OpenGate};
use image_source::{MemImages, MemSink};
use outside::{Failed, Images, SECTOR};
use raid_params::{Level, Pattern, Syndrome, Wide};
use rescue_map::{lost_text, read_rescue, salvage};
use std::alloc::Global;
use std::process::Abort;
use std::test::Fail;
use std::thread::Threads;
use test_objects::{Meeting, attached};

/// Sector 0 of image 0 was not read. A comment, zeros in front of hexadecimal digits and a last line that has no end are in
/// it.
const FIRST: &[u8] = b"map 0\n# x\n0x0 ? 1\n0x0 0x200 -\n0x0200 0x200 +";

/// Sector 0 of images 0 and 1 was not read.
const BOTH: &[u8] =
    b"map 0\n# x\n0x0 ? 1\n0x0 0x200 -\n0x200 0x200 +\nmap 1\n0 +\n0 512 -\n512 512 +\n";

/// Images in memory, of which the first `bad` have a bad sector 0.
#[derive(Drop)]
struct Strict {
    images: MemImages,
    bad: u32,
    asked: bool,
}

impl Images for Strict {
    ghost seen = { λ strict. seen_of strict.images };

    ghost tells_bytes = { λ strict. shelf_tells strict.images };

    fn attach(&mut self, name: &str) -> Result<u64, Failed> {
        self.images.attach(name)
    }

    fn read(&mut self, image: u32, sector: u64, to: &mut [u8]) -> Result<(), Failed> {
        self.asked |= image < self.bad && sector == 0;
        self.images.read(image, sector, to)
    }

    fn length(&self, image: u32) -> Option<u64> {
        self.images.length(image)
    }
}

// Writes what is salvaged of `count` images.
fn salvaged<R: Threads + Sync + Abort, I: Images, G: Gate + Sync>(
    rt: &R,
    alloc: Global,
    images: &mut I,
    count: u8,
    set: &Wide,
    end: u64,
    text: &[u8],
    gate: &G,
) -> Result<MemSink, Fail> {
    serve_damaged(rt, images, count, set, end);
    let rescue = read_rescue(alloc, text, count)?;
    let mut sink = MemSink::new(alloc, 128 * SECTOR)?;
    salvage(rt, alloc, images, set, end, &rescue, &mut sink, gate)?;
    Ok(sink)
}

// Three members of two sectors, left-symmetric in chunks of a sector: 1 and 2, 3 and 4, 2 and 6. Looks what is salvaged where the
// first `bad` images have a bad sector 0, which is never asked for, and what is said to be lost.
fn three_give<R: Threads + Sync + Abort>(
    rt: &R,
    alloc: Global,
    bad: u32,
    text: &[u8],
    want: &[u8],
    lost: &[u8],
) -> Result<(), Fail> {
    let held = [Some(0), Some(1), Some(2)];
    let set = Wide {
        geo: set_of(rt, Level::Raid5, Pattern::Ls, Syndrome::NoQ, 1, &held),
        bases: ArrayVec::new(),
    };
    let images = attached(alloc, &[&[1, 2], &[3, 4], &[2, 6]])?;
    let mut images = Strict {
        images,
        bad,
        asked: false,
    };
    let sink = salvaged(rt, alloc, &mut images, 3, &set, 2, text, &OpenGate)?;
    assert!(rt; are_sectors(sink.bytes(), want));
    assert!(rt; !images.asked);
    serve_damaged(rt, &images, 3, &set, 2);
    let rescue = read_rescue(alloc, text, 3)?;
    let said = lost_text(alloc, &set, 2, &rescue)?;
    assert!(rt; said.as_slice() == lost);
    Ok(())
}

/// How many images have a bad sector 0, the text of maps, what is salvaged, and what is said to be lost.
type Salvaged = (u32, &'static [u8], &'static [u8], &'static [u8]);

static ROWS: [Salvaged; 3] = [
    (0, b"", &[1, 3, 6, 2], b"good 4 of 4\n"),
    (1, FIRST, &[1, 3, 6, 2], b"good 4 of 4\n"),
    (2, BOTH, &[0, 0, 6, 2], b"lost 0 2\ngood 2 of 4\n"),
];

#[test]
fn sectors_that_are_bad(rt: HostRuntime) -> Result<(), Fail> {
    for (bad, text, want, lost) in &ROWS {
        three_give(&rt, rt.alloc(), *bad, text, want, lost)?;
    }
    Ok(())
}

// Two members of 64 sectors of ones: the volume is one block of 128 sectors, in two pieces, each of which passes the gate once.
#[test]
fn pieces_meet(rt: HostRuntime) -> Result<(), Fail> {
    let gate = Meeting::default();
    let set = Wide {
        geo: set_of(
            &rt,
            Level::Raid0,
            Pattern::Plain,
            Syndrome::NoQ,
            1,
            &[Some(0), Some(1)],
        ),
        bases: ArrayVec::new(),
    };
    let mut images = two_of_ones(rt.alloc(), 64 * SECTOR)?;
    let sink = salvaged(&rt, rt.alloc(), &mut images, 2, &set, 64, b"", &gate)?;
    assert_eq!(rt; <(u64, u64, u64, bool)>::from(&gate), (1, 1, 0, false));
    assert!(rt; sink.bytes().len() == 128 * SECTOR && repeat(sink.bytes(), 1));
    Ok(())
}
