//! Sets, images and sinks in memory, as the tests have them.
ghost use Rattle.std.specs.Prelude.{◌≡◌, ◌<◌, length, All, None};
ghost use Rattle.near_volume.specs.Mirrored.{IsMirrored};
ghost use Rattle.rescue_map.specs.Damaged.{IsDamaged};
ghost use Rattle.rescue_map.specs.Salvaged.{IsSalvaged};
ghost use Rattle.virtual_volume.specs.Served.{IsServed};

use image_padding::BASES_END;
use image_source::{MemImages, MemSink};
use near_mirror::NearSet;
use outside::{Failed, Images, SECTOR, Sink};
use raid_params::{Geometry, Head, Level, Pattern, Slots, Syndrome, Wide};
use std::alloc::Global;
use std::process::Abort;
use std::test::Fail;
use test_objects::{FAR, all_reach, are_below, join};
use virtual_volume::VolumeFault;

/// An empty slot.
pub const NO: Option<u8> = None;

/// A set of these slots, in chunks of `chunk` sectors from sector 0 of the images on.
pub fn set_of<R: Abort>(
    rt: &R,
    level: Level,
    pattern: Pattern,
    syndrome: Syndrome,
    chunk: u64,
    held: &[Option<u8>],
) -> Geometry {
    let mut slots = Slots::new();
    for one in held {
        assert!(rt; slots.try_push(*one).is_ok());
    }
    let members = slots.len() as u8;
    let head = Head {
        level,
        members,
        pattern,
        delay: 1,
        syndrome,
        chunk,
        offset: 0,
    };
    Geometry { head, slots }
}

/// Whether these are a sector of each byte, one after the other.
pub fn are_sectors(bytes: &[u8], want: &[u8]) -> bool {
    if bytes.len() % SECTOR != 0 || bytes.len() / SECTOR != want.len() {
        return false;
    }
    bytes
        .chunks_exact(SECTOR)
        .zip(want)
        .all(|(sector, byte)| repeat(sector, *byte))
}

/// Whether each of the bytes is this one.
pub fn repeat(bytes: &[u8], byte: u8) -> bool {
    bytes.iter().all(|x| *x == byte)
}

/// A sink of `room` bytes, whose call number `call` fails once it has taken `taken` bytes.
pub fn sink_of(alloc: Global, room: usize, call: u64, taken: usize) -> Result<MemSink, Fail> {
    let mut sink = MemSink::new(alloc, room)?;
    sink.fail_call(call, taken)?;
    Ok(sink)
}

/// Looks whether a write was cut off by the images before anything was put, or else by the sink, which took 100 bytes of 1.
pub fn fails<R: Abort>(rt: &R, cut: &Result<(), VolumeFault>, by_images: bool, sink: &MemSink) {
    let ones: &[u8] = &[1; 100];
    if by_images {
        assert!(rt; matches!(cut, Err(VolumeFault::ReadFault)));
        assert!(rt; sink.bytes().is_empty());
    } else {
        assert!(rt; matches!(cut, Err(VolumeFault::WriteFault)));
        assert!(rt; sink.bytes() == ones);
    }
}

/// Two images of `bytes` bytes that are 1.
pub fn two_of_ones(alloc: Global, bytes: usize) -> Result<MemImages, Fail> {
    let ones = vec![in alloc; 1u8; bytes]?;
    let mut images = MemImages::new(alloc)?;
    join(&mut images, "a", &ones)?;
    join(&mut images, "b", &ones)?;
    Ok(images)
}

/// Looks whether `count` images are attached that may be padded.
pub fn pad<R: Abort, I: Images>(rt: &R, images: &I, count: u8)
    ensures { (length (I.seen images.now).attached ≡ count) × All (λ a. a.sectors < BASES_END) (I.seen images.now).attached }
{
    assert!(rt; are_below(images, count, BASES_END));
}

/// Looks whether the volume of a set can be written, over `count` images.
#[tactic(auto, using(crate::proofs::TestSets::long_served))]
pub fn serve<R: Abort, I: Images>(rt: &R, images: &I, count: u8, geo: &Geometry, end: u64)
    ensures { IsServed geo.now end (I.seen images.now).attached }
{
    assert!(rt; geo.head.offset < FAR && end < FAR);
    assert!(rt; geo.validate(count, end).is_ok());
    assert!(rt; all_reach(images, count, end));
}

/// Looks whether the volume of a mirror can be written, over `count` images.
#[tactic(auto, using(crate::proofs::TestSets::long_mirrored))]
pub fn serve_mirror<R: Abort, I: Images>(rt: &R, images: &I, count: u8, set: &NearSet, end: u64)
    ensures { IsMirrored set.now end (I.seen images.now).attached }
{
    assert!(rt; end < FAR);
    assert!(rt; set.validate(count, end).is_ok());
    assert!(rt; all_reach(images, count, end));
}

/// Looks whether the volume of a set can be salvaged, over `count` images with one common offset.
#[tactic(auto, using(crate::proofs::TestSets::wide_salvaged, crate::proofs::TestSets::wide_damaged))]
pub fn serve_damaged<R: Abort, I: Images>(rt: &R, images: &I, count: u8, set: &Wide, end: u64)
    ensures salvaged { IsSalvaged set.now end (I.seen images.now).attached }
    ensures damaged { IsDamaged set.now end }
{
    assert!(rt; end < FAR && set.bases.is_empty());
    assert!(rt; set.validate(count, end).is_ok());
    assert!(rt; all_reach(images, count, end));
}

/// A sink that keeps nothing and looks at each put.
#[derive(Drop)]
pub struct Looker {
    /// The bytes that were put.
    pub bytes: usize,
    /// Whether each put held one or more whole sectors.
    pub whole: bool,
    /// Whether each byte was 1.
    pub ones: bool,
}

impl Looker {
    /// One that saw nothing yet.
    pub fn new() -> Looker {
        Looker {
            bytes: 0,
            whole: true,
            ones: true,
        }
    }
}

impl Sink for Looker {
    ghost gained = { λ _. None };

    ghost faults = { λ _. 0 };

    fn put(&mut self, from: &[u8]) -> Result<(), Failed> {
        self.bytes = self.bytes.wrapping_add(from.len());
        self.whole &= !from.is_empty() && from.len() % SECTOR == 0;
        self.ones &= from.iter().all(|byte| *byte == 1);
        Ok(())
    }
}
