//! Bytes of generated arrays that another program computed, from the published algorithm of SplitMix64 and the
//! equations of P and Q.
ghost use Rattle.std.specs.Prelude.{◌≡◌, ◌≤◌, [], IfOk};

use address_map::volume_sectors;
use image_source::MemImages;
use outside::Images;
use raid_params::{Geometry, Head, Level, Pattern, Slots, Syndrome};
use sample_arrays::{LEAST_MARKED, MOST_SAMPLED, count_held, sample};
use std::process::Abort;
use std::test::Fail;

// The array that is made from 7, of which nothing is attached.
fn made<R: AllocGlobal + Abort>(
    rt: &R,
    geo: &Geometry,
    rows: u64,
    xfs: bool,
) -> Result<MemImages, Fail>
    requires chunk { geo.now.head.chunk ≡ 1 }
    requires offset { geo.now.head.offset ≤ 1 }
    requires rows { rows ≤ 512 }
    ensures { IfOk result (λ images. images.attached ≡ []) }
{
    let head = &geo.head;
    let end = head.offset + rows * head.chunk;
    assert!(rt; geo.validate(count_held(&geo.slots), end).is_ok());
    assert!(rt; head.members as u64 * end <= MOST_SAMPLED);
    assert!(rt; head.is_valid());
    let marked = xfs && LEAST_MARKED <= volume_sectors(head, end);
    Ok(sample(rt.alloc(), 7, geo, rows, marked)?)
}

// Attaches two images of an array. Each name is added once more, with no bytes, so that it is known: the first file of a
// name is the one that it means.
#[tactic(auto, using(crate::proofs::Named::added))]
fn attach(images: &mut MemImages, first: &str, second: &str) -> Result<(), Fail>
    requires { images.old.attached ≡ [] }
{
    images.add(first, &[])?;
    images.attach(first)?;
    images.add(second, &[])?;
    images.attach(second)?;
    Ok(())
}

// A sector of an attached image.
fn sector_of(images: &mut MemImages, image: u32, sector: u64) -> Option<[u8; 512]> {
    match images.length(image) {
        Some(length) if sector < length => {
            let mut to = [0; 512];
            images.read(image, sector, &mut to).ok()?;
            Some(to)
        }
        _ => None,
    }
}

// Whether a sector of an attached image has these bytes from `at` on.
fn holds(images: &mut MemImages, image: u32, sector: u64, at: usize, bytes: &[u8]) -> bool
    requires { at ≤ 512 }
{
    match sector_of(images, image, sector) {
        Some(found) => found[at..].starts_with(bytes),
        None => false,
    }
}

// Level 6, four members of two rows of a sector, from sector 1 on.
fn four_members() -> Geometry
    ensures chunk { result.head.chunk ≡ 1 }
    ensures offset { result.head.offset ≡ 1 }
{
    let head = Head {
        level: Level::Raid6,
        members: 4,
        pattern: Pattern::Ls,
        delay: 1,
        syndrome: Syndrome::AfterQ,
        chunk: 1,
        offset: 1,
    };
    let mut slots = Slots::new();
    slots.push(Some(0));
    slots.push(Some(1));
    slots.push(Some(2));
    slots.push(Some(3));
    Geometry { head, slots }
}

// The first bytes of the sectors of slot 0, which hold nothing, Q and data, and of slot 3: nothing, P and Q.
const BEGINNINGS: [(u32, u64, [u8; 8]); 6] = [
    (0, 0, [0; 8]),
    (0, 1, [0xf8, 0x90, 0xf8, 0xfd, 0x71, 0x40, 0x90, 0x8f]),
    (0, 2, [0xc2, 0x47, 0x16, 0x4b, 0xed, 0x3e, 0x6e, 0x95]),
    (1, 0, [0; 8]),
    (1, 1, [0x4e, 0xcd, 0x57, 0x0b, 0x20, 0x3f, 0x68, 0x15]),
    (1, 2, [0x28, 0x55, 0x11, 0x08, 0xd9, 0xce, 0xf5, 0xb0]),
];

#[test]
fn members_of_seven(rt: HostRuntime) -> Result<(), Fail> {
    let mut images = made(&rt, &four_members(), 2, false)?;
    attach(&mut images, "0", "3")?;
    assert!(rt; images.length(0) == Some(3) && images.length(1) == Some(3));
    for (image, sector, bytes) in BEGINNINGS {
        assert!(rt;
            holds(&mut images, image, sector, 0, &bytes),
            "{image} {sector}"
        );
    }
    Ok(())
}

// Level 0, two members of a sector a chunk: sector v of the volume is sector v / 2 of member v % 2.
fn two_members() -> Geometry
    ensures chunk { result.head.chunk ≡ 1 }
    ensures offset { result.head.offset ≡ 0 }
{
    let head = Head {
        level: Level::Raid0,
        members: 2,
        pattern: Pattern::Plain,
        delay: 1,
        syndrome: Syndrome::NoQ,
        chunk: 1,
        offset: 0,
    };
    let mut slots = Slots::new();
    slots.push(Some(0));
    slots.push(Some(1));
    Geometry { head, slots }
}

// Words of the volume that is made from 7: a sector, a byte of it, and the bytes from there on.
const WORDS: [(u64, usize, u64); 3] = [
    (0, 0, 0x63cb_e1e4_5932_0dd7),
    (0, 8, 0x044c_3cd7_f43c_661c),
    (3, 0, 0x9cc3_781a_af8d_0975),
];

// Both members of so many rows, attached.
fn both<R: AllocGlobal + Abort>(rt: &R, rows: u64, xfs: bool) -> Result<MemImages, Fail>
    requires { rows ≤ 512 }
{
    let mut images = made(rt, &two_members(), rows, xfs)?;
    attach(&mut images, "0", "1")?;
    Ok(images)
}

// Whether a sector of the volume has these bytes from `at` on.
fn has(images: &mut MemImages, sector: u64, at: usize, bytes: &[u8]) -> bool
    requires { at ≤ 512 }
{
    holds(images, (sector % 2) as u32, sector / 2, at, bytes)
}

#[test]
fn words_of_seven(rt: HostRuntime) -> Result<(), Fail> {
    let mut images = both(&rt, 2, false)?;
    for (sector, at, word) in WORDS {
        assert!(rt; at <= 512);
        assert!(rt;
            has(&mut images, sector, at, &word.to_le_bytes()),
            "{sector} {at}"
        );
    }
    Ok(())
}

// The last of 64 groups of one block: what stands in sectors 504 to 506 from some bytes on.
const GROUP: [(u64, usize, &[u8]); 7] = [
    (504, 0, &[0x58, 0x46, 0x53, 0x42, 0, 0, 0x10, 0]),
    (504, 30, &[0, 0, 0xA5, 0xA5]),
    (504, 46, &[0xA5, 0xA5, 0, 0]),
    (504, 84, &[0, 0, 0, 1, 0, 0, 0, 64]),
    (504, 100, &[0, 0, 2, 0, 0]),
    (
        505,
        0,
        &[0x58, 0x41, 0x47, 0x46, 0, 0, 0, 1, 0, 0, 0, 63, 0],
    ),
    (
        506,
        0,
        &[0x58, 0x41, 0x47, 0x49, 0, 0, 0, 1, 0, 0, 0, 63, 0],
    ),
];

#[test]
fn last_group(rt: HostRuntime) -> Result<(), Fail> {
    let mut images = both(&rt, 257, true)?;
    for (sector, at, bytes) in GROUP {
        assert!(rt; at <= 512);
        assert!(rt; has(&mut images, sector, at, bytes), "{sector} {at}");
    }
    Ok(())
}

// Whether both have the same sector of the volume.
fn are_equal(images: &mut MemImages, others: &mut MemImages, sector: u64) -> bool {
    match sector_of(images, (sector % 2) as u32, sector / 2) {
        Some(bytes) => has(others, sector, 0, &bytes),
        None => false,
    }
}

// The first words of sectors 507 and 512 of the volume that is made from 7.
const AFTER_GROUPS: [(u64, u64); 2] = [(507, 0xf4b4_b3b1_b6fc_832b), (512, 0x75c1_78ba_121f_dae6)];

// After the group stand the words that an array without groups has.
#[test]
fn after_the_last_group(rt: HostRuntime) -> Result<(), Fail> {
    let mut images = both(&rt, 257, true)?;
    let mut plain = both(&rt, 257, false)?;
    for (sector, word) in AFTER_GROUPS {
        assert!(rt; has(&mut plain, sector, 0, &word.to_le_bytes()), "{sector}");
        assert!(rt; are_equal(&mut images, &mut plain, sector), "{sector}");
    }
    Ok(())
}
