//! Inodes of ext4 and their tables, and what makes no pair of inodes.
ghost use Rattle.std.specs.Prelude.{◌≤◌};

use crate::ext_sectors::{
    NARROW_DESCRIPTORS, NARROW_FIRST, NARROW_SECOND, SEEDED_DESCRIPTORS, SEEDED_FIRST,
    SEEDED_INODES, SEEDED_SECOND, SHORT_FIRST, SHORT_INODES, SHORT_SECOND, SMALL_DESCRIPTORS,
    SMALL_FIRST, SMALL_INODES, SMALL_SECOND, SPREAD_FIRST, SPREAD_SECOND,
};
use crate::sectors::{MADE, turned};
use crc32c::after;
use inode_marks::{COPY_BYTES, read_any_pair, read_copy};

// The seed that `dumpe2fs` prints.
const SEED: u32 = 0x688c_b585;

// The inodes that `dumpe2fs` prints of all of them.
const INODES: u32 = 16_384;

// Puts bytes into others from a place on, as far as there is room.
fn put(copy: &mut [u8], at: usize, bytes: &[u8]) {
    for (to, from) in copy.iter_mut().skip(at).zip(bytes) {
        *to = *from;
    }
}

// A superblock of two sectors, and a sector of descriptors from a byte on.
fn copy_of(
    first: &[u8; 512],
    second: &[u8; 512],
    descriptors: &[u8; 512],
    from: usize,
) -> [u8; COPY_BYTES] {
    let mut copy = [0; COPY_BYTES];
    put(&mut copy, 0, first);
    put(&mut copy, 512, second);
    put(&mut copy, from, descriptors);
    copy
}

// Where an inode lies by the copy, if that is one.
fn place_in(copy: &[u8; COPY_BYTES], number: u32) -> Option<u64>
    requires { 1 ≤ number }
{
    read_copy(copy)?.copied_place(copy, number)
}

// Inodes 257 and 258, 13 and 14, and four of 128 bytes: the second of no two has a number that is a multiple of 32.
#[test]
fn pairs_that_do_not_count(rt: HostRuntime) {
    assert!(rt; read_any_pair(&SMALL_INODES).is_none() && read_any_pair(&SEEDED_INODES).is_none());
    assert!(rt; read_any_pair(&SHORT_INODES).is_none());
}

#[test]
fn tables_of_dumpe2fs(rt: HostRuntime) {
    let copy = copy_of(&SMALL_FIRST, &SMALL_SECOND, &SMALL_DESCRIPTORS, 1024);
    match read_copy(&copy) {
        Some(tables) => {
            assert!(rt;
                tables.block == 1024 && tables.group_inodes == 2048 && tables.descriptor == 64
            );
            assert!(rt; tables.seed == after(u32::MAX, &MADE) && tables.inodes == INODES);
            assert!(rt; tables.copied_place(&copy, 1) == Some(2 * 275));
            assert!(rt; tables.copied_place(&copy, 257) == Some(678));
            assert!(rt; tables.copied_place(&copy, 2048) == Some(2 * 275 + 1023));
            assert!(rt; tables.copied_place(&copy, 2049) == Some(1574));
            assert!(rt; tables.copied_place(&copy, 6145) == Some(2 * 1811));
        }
        None => assert!(rt; false, "no tables"),
    }
}

// Descriptors of other groups, and one of which a byte is turned.
#[test]
fn no_places(rt: HostRuntime) {
    let shifted = copy_of(&SMALL_FIRST, &SMALL_SECOND, &SMALL_DESCRIPTORS, 1024 + 64);
    assert!(rt; read_copy(&shifted).is_some() && place_in(&shifted, 257).is_none());
    let other = turned(SMALL_DESCRIPTORS, 72);
    let copy = copy_of(&SMALL_FIRST, &SMALL_SECOND, &other, 1024);
    assert!(rt; read_copy(&copy).is_some() && place_in(&copy, 257).is_none());
}

#[test]
fn tables_with_a_seed_of_their_own(rt: HostRuntime) {
    let copy = copy_of(&SEEDED_FIRST, &SEEDED_SECOND, &SEEDED_DESCRIPTORS, 4096);
    match read_copy(&copy) {
        Some(tables) => {
            assert!(rt; tables.seed == SEED && tables.block == 4096);
            assert!(rt; tables.copied_place(&copy, 1) == Some(8 * 41));
            assert!(rt; tables.copied_place(&copy, 13) == Some(334));
        }
        None => assert!(rt; false, "no tables"),
    }
}

#[test]
fn tables_of_short_descriptors(rt: HostRuntime) {
    let copy = copy_of(&NARROW_FIRST, &NARROW_SECOND, &NARROW_DESCRIPTORS, 1024);
    match read_copy(&copy) {
        Some(tables) => {
            assert!(rt; tables.descriptor == 32 && tables.group_inodes == 2048);
            assert!(rt; tables.copied_place(&copy, 1) == Some(2 * 274));
            assert!(rt; tables.copied_place(&copy, 6145) == Some(2 * 1810));
        }
        None => assert!(rt; false, "no tables"),
    }
}

// Whether the two sectors are read as a superblock.
fn is_read(first: &[u8; 512], second: &[u8; 512]) -> bool {
    read_copy(&copy_of(first, second, &[0; 512], 1024)).is_some()
}

#[test]
fn no_tables(rt: HostRuntime) {
    assert!(rt; is_read(&SMALL_FIRST, &SMALL_SECOND) && is_read(&SEEDED_FIRST, &SEEDED_SECOND));
    assert!(rt; !is_read(&SHORT_FIRST, &SHORT_SECOND));
    assert!(rt; !is_read(&SPREAD_FIRST, &SPREAD_SECOND));
    assert!(rt; !is_read(&SMALL_FIRST, &SEEDED_SECOND));
    assert!(rt; !is_read(&turned(SMALL_FIRST, 8), &SMALL_SECOND));
    assert!(rt; !is_read(&[0; 512], &[0; 512]));
}
