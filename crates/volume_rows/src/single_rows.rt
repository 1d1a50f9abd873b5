//! Rows worked out by hand: 01 + 80 = 81 and 01 + 2 * 80 = 01 + 1D = 1C, in the field.
ghost use Rattle.std.specs.Prelude.{◌<◌, ◌≡◌};
ghost use Rattle.raid_terms.specs.Parity.{IsRow};

use crate::cells::{four_cells, six};
use outside::SECTOR;
use pq_parity::{row_holds, solve};
use raid_params::Cell;
use std::process::Abort;

/// The exponents of the two data blocks.
const NEAR: [u8; 2] = [0, 1];

/// Four sectors that repeat one byte each.
fn four_sectors(bytes: [u8; 4]) -> [u8; 2048] {
    let mut row = [0; 2048];
    for (sector, byte) in row.chunks_exact_mut(SECTOR).zip(bytes) {
        sector.fill(byte);
    }
    row
}

/// Whether a row of Q, two data blocks and P, of which some are lost, is sound.
fn holds<R: Abort>(rt: &R, exponents: [u8; 2], lost: [bool; 4], bytes: [u8; 4]) -> bool {
    row_holds(&four_cells(rt, exponents, lost), &four_sectors(bytes))
}

/// The exponents of the data blocks, which places are lost, the bytes of a row, and whether it is sound. AA stands where a member is
/// missing.
type Sound = ([u8; 2], [bool; 4], [u8; 4], bool);

/// No place, each alone, and both data blocks.
const NONE: [bool; 4] = [false; 4];

const Q: [bool; 4] = [true, false, false, false];

const FIRST: [bool; 4] = [false, true, false, false];

const P: [bool; 4] = [false, false, false, true];

const DATA: [bool; 4] = [false, true, true, false];

static SOUND: [Sound; 12] = [
    (NEAR, NONE, [0x1C, 0x01, 0x80, 0x81], true),
    (NEAR, NONE, [0x1D, 0x01, 0x80, 0x81], false),
    (NEAR, NONE, [0x1C, 0x01, 0x80, 0x80], false),
    ([0, 2], NONE, [0x1C, 0x01, 0x80, 0x81], false),
    ([0, 2], NONE, [0x3B, 0x01, 0x80, 0x81], true),
    (NEAR, FIRST, [0x1C, 0xAA, 0x80, 0x81], true),
    (NEAR, FIRST, [0x1D, 0xAA, 0x80, 0x81], false),
    (NEAR, P, [0x1C, 0x01, 0x80, 0xAA], true),
    (NEAR, P, [0x1D, 0x01, 0x80, 0xAA], false),
    (NEAR, Q, [0xAA, 0x01, 0x80, 0x81], true),
    (NEAR, Q, [0xAA, 0x01, 0x80, 0x80], false),
    (NEAR, DATA, [0x12, 0xAA, 0xAA, 0x34], true),
];

#[test]
fn rows_that_are_sound(rt: HostRuntime) {
    for (exponents, lost, bytes, sound) in &SOUND {
        assert_eq!(rt; holds(&rt, *exponents, *lost, *bytes), *sound);
    }
}

/// The lost sector of a place.
fn sector_of(cells: &[Cell; 4], row: &[u8; 2048], place: usize) -> [u8; SECTOR]
    requires row { IsRow cells.now }
    requires place { place < 4 }
{
    let mut sector = [0; SECTOR];
    if cells[place].missing {
        solve(cells, row, place, &mut sector);
    }
    sector
}

/// Whether the lost sectors of a row of these bytes repeat these others. No sector is lost where
/// its member is there.
fn found<R: Abort>(rt: &R, lost: [bool; 4], bytes: [u8; 4], want: [u8; 4]) -> bool {
    let cells = four_cells(rt, NEAR, lost);
    let row = four_sectors(bytes);
    for place in 0..4usize {
        let sector = sector_of(&cells, &row, place);
        if lost[place] && (sector[0] != want[place] || sector[SECTOR - 1] != want[place]) {
            return false;
        }
    }
    true
}

/// Which places are lost, the bytes of a row, those of its lost sectors, and whether these are found.
type Lost = ([bool; 4], [u8; 4], [u8; 4], bool);

/// The whole row.
const ALL: [u8; 4] = [0x1C, 0x01, 0x80, 0x81];

// One lost byte is found by one equation, also where the other does not hold.
static LOST: [Lost; 10] = [
    (
        [true, true, false, false],
        [0xAA, 0xAA, 0x80, 0x81],
        ALL,
        true,
    ),
    (
        [true, false, true, false],
        [0xAA, 0x01, 0xAA, 0x81],
        ALL,
        true,
    ),
    (
        [true, false, false, true],
        [0xAA, 0x01, 0x80, 0xAA],
        ALL,
        true,
    ),
    (DATA, [0x1C, 0xAA, 0xAA, 0x81], ALL, true),
    (
        [false, true, false, true],
        [0x1C, 0xAA, 0x80, 0xAA],
        ALL,
        true,
    ),
    (
        [false, false, true, true],
        [0x1C, 0x01, 0xAA, 0xAA],
        ALL,
        true,
    ),
    (
        [false, false, true, true],
        [0x1C, 0x01, 0xAA, 0xAA],
        [0; 4],
        false,
    ),
    (FIRST, [0x1D, 0xAA, 0x80, 0x81], [0, 0x01, 0, 0], true),
    (P, [0x1D, 0x01, 0x80, 0xAA], [0, 0, 0, 0x81], true),
    (Q, [0xAA, 0x01, 0x80, 0x80], [0x1C, 0, 0, 0], true),
];

#[test]
fn lost_members(rt: HostRuntime) {
    for (lost, bytes, want, is_found) in &LOST {
        assert_eq!(rt; found(&rt, *lost, *bytes, *want), *is_found);
    }
}

/// The row with one byte changed.
fn changed(row: [u8; 3072], place: usize) -> [u8; 3072]
    requires { place < 3072 }
{
    let mut other = row;
    other[place] ^= 0x10;
    other
}

/// Six sectors that repeat one byte each.
fn six_sectors(bytes: [u8; 6]) -> [u8; 3072] {
    let mut row = [0; 3072];
    for (sector, byte) in row.chunks_exact_mut(SECTOR).zip(bytes) {
        sector.fill(byte);
    }
    row
}

// P and Q as these lines of Python give them, where Q takes each byte doubled as many times as its
// exponent says:
//
//     def doubled(byte, times):
//         for _ in range(times):
//             byte = byte << 1 ^ 0x11D * (byte >> 7)
//         return byte
//
//     assert 0x12 ^ 0x9F ^ 0x47 ^ 0xE3 == 0x29
//     assert doubled(0x12, 7) ^ doubled(0x9F, 200) ^ doubled(0x47, 31) ^ doubled(0xE3, 254) == 0xF5
#[test]
fn six_members(rt: HostRuntime) {
    let row = six_sectors([0x12, 0x29, 0x9F, 0x47, 0xF5, 0xE3]);
    assert!(rt; row_holds(&six(), &row));
    for place in [0, 511, 512, 1800, 2048, 3071] {
        assert!(rt; !row_holds(&six(), &changed(row, place)), "at {place}");
    }
}
