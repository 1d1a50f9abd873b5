//! Rows in regions of four sectors, of which numbers 1 and 2 hold a row each, with Q, two data blocks of the exponents
//! 7 and 200, and P:
//!
//!     assert 0x12 ^ 0x9F == 0x8D and doubled(0x12, 7) ^ doubled(0x9F, 200) == 0x3A
//!     assert 0x47 ^ 0xE3 == 0xA4 and doubled(0x47, 7) ^ doubled(0xE3, 200) == 0x56
//!
//! These are lines of Python, where `doubled` is as `single_rows` has it.
ghost use Rattle.std.specs.Prelude.{◌<◌};
ghost use Rattle.raid_terms.specs.Parity.{IsRow};

use crate::cells::four_cells;
use outside::SECTOR;
use pq_parity::{solve_data, solve_parity};
use raid_params::{Cell, Part};
use std::process::Abort;

/// The bytes of the two rows.
const ROWS: [[u8; 4]; 2] = [[0x3A, 0x12, 0x9F, 0x8D], [0x56, 0x47, 0xE3, 0xA4]];

/// Writes a byte all over the sector number `j` of the region of a place. A region has four sectors.
fn put(regions: &mut [u8; 8192], place: usize, j: usize, byte: u8)
    requires place { place < 4 }
    requires j { j < 4 }
{
    let at = 2048 * place + SECTOR * j;
    regions[at..at + SECTOR].fill(byte);
}

/// Whether that sector repeats the byte.
fn repeats(regions: &[u8; 8192], place: usize, j: usize, byte: u8) -> bool
    requires place { place < 4 }
    requires j { j < 4 }
{
    let at = 2048 * place + SECTOR * j;
    regions[at..at + SECTOR].iter().all(|x| *x == byte)
}

/// The regions with the blocks of both rows that these places name, and AA elsewhere.
fn filled(there: [bool; 4]) -> [u8; 8192] {
    let mut regions = [0xAA; 8192];
    for place in 0..4usize {
        if there[place] {
            put(&mut regions, place, 1, ROWS[0][place]);
            put(&mut regions, place, 2, ROWS[1][place]);
        }
    }
    regions
}

/// Looks whether the regions hold all blocks of both rows.
fn look<R: Abort>(rt: &R, regions: &[u8; 8192], lost: [bool; 4]) {
    for row in 0..2usize {
        for place in 0..4usize {
            assert!(rt;
                repeats(regions, place, row + 1, ROWS[row][place]),
                "{place} of {row}, lost {lost:?}"
            );
        }
    }
}

// The parity is there.
#[test]
fn lost_data_of_two_rows(rt: HostRuntime) {
    let lost = [false, true, true, false];
    let both = four_cells(&rt, [7, 200], lost);
    let mut regions = filled([true, false, false, true]);
    solve_data(&both, &mut regions, 2048, 1, 2);
    look(&rt, &regions, lost);
}

/// Finds what is lost in sectors 1 and 2 of the regions: the data, and then the parity by these.
fn find_all(cells: &[Cell; 4], regions: &mut [u8; 8192])
    requires { IsRow cells.now }
{
    solve_data(cells, regions, 2048, 1, 2);
    for place in 0..4usize {
        if cells[place].missing {
            match cells[place].part {
                Part::P | Part::Q => solve_parity(cells, place, regions, 2048, 1, 2),
                Part::Block(_) => {}
            }
        }
    }
}

// The same rows, where parity is lost, and a data block beside it.
#[test]
fn lost_parity_of_two_rows(rt: HostRuntime) {
    for lost in [
        [true, false, false, true],
        [true, true, false, false],
        [true, false, true, false],
        [false, true, false, true],
        [true, false, false, false],
        [false, false, false, true],
    ] {
        let mut regions = filled([!lost[0], !lost[1], !lost[2], !lost[3]]);
        find_all(&four_cells(&rt, [7, 200], lost), &mut regions);
        look(&rt, &regions, lost);
    }
}
