//! Bytes and numbers of a file record.

ghost use Rattle.std.specs.Prelude.{◌≡◌, ◌^◌, ◌<◌, ◌≤◌};
ghost use Rattle.mft.specs.Fields.{byte_at, number_at, place_of_byte, u64_at};

use byteorder::{ByteOrder, LittleEndian};
use sector_fields::SECTOR;

/// The byte of a record from which on the last two bytes of its sectors stand.
const ARRAY: usize = 50;

/// Where a byte of a record stands: the last two of a sector in the array behind the number of the update sequence.
#[tactic(auto, unfolding(crate::specs::Fields::place_of_byte))]
fn place_of_byte(at: usize) -> usize
    requires { at < 2 ^ 33 }
    ensures { result ≡ place_of_byte at }
{
    let past = at % SECTOR;
    if past < SECTOR - 2 {
        at
    } else {
        ARRAY + 2 * (at / SECTOR) + (past - (SECTOR - 2))
    }
}

/// A byte of a record, 0 past its end.
#[tactic(auto, unfolding(crate::specs::Fields::byte_at))]
pub fn byte_at(file: &[u8], at: usize) -> u8
    requires { at < 2 ^ 33 }
    ensures { result ≡ byte_at file.now at }
{
    file.get(place_of_byte(at)).copied().unwrap_or(0)
}

/// The number in the eight bytes from `at` on, the lowest first.
#[tactic(auto, unfolding(crate::specs::Fields::u64_at))]
pub fn u64_at(file: &[u8], at: usize) -> u64
    requires { at < 2 ^ 32 }
    ensures { result ≡ u64_at file.now at }
{
    let bytes = [
        byte_at(file, at),
        byte_at(file, at + 1),
        byte_at(file, at + 2),
        byte_at(file, at + 3),
        byte_at(file, at + 4),
        byte_at(file, at + 5),
        byte_at(file, at + 6),
        byte_at(file, at + 7),
    ];
    LittleEndian::read_u64(&bytes)
}

/// The number in so many bytes from `at` on, the lowest first.
#[tactic(auto, unfolding(crate::specs::Fields::number_at))]
pub fn number_at(file: &[u8], at: usize, bytes: u8) -> u64
    requires at { at < 2 ^ 32 }
    requires bytes { bytes ≤ 8 }
    ensures number { result ≡ number_at file.now at bytes }
    ensures few { result < 256 ^ bytes }
{
    (u64_at(file, at) as u128 % power(bytes)) as u64
}

/// How many numbers so many bytes have.
pub fn power(bytes: u8) -> u128
    requires { bytes ≤ 8 }
    ensures power { result ≡ 256 ^ bytes }
    ensures some { 1 ≤ result }
    ensures few { result ≤ 2 ^ 64 }
{
    match bytes {
        0 => 1,
        1 => 256,
        2 => 65_536,
        3 => 16_777_216,
        4 => 4_294_967_296,
        5 => 1_099_511_627_776,
        6 => 281_474_976_710_656,
        7 => 72_057_594_037_927_936,
        _ => 18_446_744_073_709_551_616,
    }
}
