//! The fields of a sector of 512 bytes: numbers by width and byte order, identifiers, and fixed bytes.
//!
//! `gpt_marks`, `ntfs_marks` and `xfs_marks` read their sectors with these calls. What a field is stands
//! in `specs/Fields`, and each call gives just that. [`DISTANCE_LIMIT`] bounds the distances that a
//! landmark may give.
#![tactic(auto)]

ghost use Rattle.std.specs.Prelude.{◌≡◌, ◌+◌, ◌≤◌, length};
ghost use Rattle.sector_fields.specs.Fields.{u16_le, u32_le, u64_le, u16_be, u32_be, uuid_at, has_bytes};

use byteorder::{BigEndian, ByteOrder, LittleEndian};
use uuid::Uuid;

/// The bytes of a sector. A file system may speak of other sectors: these are the disk's.
pub const SECTOR: usize = 512;

/// The sector distances that a landmark gives are below this, so that sums of a few of them fit a `u64`.
/// A sector that would give a longer one is no landmark.
pub const DISTANCE_LIMIT: u64 = 1 << 55;

/// The number in the two bytes from `at` on, the lowest first.
#[tactic(auto, unfolding(crate::specs::Fields::u16_le))]
pub fn u16_le(sector: &[u8; SECTOR], at: usize) -> u16
    requires { at + 2 ≤ SECTOR }
    ensures { result ≡ u16_le sector.now at }
{
    LittleEndian::read_u16(&sector[at..])
}

/// The number in the four bytes from `at` on, the lowest first.
#[tactic(auto, unfolding(crate::specs::Fields::u32_le))]
pub fn u32_le(sector: &[u8; SECTOR], at: usize) -> u32
    requires { at + 4 ≤ SECTOR }
    ensures { result ≡ u32_le sector.now at }
{
    LittleEndian::read_u32(&sector[at..])
}

/// The number in the eight bytes from `at` on, the lowest first.
#[tactic(auto, unfolding(crate::specs::Fields::u64_le))]
pub fn u64_le(sector: &[u8; SECTOR], at: usize) -> u64
    requires { at + 8 ≤ SECTOR }
    ensures { result ≡ u64_le sector.now at }
{
    LittleEndian::read_u64(&sector[at..])
}

/// The number in the two bytes from `at` on, the highest first.
#[tactic(auto, unfolding(crate::specs::Fields::u16_be))]
pub fn u16_be(sector: &[u8; SECTOR], at: usize) -> u16
    requires { at + 2 ≤ SECTOR }
    ensures { result ≡ u16_be sector.now at }
{
    BigEndian::read_u16(&sector[at..])
}

/// The number in the four bytes from `at` on, the highest first.
#[tactic(auto, unfolding(crate::specs::Fields::u32_be))]
pub fn u32_be(sector: &[u8; SECTOR], at: usize) -> u32
    requires { at + 4 ≤ SECTOR }
    ensures { result ≡ u32_be sector.now at }
{
    BigEndian::read_u32(&sector[at..])
}

/// The sixteen bytes from `at` on, in the order in which they stand.
#[tactic(auto, unfolding(crate::specs::Fields::uuid_at))]
pub fn uuid_at(sector: &[u8; SECTOR], at: usize) -> Uuid
    requires { at + 16 ≤ SECTOR }
    ensures { result ≡ uuid_at sector.now at }
{
    let mut bytes = [0u8; 16];
    bytes.copy_from_slice(&sector[at..at + 16]);
    Uuid::from_bytes(bytes)
}

/// Whether `bytes` stand from byte `at` on.
#[tactic(auto, unfolding(crate::specs::Fields::has_bytes))]
pub fn has_bytes(sector: &[u8; SECTOR], at: usize, bytes: &[u8]) -> bool
    requires { at ≤ SECTOR }
    ensures { result ≡ has_bytes sector.now at bytes.now }
{
    sector[at..].starts_with(bytes)
}
