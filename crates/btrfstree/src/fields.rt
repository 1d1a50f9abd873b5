//! Numbers in bytes, the lowest byte first.

ghost use Rattle.std.specs.Prelude.{◌≡◌, ◌+◌, ◌≤◌, length};
ghost use Rattle.sector_fields.specs.Fields.{u16_le, u32_le, u64_le};

use byteorder::{ByteOrder, LittleEndian};

/// The number in the eight bytes from `at` on, the lowest first.
#[tactic(auto, unfolding(sector_fields::specs::Fields::u64_le))]
pub fn u64_le(bytes: &[u8], at: usize) -> u64
    requires { at + 8 ≤ length bytes.now }
    ensures { result ≡ u64_le bytes.now at }
{
    LittleEndian::read_u64(&bytes[at..])
}

/// The number in the four bytes from `at` on, the lowest first.
#[tactic(auto, unfolding(sector_fields::specs::Fields::u32_le))]
pub fn u32_le(bytes: &[u8], at: usize) -> u32
    requires { at + 4 ≤ length bytes.now }
    ensures { result ≡ u32_le bytes.now at }
{
    LittleEndian::read_u32(&bytes[at..])
}

/// The number in the two bytes from `at` on, the lowest first.
#[tactic(auto, unfolding(sector_fields::specs::Fields::u16_le))]
pub fn u16_le(bytes: &[u8], at: usize) -> u16
    requires { at + 2 ≤ length bytes.now }
    ensures { result ≡ u16_le bytes.now at }
{
    LittleEndian::read_u16(&bytes[at..])
}
