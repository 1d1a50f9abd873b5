//! The checksum of a block.

ghost use Rattle.std.specs.Prelude.{◌≡◌, ◌≤◌, length};
ghost use Rattle.btrfstree.specs.Whole.{is_whole};

use crate::fields::u32_le;

/// The register with which a checksum begins.
const ALL_ONES: u32 = 0xFFFF_FFFF;

/// Whether the bytes of a tree block or of a superblock are whole: the checksum by CRC-32C with which they begin is right.
#[tactic(auto, unfolding(crate::specs::Whole::is_whole))]
pub fn is_whole(block: &[u8]) -> bool
    requires { 32 ≤ length block.now }
    ensures { result ≡ is_whole block.now }
{
    crc32c::after(ALL_ONES, &block[32..block.len()]) as u64 + u32_le(block, 0) as u64
        == ALL_ONES as u64
}
