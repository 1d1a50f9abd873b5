//! The superblock.

ghost use Rattle.std.specs.Prelude.{◌≡◌, IfSome, IsTrue};
ghost use Rattle.xfs_marks.specs.Superblock.{end_sector, is_sound, xfs_super, xfs_super_of};

use sector_fields::{DISTANCE_LIMIT, SECTOR, has_bytes, u16_be, u32_be, uuid_at};
use uuid::Uuid;

/// The most bytes of a block.
const LARGEST_BLOCK: u32 = 65_536;

/// The most bytes of a sector of the file system.
const LARGEST_SECTOR: u32 = 32_768;

/// What a superblock says of its file system.
#[derive(Clone, Copy, PartialEq, Eq)]
pub struct XfsSuper {
    /// The file system's identifier, its bytes in the order in which they stand in the sector.
    pub uuid: Uuid,
    /// The bytes of a block.
    pub block: u32,
    /// The blocks of an allocation group.
    pub ag_blocks: u32,
    /// How many allocation groups there are.
    pub ag_count: u32,
    /// The bytes of a sector of the file system, which may be more than 512.
    pub sector: u32,
}

/// The fields of a superblock that begins in the sector. None where none does: another magic number; a
/// block size that is no power of two from 512 to 65,536; no blocks or no groups; a sector size that is
/// no power of two from 512 to 32,768, or is above the block size; or an end at sector 2^55 or later.
/// The end is where the AGI of one more group would lie.
#[tactic(auto, unfolding(crate::specs::Superblock::xfs_super, crate::specs::Superblock::is_xfs_super), using(crate::proofs::Limits::super_sound))]
pub fn read_super(sector: &[u8; SECTOR]) -> Option<XfsSuper>
    ensures superblock { result ≡ xfs_super sector.now }
    ensures within { IfSome result (λ x. IsTrue (is_sound x)) }
{
    let found = fields_of(sector);
    if has_bytes(sector, 0, b"XFSB") && is_sound(&found) {
        Some(found)
    } else {
        None
    }
}

/// Whether the numbers of a superblock are within the limits of XFS, and its end lies below sector 2^55.
#[tactic(auto, unfolding(crate::specs::Superblock::is_sound))]
fn is_sound(found: &XfsSuper) -> bool
    ensures { result ≡ is_sound found.now }
{
    found.block.is_power_of_two()
        && SECTOR as u32 <= found.block
        && found.block <= LARGEST_BLOCK
        && 1 <= found.ag_blocks
        && 1 <= found.ag_count
        && found.sector.is_power_of_two()
        && SECTOR as u32 <= found.sector
        && found.sector <= LARGEST_SECTOR
        && found.sector <= found.block
        && end_sector(found) < DISTANCE_LIMIT as u128
}

// The sector of the AGI that would follow the last group, which may pass 64 bits.
#[tactic(auto, unfolding(crate::specs::Superblock::end_sector, crate::specs::Superblock::ag_sectors))]
fn end_sector(found: &XfsSuper) -> u128
    ensures { result ≡ end_sector found.now }
{
    let group = found.ag_blocks as u128 * found.block as u128 / SECTOR as u128;
    group * found.ag_count as u128 + 2 * (found.sector / SECTOR as u32) as u128
}

/// The fields of a superblock, by their places in the sector.
#[tactic(auto, unfolding(crate::specs::Superblock::xfs_super_of))]
fn fields_of(sector: &[u8; SECTOR]) -> XfsSuper
    ensures { result ≡ xfs_super_of sector.now }
{
    XfsSuper {
        uuid: uuid_at(sector, 32),
        block: u32_be(sector, 4),
        ag_blocks: u32_be(sector, 84),
        ag_count: u32_be(sector, 88),
        sector: u16_be(sector, 102) as u32,
    }
}
