//! A copy of the superblock.

ghost use Rattle.std.specs.Prelude.{◌≡◌, ◌<◌, ◌≤◌, IfSome, IsTrue, ◌^◌};
ghost use Rattle.ext_marks.specs.Copy.{block_bytes, copy_sector, ext_super, ext_super_of, has_block_form, is_ext_copy};
ghost use Rattle.sector_fields.specs.Fields.{u32_le};

use sector_fields::{SECTOR, u16_le, u32_le, uuid_at};
use uuid::Uuid;

/// The number that marks a superblock: at its byte 56.
pub const MAGIC: u16 = 0xEF53;

/// The bytes of a block whose code is 0. Each code more doubles them.
const SMALLEST_BLOCK: u32 = 1024;

/// The code of the largest blocks, of 65,536 bytes.
const LARGEST_BLOCK_CODE: u32 = 6;

/// The latest revision of the format.
const LATEST_REVISION: u32 = 1;

/// The last group whose number a copy tells. What is above it stands for every later group.
const LAST_GROUP: u16 = 65_534;

/// What a copy of a superblock says of its file system and of itself.
#[derive(Clone, Copy, PartialEq, Eq)]
pub struct ExtSuper {
    /// The file system's identifier, its bytes in the order in which they stand in the sector.
    pub uuid: Uuid,
    /// The bytes of a block.
    pub block: u32,
    /// The blocks of a group.
    pub group_blocks: u32,
    /// The group in which this copy lies, from 1 to 65,534.
    pub group: u16,
    /// The sector of 512 bytes, counted from the file system's first, at which this copy begins. It is
    /// below 2^55.
    pub copy_sector: u64,
}

/// The fields of a copy of a superblock of ext2, ext3 or ext4 that begins in the sector (Linux kernel,
/// ext4 Data Structures and Algorithms, Super Block). None where none does: another magic number; a block
/// size above 65,536; a first data block that is not 0, nor 1 in a file system with blocks of 1,024
/// bytes; no blocks in a group; a revision above 1; or a group of 0, which is the superblock itself, or
/// of 65,535, which stands for every later group.
#[tactic(auto, unfolding(crate::specs::Copy::ext_super), using(crate::proofs::Limits::copy_within))]
pub fn read_ext(sector: &[u8; SECTOR]) -> Option<ExtSuper>
    ensures copy { result ≡ ext_super sector.now }
    ensures within { IfSome result (λ x. x.copy_sector < 2 ^ 55) }
{
    if is_copy(sector) {
        Some(fields_of(sector))
    } else {
        None
    }
}

/// Whether a copy of a superblock begins in the sector.
#[tactic(auto, unfolding(crate::specs::Copy::is_ext_copy))]
fn is_copy(sector: &[u8; SECTOR]) -> bool
    ensures { result ≡ is_ext_copy sector.now }
{
    let group = u16_le(sector, 90);
    u16_le(sector, 56) == MAGIC
        && has_block_form(sector)
        && 1 <= u32_le(sector, 32)
        && u32_le(sector, 76) <= LATEST_REVISION
        && 1 <= group
        && group <= LAST_GROUP
}

/// Whether the code of the block size is one, and the first data block fits it.
#[tactic(auto, unfolding(crate::specs::Copy::has_block_form))]
fn has_block_form(sector: &[u8; SECTOR]) -> bool
    ensures { result ≡ has_block_form sector.now }
{
    let code = u32_le(sector, 24);
    let first = u32_le(sector, 20);
    code <= LARGEST_BLOCK_CODE && (first == 0 || (first == 1 && code == 0))
}

/// The fields of a copy, by their places in the sector.
#[tactic(auto, unfolding(crate::specs::Copy::ext_super_of))]
fn fields_of(sector: &[u8; SECTOR]) -> ExtSuper
    requires { IsTrue (is_ext_copy sector.now) }
    ensures { result ≡ ext_super_of sector.now }
{
    ExtSuper {
        uuid: uuid_at(sector, 104),
        block: block_bytes(sector),
        group_blocks: u32_le(sector, 32),
        group: u16_le(sector, 90),
        copy_sector: copy_sector(sector),
    }
}

/// The bytes of a block.
#[tactic(auto, unfolding(crate::specs::Copy::block_bytes), using(crate::proofs::Limits::power_most))]
fn block_bytes(sector: &[u8; SECTOR]) -> u32
    requires { IsTrue (is_ext_copy sector.now) }
    ensures { result ≡ block_bytes sector.now }
{
    SMALLEST_BLOCK * 2u32.pow(u32_le(sector, 24))
}

/// The sector, counted from the file system's first, at which the copy begins.
#[tactic(auto, unfolding(crate::specs::Copy::copy_sector), using(crate::proofs::Limits::first_most, crate::proofs::Limits::before_most, crate::proofs::Limits::block_most))]
fn copy_sector(sector: &[u8; SECTOR]) -> u64
    requires { IsTrue (is_ext_copy sector.now) }
    ensures { result ≡ copy_sector sector.now }
{
    let first = u32_le(sector, 20) as u64;
    let before = u16_le(sector, 90) as u64 * u32_le(sector, 32) as u64;
    (first + before) * (block_bytes(sector) / SECTOR as u32) as u64
}
