//! Where inodes lie: the fields of a superblock.

ghost use Rattle.std.specs.Prelude.{◌≡◌, ◌<◌, ◌+◌, ◌*◌, ◌/◌, ◌^◌, IfSome, IsTrue};
ghost use Rattle.xfs5.specs.Places.{block_of, group_of, has_block_size, has_groups, has_inode_size, has_inodes, index_of, inode_sector, inodes_of, is_mark, is_sound, is_whole_super, sector_of, super_register, xfs_inodes};

use sector_fields::{SECTOR, has_bytes, u16_be, u32_be, u32_le, uuid_at};
use uuid::Uuid;

/// The register with which checksums begin.
const ALL_ONES: u32 = 0xFFFF_FFFF;

/// The weight of the feature that inodes have an identifier of their own.
const META_UUID: u32 = 4;

/// The most bytes of a block.
const LARGEST_BLOCK: u32 = 65_536;

/// File systems have fewer blocks than these.
const BLOCKS_LIMIT: u64 = 1 << 48;

/// What a superblock says of where inodes lie.
#[derive(Clone, Copy, PartialEq, Eq)]
pub struct XfsInodes {
    /// The identifier that inodes have, its bytes in the order in which they stand in the sector.
    pub uuid: Uuid,
    /// The bytes of a block.
    pub block: u32,
    /// The blocks of an allocation group.
    pub ag_blocks: u32,
    /// How many allocation groups there are.
    pub ag_count: u32,
    /// The bytes of an inode: 512, 1,024 or 2,048.
    pub inode: u16,
    /// The bits of a number that say which inode of its block it is.
    pub inode_bits: u8,
    /// The bits of a number that say which block of its group it is.
    pub block_bits: u8,
}

/// What the superblock that begins in the sector says (XFS Algorithms & Data Structures, Superblocks). None where none of
/// version 5 begins: another magic number or version; inodes of another size; a block that does not have just the inodes
/// that the numbers speak of, or has more than 65,536 bytes; no blocks in a group, or more than numbers have room for;
/// no groups; 2^48 blocks in all; or, where the file system has sectors of 512 bytes, a checksum that is not that of the
/// sector. Of larger sectors only the first bytes are known, and the checksum is not looked at.
#[tactic(auto, unfolding(crate::specs::Places::xfs_inodes, crate::specs::Places::has_inodes))]
pub fn read_inodes(sector: &[u8; SECTOR]) -> Option<XfsInodes>
    ensures inodes { result ≡ xfs_inodes sector.now }
    ensures within { IfSome result (λ x. IsTrue (is_sound x)) }
{
    let found = inodes_of(sector);
    if has_bytes(sector, 0, b"XFSB")
        && u16_be(sector, 100) % 16 == 5
        && is_sound(&found)
        && is_whole(sector)
    {
        Some(found)
    } else {
        None
    }
}

/// Whether a superblock is whole, where the file system has sectors of 512 bytes.
#[tactic(auto, unfolding(crate::specs::Places::is_whole_super))]
fn is_whole(sector: &[u8; SECTOR]) -> bool
    ensures { result ≡ is_whole_super sector.now }
{
    u16_be(sector, 102) as usize != SECTOR
        || super_register(sector) as u64 + u32_le(sector, 224) as u64 == ALL_ONES as u64
}

/// The register that a superblock of 512 bytes leaves.
#[tactic(auto, unfolding(crate::specs::Places::super_register), using(crate::proofs::Pieces::three_pieces))]
fn super_register(sector: &[u8; SECTOR]) -> u32
    ensures { result ≡ super_register sector.now }
{
    let front = crc32c::after(crc32c::after(ALL_ONES, &sector[0..224]), &[0, 0, 0, 0]);
    crc32c::after(front, &sector[228..512])
}

/// The fields of a superblock, by their places in the sector.
#[tactic(auto, unfolding(crate::specs::Places::inodes_of))]
fn inodes_of(sector: &[u8; SECTOR]) -> XfsInodes
    ensures { result ≡ inodes_of sector.now }
{
    XfsInodes {
        uuid: if u32_be(sector, 216) / META_UUID % 2 == 1 {
            uuid_at(sector, 248)
        } else {
            uuid_at(sector, 32)
        },
        block: u32_be(sector, 4),
        ag_blocks: u32_be(sector, 84),
        ag_count: u32_be(sector, 88),
        inode: u16_be(sector, 104),
        inode_bits: sector[123],
        block_bits: sector[124],
    }
}

/// Whether the numbers of a superblock are those of a file system.
#[tactic(auto, unfolding(crate::specs::Places::is_sound))]
fn is_sound(found: &XfsInodes) -> bool
    ensures { result ≡ is_sound found.now }
{
    has_inode_size(found) && has_block_size(found) && has_groups(found)
}

/// Whether inodes have 512, 1,024 or 2,048 bytes.
#[tactic(auto, unfolding(crate::specs::Places::has_inode_size))]
fn has_inode_size(found: &XfsInodes) -> bool
    ensures { result ≡ has_inode_size found.now }
{
    found.inode == 512 || found.inode == 1024 || found.inode == 2048
}

/// Whether a block has just the inodes that the numbers speak of.
#[tactic(auto, unfolding(crate::specs::Places::has_block_size), using(crate::proofs::Limits::power_7, crate::proofs::Limits::product_most))]
fn has_block_size(found: &XfsInodes) -> bool
    ensures { result ≡ has_block_size found.now }
{
    found.inode_bits <= 7
        && found.inode as u64 * 2u64.pow(found.inode_bits as u32) == found.block as u64
        && found.block <= LARGEST_BLOCK
}

/// Whether the numbers have room for the blocks of a group, and all groups are within the limit.
#[tactic(auto, unfolding(crate::specs::Places::has_groups), using(crate::proofs::Limits::power_31, crate::proofs::Limits::count_most))]
fn has_groups(found: &XfsInodes) -> bool
    ensures { result ≡ has_groups found.now }
{
    found.block_bits <= 31
        && 1 <= found.ag_blocks
        && found.ag_blocks as u64 <= 2u64.pow(found.block_bits as u32)
        && 1 <= found.ag_count
        && found.ag_blocks as u64 * (found.ag_count as u64) < BLOCKS_LIMIT
}

impl XfsInodes {
    /// The sector of 512 bytes, counted from the file system's first, at which an inode begins: below 2^55. None where
    /// the file system has no such group, or the group no such block.
    #[tactic(auto, unfolding(crate::specs::Places::inode_sector, crate::specs::Places::sector_of))]
    pub fn inode_sector(&self, number: u64) -> Option<u64>
        requires { IsTrue (is_sound self.now) }
        ensures place { result ≡ inode_sector self.now number }
        ensures within { IfSome result (λ sector. sector < 2 ^ 55) }
    {
        let group = self.group(number);
        let block = self.block_of(number);
        if group < self.ag_count as u64 && block < self.ag_blocks as u64 {
            Some(self.sector(group, block, self.index(number)))
        } else {
            None
        }
    }

    /// The sector at which an inode of a block of a group begins.
    fn sector(&self, group: u64, block: u64, index: u64) -> u64
        requires sound { IsTrue (is_sound self.now) }
        requires group { group < self.now.ag_count }
        requires block { block < self.now.ag_blocks }
        requires index { index < 2 ^ self.now.inode_bits }
        ensures place { result ≡ (group * self.now.ag_blocks + block) * (self.now.block / 512) + index * (self.now.inode / 512) }
        ensures within { result < 2 ^ 55 }
    {
        let before = group * self.ag_blocks as u64 + block;
        let within = index * (self.inode / SECTOR as u16) as u64;
        before * (self.block / SECTOR as u32) as u64 + within
    }

    /// The group of an inode.
    #[tactic(auto, unfolding(crate::specs::Places::group_of), using(crate::proofs::Limits::inode_power, crate::proofs::Limits::block_power))]
    fn group(&self, number: u64) -> u64
        requires { IsTrue (is_sound self.now) }
        ensures { result ≡ group_of self.now number }
    {
        number / 2u64.pow(self.inode_bits as u32) / 2u64.pow(self.block_bits as u32)
    }

    /// The block of its group in which an inode lies.
    #[tactic(auto, unfolding(crate::specs::Places::block_of), using(crate::proofs::Limits::inode_power, crate::proofs::Limits::block_power))]
    fn block_of(&self, number: u64) -> u64
        requires { IsTrue (is_sound self.now) }
        ensures { result ≡ block_of self.now number }
    {
        number / 2u64.pow(self.inode_bits as u32) % 2u64.pow(self.block_bits as u32)
    }

    /// Which of its block an inode is.
    #[tactic(auto, unfolding(crate::specs::Places::index_of), using(crate::proofs::Limits::inode_power))]
    fn index(&self, number: u64) -> u64
        requires { IsTrue (is_sound self.now) }
        ensures index { result ≡ index_of self.now number }
        ensures within { result < 2 ^ self.now.inode_bits }
    {
        number % 2u64.pow(self.inode_bits as u32)
    }

    /// Whether an inode begins a stretch of 64 KiB: such an inode counts as a mark.
    #[tactic(auto, unfolding(crate::specs::Places::is_mark))]
    pub fn is_mark(&self, number: u64) -> bool
        ensures { result ≡ is_mark self.now number }
    {
        number as u128 * self.inode as u128 % 65_536 == 0
    }
}
