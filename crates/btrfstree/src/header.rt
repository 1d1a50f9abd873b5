//! The header of a tree block.

ghost use Rattle.std.specs.Prelude.{◌≡◌};
ghost use Rattle.btrfstree.specs.Header.{block_of, has_flags, header_of, is_block, is_chunk_leaf, is_counted, is_mark, tree_block};

use sector_fields::{SECTOR, has_bytes, u32_le, u64_le, uuid_at};
use uuid::Uuid;

/// The highest level of a tree block.
const HIGHEST_LEVEL: u8 = 7;

/// Flags have the bits below this one; those above are the revision of back references.
const FLAGS_END: u64 = 1 << 56;

/// The flags of a tree block that was written.
const WRITTEN: u64 = 1;

/// Those of one that was written and is being moved.
const WRITTEN_RELOC: u64 = 3;

/// The latest revision of back references.
const LATEST_REVISION: u8 = 1;

/// The most items of a tree block of 64 KiB.
const MOST_ITEMS: u32 = 2617;

/// The identifier of the tree of chunks.
const CHUNK_TREE: u64 = 3;

/// What a tree block says of itself.
#[derive(Clone, Copy)]
pub(crate) struct TreeHeader {
    /// Its logical address, in bytes.
    pub address: u64,
    /// The transaction that wrote it.
    pub generation: u64,
    /// The tree that it belongs to: 3 is the tree of chunks.
    pub owner: u64,
    /// Its level: 0 is a leaf.
    pub level: u8,
}

/// What a tree block that counts says of itself, without its file system.
#[derive(Clone, Copy, PartialEq, Eq)]
pub struct TreeBlock {
    /// The identifier of its file system, its bytes in the order in which they stand.
    pub identifier: Uuid,
    /// Its logical address, in bytes.
    pub address: u64,
    /// The transaction that wrote it.
    pub generation: u64,
    /// Whether it is a leaf of the tree of chunks.
    pub is_chunk_leaf: bool,
}

/// The tree block that begins in the sector, if it counts (btrfs On-disk Format, Header), of whichever file system. None
/// where none begins: an identifier of zeros alone; a superblock, which has its own there; an address of 0, or that is no
/// multiple of 4,096; other flags than WRITTEN alone or with RELOC; a revision of back references above 1; more than 2,617
/// items; or a level above 7. None also where its address begins no stretch of 64 KiB, and it is no leaf of the tree of
/// chunks. Its checksum, which covers the whole block, is not looked at.
#[tactic(auto, unfolding(crate::specs::Header::tree_block))]
pub fn read_block(sector: &[u8; SECTOR]) -> Option<TreeBlock>
    ensures { result ≡ tree_block sector.now }
{
    if is_counted(sector) {
        Some(block_of(sector))
    } else {
        None
    }
}

/// Whether a tree block that counts begins in the sector.
#[tactic(auto, unfolding(crate::specs::Header::is_counted))]
fn is_counted(sector: &[u8; SECTOR]) -> bool
    ensures { result ≡ is_counted sector.now }
{
    is_block(sector) && header_of(sector).is_mark()
}

/// Whether a tree block begins in the sector.
#[tactic(auto, unfolding(crate::specs::Header::is_block))]
fn is_block(sector: &[u8; SECTOR]) -> bool
    ensures { result ≡ is_block sector.now }
{
    let address = u64_le(sector, 48);
    !has_bytes(sector, 64, b"_BHRfS_M")
        && (0 < u64_le(sector, 32) || 0 < u64_le(sector, 40))
        && 0 < address
        && address % 4096 == 0
        && has_flags(u64_le(sector, 56))
        && sector[63] <= LATEST_REVISION
        && u32_le(sector, 96) <= MOST_ITEMS
        && sector[100] <= HIGHEST_LEVEL
}

/// Whether a tree block has these flags, above which its revision of back references stands.
#[tactic(auto, unfolding(crate::specs::Header::has_flags))]
fn has_flags(flags: u64) -> bool
    ensures { result ≡ has_flags flags }
{
    flags % FLAGS_END == WRITTEN || flags % FLAGS_END == WRITTEN_RELOC
}

/// The fields of a header, by their places in the sector.
#[tactic(auto, unfolding(crate::specs::Header::header_of))]
fn header_of(sector: &[u8; SECTOR]) -> TreeHeader
    ensures { result ≡ header_of sector.now }
{
    TreeHeader {
        address: u64_le(sector, 48),
        generation: u64_le(sector, 80),
        owner: u64_le(sector, 88),
        level: sector[100],
    }
}

/// The fields of a tree block that counts, by their places in the sector.
#[tactic(auto, unfolding(crate::specs::Header::block_of))]
fn block_of(sector: &[u8; SECTOR]) -> TreeBlock
    ensures { result ≡ block_of sector.now }
{
    let header = header_of(sector);
    TreeBlock {
        identifier: uuid_at(sector, 32),
        address: header.address,
        generation: header.generation,
        is_chunk_leaf: header.is_chunk_leaf(),
    }
}

impl TreeHeader {
    /// Whether it is a leaf of the tree of chunks.
    #[tactic(auto, unfolding(crate::specs::Header::is_chunk_leaf))]
    fn is_chunk_leaf(&self) -> bool
        ensures { result ≡ is_chunk_leaf self.now }
    {
        self.level == 0 && self.owner == CHUNK_TREE
    }

    /// Whether such a tree block counts as a mark: its address begins a stretch of 64 KiB, or it is a leaf of the tree of
    /// chunks.
    #[tactic(auto, unfolding(crate::specs::Header::is_mark))]
    fn is_mark(&self) -> bool
        ensures { result ≡ is_mark self.now }
    {
        self.address % 65_536 == 0 || self.is_chunk_leaf()
    }
}
