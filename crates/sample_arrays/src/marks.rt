//! The sectors of an XFS with which the groups of a volume begin.
ghost use Rattle.std.specs.Prelude.{◌≡◌, ◌<◌, ◌≤◌, ◌-◌, ◌*◌, ◌/◌, ◌%◌, ◌^◌, ◌++◌, IfSome, length};
ghost use Rattle.sample_arrays.specs.Marks.{group_blocks as group_blocks_of, header_sector as header_sector_of, is_mark as is_mark_at, mark_sector as mark_sector_of, padded, super_sector as super_sector_of, volume_sector as volume_sector_of};

use crate::words::{Sector, append, random_sector};
use outside::SECTOR;

/// The groups of an XFS.
const GROUPS: u32 = 64;

/// The sectors of a block.
const BLOCK_SECTORS: u64 = 8;

/// The bytes of a block.
const BLOCK_BYTES: u32 = 4096;

/// The sectors of a group that are written: its superblock and its two headers.
const MARKS: u64 = 3;

/// What fills a volume: the words that follow from a number, and the groups of an XFS, if it has one.
#[derive(Clone, Copy)]
pub(crate) struct Filling {
    /// The number from which the words are made.
    pub(crate) number: u64,
    /// The blocks of a group.
    pub(crate) blocks: Option<u32>,
}

/// The blocks of a group of a volume of `sectors` sectors, whose rows have `items` data items.
pub(crate) fn group_blocks(sectors: u64, items: u64) -> u32
    requires some { 512 ≤ sectors }
    requires most { sectors < 2 ^ 32 }
    requires items { 1 ≤ items }
    ensures { result ≡ group_blocks_of sectors items }
{
    let most = sectors / (BLOCK_SECTORS * GROUPS as u64);
    (most - (most - 1) % items) as u32
}

/// Sector `sector` of the volume: one of the first three of an XFS group, or words of the generator.
pub(crate) fn volume_sector(filling: &Filling, sector: u64) -> Sector
    requires near { 64 * sector < 2 ^ 64 }
    requires blocks { IfSome filling.now.blocks (λ blocks. 1 ≤ blocks) }
    ensures bytes { result.items ≡ volume_sector_of filling.now.number filling.now.blocks sector }
    ensures long { length result.items ≡ 512 }
{
    match filling.blocks {
        Some(blocks) if is_mark(blocks, sector) => mark_sector(blocks, sector),
        _ => random_sector(filling.number, sector),
    }
}

/// Whether a sector is one of those that are written.
fn is_mark(blocks: u32, sector: u64) -> bool
    requires { 1 ≤ blocks }
    ensures { result ≡ is_mark_at blocks sector }
{
    let group = BLOCK_SECTORS * blocks as u64;
    sector / group < GROUPS as u64 && sector % group < MARKS
}

/// The sector that is written there.
fn mark_sector(blocks: u32, sector: u64) -> Sector
    requires some { 1 ≤ blocks }
    requires within { sector / (8 * blocks) < 64 }
    ensures bytes { result.items ≡ mark_sector_of blocks (sector / (8 * blocks)) (sector % (8 * blocks)) }
    ensures long { length result.items ≡ 512 }
{
    let size = BLOCK_SECTORS * blocks as u64;
    let group = (sector / size) as u32;
    match sector % size {
        0 => super_sector(blocks),
        1 => header_sector(b"XAGF", group),
        _ => header_sector(b"XAGI", group),
    }
}

/// The superblock of an XFS with groups of `blocks` blocks.
#[tactic(auto, unfolding(crate::specs::Marks::super_sector))]
fn super_sector(blocks: u32) -> Sector
    ensures bytes { result.items ≡ super_sector_of blocks }
    ensures long { length result.items ≡ 512 }
{
    let mut sector = Sector::new();
    append(&mut sector, b"XFSB");
    append(&mut sector, &BLOCK_BYTES.to_be_bytes());
    pad(&mut sector, 32);
    append(&mut sector, &[0xA5; 16]);
    pad(&mut sector, 84);
    append(&mut sector, &blocks.to_be_bytes());
    append(&mut sector, &GROUPS.to_be_bytes());
    pad(&mut sector, 102);
    append(&mut sector, &(SECTOR as u16).to_be_bytes());
    pad(&mut sector, SECTOR);
    sector
}

/// A header of a group, which begins with these letters.
#[tactic(auto, unfolding(crate::specs::Marks::header_sector))]
fn header_sector(letters: &[u8; 4], group: u32) -> Sector
    ensures bytes { result.items ≡ header_sector_of letters.now group }
    ensures long { length result.items ≡ 512 }
{
    let mut sector = Sector::new();
    append(&mut sector, letters);
    append(&mut sector, &1u32.to_be_bytes());
    append(&mut sector, &group.to_be_bytes());
    pad(&mut sector, SECTOR);
    sector
}

/// Appends zeros up to a length of `bytes` bytes.
fn pad(sector: &mut Sector, bytes: usize)
    requires few { length sector.old.items ≤ bytes }
    requires room { bytes ≤ 512 }
    ensures items { sector.new.items ≡ padded bytes sector.old.items }
    ensures long { length sector.new.items ≡ bytes }
{
    let zeros = [0u8; SECTOR];
    append(sector, &zeros[..bytes - sector.len()]);
}
