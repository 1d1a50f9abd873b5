//! Where inodes lie: the fields of a superblock, and the descriptors of groups.

ghost use Rattle.std.specs.Prelude.{◌≡◌, ◌+◌, ◌*◌, ◌/◌, ◌<◌, ◌≤◌, ◌^◌, ◌++◌, [], ◌∷◌, IfSome, IsTrue, slice_range};
ghost use Rattle.crc32c.specs.Register.{register_after};
ghost use Rattle.std.specs.Int.{to_le_bytes, w32};
ghost use Rattle.inode_marks.specs.Tables.{has_inode_form, has_one_table, is_whole, has_feature, are_descriptors, copied_place, copied_sector, copied_tables, descriptor_bytes, descriptor_register, descriptors_behind, group_of, has_group, has_tables, index_of, inode_sector, inode_table, inode_tables, is_descriptor, is_sound, sector_groups, seed_of, table_block, tables_of};

use sector_fields::{SECTOR, u16_le, u32_le, uuid_at};
use uuid::Uuid;

/// The number that marks a superblock.
const MAGIC: u16 = 0xEF53;

/// The bytes of a block whose code is 0. Each code more doubles them.
const SMALLEST_BLOCK: u32 = 1024;

/// The code of the largest blocks, of 65,536 bytes.
const LARGEST_BLOCK_CODE: u32 = 6;

/// The register with which the checksum of an identifier or a superblock begins.
const ALL_ONES: u32 = 0xFFFF_FFFF;

/// Features that a superblock may have, by the weight of their bit.
const META_BG: u32 = 0x10;

const WIDE_BLOCKS: u32 = 0x80;

const CSUM_SEED: u32 = 0x2000;

const METADATA_CSUM: u32 = 0x400;

/// The blocks that a table of inodes may begin with are below this.
const BLOCK_LIMIT: u64 = 1 << 47;

/// The sectors from a copy of a superblock on that have its descriptors: a block of 65,536 bytes at most, and
/// `TABLE_SECTORS`.
pub const COPY_SECTORS: usize = 256;

/// Their bytes.
pub const COPY_BYTES: usize = COPY_SECTORS * SECTOR;

/// The sectors of descriptors that are looked at.
const TABLE_SECTORS: u32 = 128;

/// What a superblock says of where inodes lie, and of their checksums.
#[derive(Clone, Copy, PartialEq, Eq)]
pub struct InodeTables {
    /// The file system's identifier, its bytes in the order in which they stand in the sector.
    pub uuid: Uuid,
    /// The register with which checksums begin.
    pub seed: u32,
    /// The inodes of the file system: the number of the last.
    pub inodes: u32,
    /// The bytes of a block.
    pub block: u32,
    /// The inodes of a group.
    pub group_inodes: u32,
    /// The bytes of a group's descriptor: 32 or 64.
    pub descriptor: u16,
}

/// What the superblock in two sectors says, as [`read_copy`] has it.
#[tactic(auto, unfolding(crate::specs::Tables::inode_tables))]
fn read_tables(first: &[u8; SECTOR], second: &[u8; SECTOR]) -> Option<InodeTables>
    ensures tables { result ≡ inode_tables first.now second.now }
    ensures within { IfSome result (λ x. IsTrue (is_sound x)) }
{
    if has_tables(first, second) {
        Some(tables_of(first, second))
    } else {
        None
    }
}

/// The block of the volume at which the inodes of the group begin, by its descriptor at a byte of the sector. None where
/// the checksum is not that of this group's descriptor, or the block is 2^47 or later.
#[tactic(auto, unfolding(crate::specs::Tables::inode_table), using(crate::proofs::Limits::block_near))]
fn read_table(tables: &InodeTables, group: u32, sector: &[u8; SECTOR], at: usize) -> Option<u64>
    requires sound { IsTrue (is_sound tables.now) }
    requires room { at + tables.now.descriptor ≤ SECTOR }
    ensures table { result ≡ inode_table tables.now group sector.now at }
    ensures within { IfSome result (λ block. block < 2 ^ 47) }
{
    if is_descriptor(tables, group, sector, at) {
        Some(table_block(tables, sector, at))
    } else {
        None
    }
}

/// What the copy of a superblock says that begins the sectors (Linux kernel, ext4 Data Structures and Algorithms, Super
/// Block). None where they begin with none of a file system whose inodes have 256 bytes and checksums: another magic
/// number; a block size above 65,536; fewer than 8 inodes in a group, or no multiple of 8; a revision that is not 1; inodes
/// of another size; the feature `meta_bg`; none of the feature `metadata_csum`, or another checksum than CRC-32C;
/// descriptors of another size than 32 or 64 bytes; or a wrong checksum.
#[tactic(auto, unfolding(crate::specs::Tables::copied_tables))]
pub fn read_copy(copy: &[u8; COPY_BYTES]) -> Option<InodeTables>
    ensures tables { result ≡ copied_tables copy.now }
    ensures within { IfSome result (λ x. IsTrue (is_sound x)) }
{
    read_tables(copied_sector(copy, 0), copied_sector(copy, 1))
}

/// One of the sectors from a copy on.
fn copied_sector(copy: &[u8; COPY_BYTES], sector: usize) -> &[u8; SECTOR]
    requires { sector < 256 }
    ensures { result.now ≡ copied_sector copy.now sector }
{
    let at = SECTOR * sector;
    copy[at..at + SECTOR].as_array().unwrap()
}

impl InodeTables {
    /// The group of an inode. The number of an inode is at least 1.
    #[tactic(auto, unfolding(crate::specs::Tables::is_sound, crate::specs::Tables::group_of))]
    fn group(&self, number: u32) -> u32
        requires sound { IsTrue (is_sound self.now) }
        requires numbered { 1 ≤ number }
        ensures { result ≡ group_of self.now number }
    {
        (number - 1) / self.group_inodes
    }

    /// The place of an inode in the table of its group, from 0 on.
    #[tactic(auto, unfolding(crate::specs::Tables::is_sound, crate::specs::Tables::index_of))]
    fn index(&self, number: u32) -> u32
        requires sound { IsTrue (is_sound self.now) }
        requires numbered { 1 ≤ number }
        ensures { result ≡ index_of self.now number }
    {
        (number - 1) % self.group_inodes
    }

    /// The sector of the volume at which an inode lies, where the table of its group begins with `table`. It is below
    /// 2^55.
    #[tactic(auto, unfolding(crate::specs::Tables::is_sound, crate::specs::Tables::inode_sector))]
    fn inode_sector(&self, table: u64, number: u32) -> u64
        requires sound { IsTrue (is_sound self.now) }
        requires placed { table < 2 ^ 47 }
        requires numbered { 1 ≤ number }
        ensures place { result ≡ inode_sector self.now table number }
        ensures within { result < 2 ^ 55 }
    {
        table * (self.block / SECTOR as u32) as u64
            + self.index(number) as u64 * 256 / SECTOR as u64
    }

    /// The sector of the volume at which an inode lies, by the descriptors behind the copy of the superblock with which
    /// the sectors begin. None where the descriptor of its group stands in none of the first `TABLE_SECTORS`; or where
    /// in the sector that has it one is not whole, of the groups that have inodes: a checksum has 16 bits alone.
    #[tactic(auto, unfolding(crate::specs::Tables::copied_place))]
    pub fn copied_place(&self, copy: &[u8; COPY_BYTES], number: u32) -> Option<u64>
        requires sound { IsTrue (is_sound self.now) }
        requires numbered { 1 ≤ number }
        ensures place { result ≡ copied_place self.now copy.now number }
        ensures within { IfSome result (λ sector. sector < 2 ^ 55) }
    {
        let group = self.group(number);
        let groups = self.sector_groups();
        if group / groups >= TABLE_SECTORS {
            return None;
        }
        let sector = self.descriptors_behind(copy, group);
        if !self.are_descriptors(group - group % groups, sector) {
            return None;
        }
        let at = (group % groups) as usize * self.descriptor as usize;
        let table = read_table(self, group, sector, at)?;
        Some(self.inode_sector(table, number))
    }

    /// The sector behind a copy of the superblock that has the descriptor of a group.
    #[tactic(auto, unfolding(crate::specs::Tables::descriptors_behind), using(crate::proofs::Limits::block_most))]
    fn descriptors_behind<'a>(&self, copy: &'a [u8; COPY_BYTES], group: u32) -> &'a [u8; SECTOR]
        requires sound { IsTrue (is_sound self.now) }
        requires near { group / sector_groups self.now < 128 }
        ensures { result.now ≡ descriptors_behind self.now copy.now group }
    {
        let sector = self.block / SECTOR as u32 + group / self.sector_groups();
        copied_sector(copy, sector as usize)
    }

    /// How many descriptors a sector has.
    #[tactic(auto, unfolding(crate::specs::Tables::is_sound, crate::specs::Tables::sector_groups))]
    fn sector_groups(&self) -> u32
        requires { IsTrue (is_sound self.now) }
        ensures groups { result ≡ sector_groups self.now }
        ensures whole { result * self.now.descriptor ≡ 512 }
    {
        SECTOR as u32 / self.descriptor as u32
    }

    /// Whether a sector has the descriptors of the groups from the first on, as far as those have inodes.
    #[tactic(auto, using(crate::proofs::Limits::descriptors_start, crate::proofs::Limits::descriptor_passed, crate::proofs::Limits::descriptor_fails, crate::proofs::Limits::descriptors_end))]
    fn are_descriptors(&self, first: u32, sector: &[u8; SECTOR]) -> bool
        requires sound { IsTrue (is_sound self.now) }
        requires near { first < 2 ^ 31 }
        ensures { result ≡ are_descriptors self.now first sector.now }
    {
        for place in 0..self.sector_groups() {
            let at = place as usize * self.descriptor as usize;
            if self.has_group(first + place) && !is_descriptor(self, first + place, sector, at) {
                return false;
            }
        }
        true
    }

    /// Whether a group has inodes.
    #[tactic(auto, unfolding(crate::specs::Tables::has_group))]
    fn has_group(&self, group: u32) -> bool
        ensures { result ≡ has_group self.now group }
    {
        group as u64 * (self.group_inodes as u64) < self.inodes as u64
    }
}

/// Whether a descriptor is that of the group.
#[tactic(auto, unfolding(crate::specs::Tables::is_descriptor), using(crate::proofs::Limits::descriptor_least))]
fn is_descriptor(tables: &InodeTables, group: u32, sector: &[u8; SECTOR], at: usize) -> bool
    requires sound { IsTrue (is_sound tables.now) }
    requires room { at + tables.now.descriptor ≤ SECTOR }
    ensures { result ≡ is_descriptor tables.now group sector.now at }
{
    descriptor_register(tables, group, sector, at) % 65_536 == u16_le(sector, at + 30) as u32
        && table_block(tables, sector, at) < BLOCK_LIMIT
}

/// Whether the two sectors are a superblock that tells where inodes lie.
#[tactic(auto, unfolding(crate::specs::Tables::has_tables))]
fn has_tables(first: &[u8; SECTOR], second: &[u8; SECTOR]) -> bool
    ensures { result ≡ has_tables first.now second.now }
{
    has_inode_form(first) && has_one_table(first) && is_whole(first, second)
}

/// Whether a superblock's file system has inodes of 256 bytes with checksums.
#[tactic(auto, unfolding(crate::specs::Tables::has_inode_form))]
fn has_inode_form(first: &[u8; SECTOR]) -> bool
    ensures { result ≡ has_inode_form first.now }
{
    let inodes = u32_le(first, 40);
    u16_le(first, 56) == MAGIC
        && u32_le(first, 24) <= LARGEST_BLOCK_CODE
        && 8 <= inodes
        && inodes % 8 == 0
        && u32_le(first, 76) == 1
        && u16_le(first, 88) == 256
        && u32_le(first, 100) / METADATA_CSUM % 2 == 1
        && first[373] == 1
}

/// Whether its descriptors stand in one table, and have 32 or 64 bytes.
#[tactic(auto, unfolding(crate::specs::Tables::has_one_table))]
fn has_one_table(first: &[u8; SECTOR]) -> bool
    ensures { result ≡ has_one_table first.now }
{
    let descriptor = descriptor_bytes(first);
    u32_le(first, 96) / META_BG % 2 == 0 && (descriptor == 32 || descriptor == 64)
}

/// Whether the checksum of a superblock is right.
#[tactic(auto, unfolding(crate::specs::Tables::is_whole))]
fn is_whole(first: &[u8; SECTOR], second: &[u8; SECTOR]) -> bool
    ensures { result ≡ is_whole first.now second.now }
{
    crc32c::after(crc32c::after(ALL_ONES, first), &second[0..508]) == u32_le(second, 508)
}

/// The register with which the checksums of a file system begin.
#[tactic(auto, unfolding(crate::specs::Tables::seed_of))]
fn seed_of(first: &[u8; SECTOR], second: &[u8; SECTOR]) -> u32
    ensures { result ≡ seed_of first.now second.now }
{
    if u32_le(first, 96) / CSUM_SEED % 2 == 1 {
        u32_le(second, 112)
    } else {
        crc32c::after(ALL_ONES, &first[104..120])
    }
}

/// The bytes of a group descriptor.
#[tactic(auto, unfolding(crate::specs::Tables::descriptor_bytes))]
fn descriptor_bytes(first: &[u8; SECTOR]) -> u16
    ensures { result ≡ descriptor_bytes first.now }
{
    if u32_le(first, 96) / WIDE_BLOCKS % 2 == 1 {
        u16_le(first, 254)
    } else {
        32
    }
}

/// The fields of a superblock, by their places in its sectors.
#[tactic(auto, unfolding(crate::specs::Tables::tables_of), using(crate::proofs::Limits::power_most))]
fn tables_of(first: &[u8; SECTOR], second: &[u8; SECTOR]) -> InodeTables
    requires { IsTrue (has_tables first.now second.now) }
    ensures { result ≡ tables_of first.now second.now }
{
    InodeTables {
        uuid: uuid_at(first, 104),
        seed: seed_of(first, second),
        inodes: u32_le(first, 0),
        block: SMALLEST_BLOCK * 2u32.pow(u32_le(first, 24)),
        group_inodes: u32_le(first, 40),
        descriptor: descriptor_bytes(first),
    }
}

/// The block that a descriptor names, whatever its checksum.
#[tactic(auto, unfolding(crate::specs::Tables::table_block), using(crate::proofs::Limits::descriptor_least))]
fn table_block(tables: &InodeTables, sector: &[u8; SECTOR], at: usize) -> u64
    requires sound { IsTrue (is_sound tables.now) }
    requires room { at + tables.now.descriptor ≤ SECTOR }
    ensures { result ≡ table_block tables.now sector.now at }
{
    let high = if tables.descriptor == 64 {
        u32_le(sector, at + 40)
    } else {
        0
    };
    u32_le(sector, at + 8) as u64 + (1 << 32) * high as u64
}

/// The register that a group's number and its descriptor leave.
#[tactic(auto, unfolding(crate::specs::Tables::descriptor_register), using(crate::proofs::Pieces::four_pieces, crate::proofs::Limits::descriptor_least, crate::proofs::Limits::descriptor_most))]
fn descriptor_register(tables: &InodeTables, group: u32, sector: &[u8; SECTOR], at: usize) -> u32
    requires sound { IsTrue (is_sound tables.now) }
    requires room { at + tables.now.descriptor ≤ SECTOR }
    ensures { result ≡ descriptor_register tables.now group sector.now at }
{
    let number = crc32c::after(tables.seed, &group.to_le_bytes());
    let front = crc32c::after(number, &sector[at..at + 30]);
    let end = at + tables.descriptor as usize;
    crc32c::after(crc32c::after(front, &[0, 0]), &sector[at + 32..end])
}
