//! An inode.

ghost use Rattle.std.specs.Prelude.{◌≡◌, ◌+◌, ◌≤◌};
ghost use Rattle.xfs5.specs.Inode.{begins_inode, inode_of, inode_register, inode_start, is_inode, larger_inode, u64_be, xfs_inode};

use byteorder::{BigEndian, ByteOrder};
use sector_fields::{SECTOR, has_bytes, u32_le, uuid_at};
use uuid::Uuid;

/// The register with which checksums begin.
const ALL_ONES: u32 = 0xFFFF_FFFF;

/// The version of an inode that tells its number: at its byte 4.
pub const VERSION: u8 = 3;

/// The most bytes of an inode.
pub const LARGEST_INODE: usize = 2048;

/// The sectors of the largest inode.
pub const LARGEST_SECTORS: usize = LARGEST_INODE / SECTOR;

/// What an inode says of itself.
#[derive(Clone, Copy, PartialEq, Eq)]
pub struct XfsInode {
    /// Its number.
    pub number: u64,
    /// The identifier of its file system, as it stands in the inode.
    pub uuid: Uuid,
}

/// The inode that begins in the sector (XFS Algorithms & Data Structures, Inode Core). `rest` are its bytes past the
/// sector: none where the inodes of the file system have 512 bytes. None where no inode begins: another magic number; a
/// version other than 3; or a checksum that is not that of all its bytes.
#[tactic(auto, unfolding(crate::specs::Inode::xfs_inode))]
pub fn read_inode(sector: &[u8; SECTOR], rest: &[u8]) -> Option<XfsInode>
    ensures { result ≡ xfs_inode sector.now rest.now }
{
    if is_inode(sector, rest) {
        Some(inode_of(sector))
    } else {
        None
    }
}

/// The inode that seems to begin in the sector, whatever its checksum. None where the magic number or the version is
/// another.
#[tactic(auto, unfolding(crate::specs::Inode::inode_start))]
pub fn read_start(sector: &[u8; SECTOR]) -> Option<XfsInode>
    ensures { result ≡ inode_start sector.now }
{
    if begins_inode(sector) {
        Some(inode_of(sector))
    } else {
        None
    }
}

/// How many bytes the inode has that begins the run, where those are more than 512: 1,024 or 2,048, by its checksum. None
/// where no such inode begins.
#[tactic(auto, unfolding(crate::specs::Inode::larger_inode))]
pub fn read_larger(run: &[u8; LARGEST_INODE]) -> Option<u16>
    ensures { result ≡ larger_inode run.now }
{
    let sector = run[0..SECTOR].as_array().unwrap();
    if is_inode(sector, &run[SECTOR..1024]) {
        Some(1024)
    } else if is_inode(sector, &run[SECTOR..LARGEST_INODE]) {
        Some(2048)
    } else {
        None
    }
}

/// Whether an inode with a right checksum begins in the sector.
#[tactic(auto, unfolding(crate::specs::Inode::is_inode))]
fn is_inode(sector: &[u8; SECTOR], rest: &[u8]) -> bool
    ensures { result ≡ is_inode sector.now rest.now }
{
    begins_inode(sector)
        && inode_register(sector, rest) as u64 + u32_le(sector, 100) as u64 == ALL_ONES as u64
}

/// Whether an inode seems to begin in the sector.
#[tactic(auto, unfolding(crate::specs::Inode::begins_inode))]
fn begins_inode(sector: &[u8; SECTOR]) -> bool
    ensures { result ≡ begins_inode sector.now }
{
    has_bytes(sector, 0, b"IN") && sector[4] == VERSION
}

/// The register that an inode leaves.
#[tactic(auto, unfolding(crate::specs::Inode::inode_register), using(crate::proofs::Pieces::four_pieces))]
fn inode_register(sector: &[u8; SECTOR], rest: &[u8]) -> u32
    ensures { result ≡ inode_register sector.now rest.now }
{
    let front = crc32c::after(crc32c::after(ALL_ONES, &sector[0..100]), &[0, 0, 0, 0]);
    crc32c::after(crc32c::after(front, &sector[104..512]), rest)
}

/// The fields of an inode, by their places in its sector.
#[tactic(auto, unfolding(crate::specs::Inode::inode_of))]
fn inode_of(sector: &[u8; SECTOR]) -> XfsInode
    ensures { result ≡ inode_of sector.now }
{
    XfsInode {
        number: u64_be(sector, 152),
        uuid: uuid_at(sector, 160),
    }
}

/// The number in the eight bytes from `at` on, the highest first.
#[tactic(auto, unfolding(crate::specs::Inode::u64_be))]
fn u64_be(sector: &[u8; SECTOR], at: usize) -> u64
    requires { at + 8 ≤ SECTOR }
    ensures { result ≡ u64_be sector.now at }
{
    BigEndian::read_u64(&sector[at..])
}
