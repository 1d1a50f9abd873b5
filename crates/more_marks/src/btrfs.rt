//! The superblock of btrfs.

ghost use Rattle.std.specs.Prelude.{◌≡◌, IfSome, IsTrue};
ghost use Rattle.more_marks.specs.Btrfs.{btrfs_super, btrfs_super_of, is_super_address};

use sector_fields::{SECTOR, has_bytes, u64_le, uuid_at};
use uuid::Uuid;

/// The byte of the file system at which its superblock begins.
const FIRST_SUPER: u64 = 64 << 10;

/// The byte at which its first copy begins.
const SECOND_SUPER: u64 = 64 << 20;

/// The byte at which its second copy begins.
const THIRD_SUPER: u64 = 256 << 30;

/// What a superblock of btrfs says of itself.
#[derive(Clone, Copy, PartialEq, Eq)]
pub struct BtrfsSuper {
    /// The file system's identifier, its bytes in the order in which they stand in the sector.
    pub fsid: Uuid,
    /// The byte of the file system's first device at which this superblock begins: 65,536, 67,108,864
    /// or 274,877,906,944.
    pub address: u64,
}

/// The fields of a superblock that begins in the sector (btrfs On-disk Format, Superblock). None where
/// none does: another magic number, or an address of its own at which no superblock lies.
#[tactic(auto, unfolding(crate::specs::Btrfs::btrfs_super, crate::specs::Btrfs::is_btrfs_super, crate::specs::Btrfs::btrfs_super_of), using(crate::proofs::Limits::super_placed))]
pub fn read_btrfs(sector: &[u8; SECTOR]) -> Option<BtrfsSuper>
    ensures superblock { result ≡ btrfs_super sector.now }
    ensures placed { IfSome result (λ x. IsTrue (is_super_address x.address)) }
{
    let found = fields_of(sector);
    if has_bytes(sector, 64, b"_BHRfS_M") && is_super_address(found.address) {
        Some(found)
    } else {
        None
    }
}

/// Whether a superblock lies at this byte of a file system.
#[tactic(auto, unfolding(crate::specs::Btrfs::is_super_address))]
fn is_super_address(address: u64) -> bool
    ensures { result ≡ is_super_address address }
{
    address == FIRST_SUPER || address == SECOND_SUPER || address == THIRD_SUPER
}

/// The fields of a superblock, by their places in the sector.
#[tactic(auto, unfolding(crate::specs::Btrfs::btrfs_super_of))]
fn fields_of(sector: &[u8; SECTOR]) -> BtrfsSuper
    ensures { result ≡ btrfs_super_of sector.now }
{
    BtrfsSuper {
        fsid: uuid_at(sector, 32),
        address: u64_le(sector, 48),
    }
}
