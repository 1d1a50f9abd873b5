//! Inodes of XFS and their places, and what makes none.
ghost use Rattle.std.specs.Prelude.{◌<◌};

use crate::sectors::{MADE, sector_of, turned};
use crate::xfs_sectors::{INODE, LARGEST_INODE, SUPER, WIDE_INODE, WIDE_SUPER};
use test_objects::{LARGE_INODE, LARGE_SUPER, LARGEST_SUPER};
use uuid::Uuid;
use xfs5::{XfsInode, read_inode, read_inodes, read_larger, read_start};

// The identifier with which all of them were made.
fn made() -> Uuid {
    Uuid::from_bytes(MADE)
}

// What an inode is read as.
fn numbered(number: u64) -> Option<XfsInode> {
    Some(XfsInode {
        number,
        uuid: made(),
    })
}

#[test]
fn numbers_of_xfs_db(rt: HostRuntime) {
    let large = sector_of(&LARGE_INODE);
    assert!(rt; read_inode(&INODE, &[]) == numbered(655_488));
    assert!(rt; read_inode(&WIDE_INODE, &[]) == numbered(263_424));
    assert!(rt; read_inode(&large, &[0; 512]) == numbered(328_064));
}

#[test]
fn no_inodes(rt: HostRuntime) {
    let large = sector_of(&LARGE_INODE);
    assert!(rt; read_inode(&large, &[]).is_none());
    assert!(rt; read_inode(&large, &turned([0; 512], 511)).is_none());
    assert!(rt; read_inode(&INODE, &[0; 512]).is_none());
    assert!(rt; read_inode(&turned(INODE, 159), &[]).is_none());
    assert!(rt; read_inode(&turned(INODE, 103), &[]).is_none());
    assert!(rt; read_inode(&turned(INODE, 511), &[]).is_none());
    assert!(rt; read_inode(&SUPER, &[]).is_none() && read_inode(&[0; 512], &[]).is_none());
}

// Four sectors with these two at the front, and bytes of something else behind.
fn run_of(first: &[u8; 512], second: &[u8; 512]) -> [u8; 2048] {
    let mut run = [0x77; 2048];
    run[..512].copy_from_slice(first);
    run[512..1024].copy_from_slice(second);
    run
}

#[test]
fn bytes_of_larger_inodes(rt: HostRuntime) {
    let large = sector_of(&LARGE_INODE);
    assert!(rt; read_larger(&run_of(&large, &[0; 512])) == Some(1024));
    assert!(rt; read_larger(&run_of(&large, &turned([0; 512], 511))).is_none());
    assert!(rt; read_larger(&run_of(&INODE, &[0; 512])).is_none());
    assert!(rt; read_larger(&LARGEST_INODE) == Some(2048));
    let mut other = LARGEST_INODE;
    other[2047] ^= 1;
    assert!(rt; read_larger(&other).is_none());
}

#[test]
fn first_sectors_of_inodes(rt: HostRuntime) {
    let large = sector_of(&LARGE_INODE);
    assert!(rt; read_start(&INODE) == numbered(655_488));
    assert!(rt; read_start(&large) == numbered(328_064));
    assert!(rt; read_start(&turned(large, 511)) == numbered(328_064));
    assert!(rt; read_start(&turned(INODE, 4)).is_none() && read_start(&turned(INODE, 0)).is_none());
    assert!(rt; read_start(&[0; 512]).is_none() && read_start(&SUPER).is_none());
}

#[test]
fn places_of_xfs_db(rt: HostRuntime) {
    match read_inodes(&SUPER) {
        Some(inodes) => {
            assert!(rt; inodes.uuid == made() && inodes.inode == 512);
            assert!(rt; inodes.inode_sector(655_488) == Some(540_800));
            assert!(rt; inodes.inode_sector(655_489) == Some(540_801));
            assert!(rt; inodes.inode_sector(128) == Some(128));
            assert!(rt; inodes.is_mark(655_488) && !inodes.is_mark(655_552));
        }
        None => assert!(rt; false, "no superblock"),
    }
}

#[test]
fn places_in_wide_sectors_and_of_large_inodes(rt: HostRuntime) {
    match read_inodes(&WIDE_SUPER) {
        Some(inodes) => {
            assert!(rt; inodes.uuid == made());
            assert!(rt; inodes.inode_sector(263_424) == Some(206_080));
        }
        None => assert!(rt; false, "no superblock"),
    }
    match read_inodes(&sector_of(&LARGE_SUPER)) {
        Some(inodes) => {
            assert!(rt; inodes.inode == 1024 && inodes.inode_sector(328_064) == Some(541_440));
            assert!(rt; inodes.is_mark(328_064) && !inodes.is_mark(328_096));
        }
        None => assert!(rt; false, "no superblock"),
    }
    match read_inodes(&sector_of(&LARGEST_SUPER)) {
        Some(inodes) => {
            assert!(rt; inodes.inode == 2048 && inodes.inode_sector(163_904) == Some(540_928));
            assert!(rt; inodes.is_mark(163_904) && !inodes.is_mark(163_920));
        }
        None => assert!(rt; false, "no superblock"),
    }
}

// Four groups of 25,600 blocks, of which numbers have room for 32,768.
#[test]
fn no_places(rt: HostRuntime) {
    match read_inodes(&SUPER) {
        Some(inodes) => {
            assert!(rt; inodes.inode_sector((4 << 15) * 8).is_none());
            assert!(rt; inodes.inode_sector(25_600 * 8).is_none());
            assert!(rt; inodes.inode_sector(25_599 * 8 + 7) == Some(204_799));
            assert!(rt; inodes.inode_sector(u64::MAX).is_none());
        }
        None => assert!(rt; false, "no superblock"),
    }
    assert!(rt; read_inodes(&turned(WIDE_SUPER, 101)).is_none());
    assert!(rt; read_inodes(&turned(WIDE_SUPER, 123)).is_none());
    assert!(rt; read_inodes(&turned(WIDE_SUPER, 124)).is_none());
    assert!(rt; read_inodes(&turned(WIDE_SUPER, 105)).is_none());
    assert!(rt; read_inodes(&INODE).is_none());
}

// A copy with a damaged byte anywhere, in its checksum too. With sectors of 4,096 bytes it is not looked at.
#[test]
fn damaged_copies(rt: HostRuntime) {
    assert!(rt; read_inodes(&turned(SUPER, 87)).is_none());
    assert!(rt; read_inodes(&turned(SUPER, 140)).is_none());
    assert!(rt; read_inodes(&turned(SUPER, 223)).is_none());
    assert!(rt; read_inodes(&turned(SUPER, 224)).is_none());
    assert!(rt; read_inodes(&turned(SUPER, 227)).is_none());
    assert!(rt; read_inodes(&turned(SUPER, 228)).is_none());
    assert!(rt; read_inodes(&turned(SUPER, 511)).is_none());
    assert!(rt; read_inodes(&turned(sector_of(&LARGE_SUPER), 511)).is_none());
    assert!(rt; read_inodes(&turned(WIDE_SUPER, 140)).is_some());
    assert!(rt; read_inodes(&turned(WIDE_SUPER, 224)).is_some());
    assert!(rt; read_inodes(&turned(WIDE_SUPER, 511)).is_some());
}
