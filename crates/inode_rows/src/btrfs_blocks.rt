//! Tree blocks of btrfs that count, and leaves that tell where they lie.
ghost use Rattle.std.specs.Prelude.{◌<◌};

use crate::btrfs_leaves::{
    HEADER, LEAF_BACK, LEAF_FRONT, SINGLE_BACK, SINGLE_FRONT, SINGLE_HEADER,
};
use crate::sectors::{MADE, sector_of};
use btrfstree::{TreeBlock, is_whole, read_block, read_leaf_chunk};
use uuid::Uuid;

// A block that begins with these bytes and has others from a place on, with zeros elsewhere.
fn block(front: &[u8], back: &[u8], from: usize) -> [u8; 16_384] {
    let mut block = [0; 16_384];
    for (to, byte) in block.iter_mut().zip(front) {
        *to = *byte;
    }
    for (to, byte) in block.iter_mut().skip(from).zip(back) {
        *to = *byte;
    }
    block
}

// The sector with another byte at a place.
fn changed(front: &[u8], at: usize, byte: u8) -> [u8; 512]
    requires { at < 512 }
{
    let mut sector = sector_of(front);
    sector[at] = byte;
    sector
}

// What a header is read as.
fn made(address: u64, generation: u64, is_chunk_leaf: bool) -> Option<TreeBlock> {
    Some(TreeBlock {
        identifier: Uuid::from_bytes(MADE),
        address,
        generation,
        is_chunk_leaf,
    })
}

#[test]
fn blocks_of_dump_tree(rt: HostRuntime) {
    assert!(rt; read_block(&sector_of(&LEAF_FRONT)) == made(22_036_480, 6, true));
    assert!(rt; read_block(&sector_of(&SINGLE_FRONT)) == made(1_064_960, 5, true));
    assert!(rt; read_block(&sector_of(&HEADER)) == made(30_474_240, 7, false));
    assert!(rt; read_block(&sector_of(&SINGLE_HEADER)) == made(5_439_488, 5, false));
}

// Written is 1, and being moved 2: a block has the first, or both.
#[test]
fn flags_of_blocks(rt: HostRuntime) {
    assert!(rt; read_block(&changed(&HEADER, 56, 3)) == made(30_474_240, 7, false));
    assert!(rt; read_block(&changed(&LEAF_FRONT, 56, 3)) == made(22_036_480, 6, true));
    assert!(rt; read_block(&changed(&HEADER, 63, 0)) == made(30_474_240, 7, false));
    assert!(rt; read_block(&changed(&HEADER, 56, 0)).is_none());
    assert!(rt; read_block(&changed(&HEADER, 56, 2)).is_none());
    assert!(rt; read_block(&changed(&HEADER, 56, 5)).is_none());
    assert!(rt; read_block(&changed(&HEADER, 57, 1)).is_none());
    assert!(rt; read_block(&changed(&HEADER, 62, 128)).is_none());
    assert!(rt; read_block(&changed(&LEAF_FRONT, 56, 0)).is_none());
}

#[test]
fn no_blocks(rt: HostRuntime) {
    assert!(rt; read_block(&[0; 512]).is_none());
    assert!(rt; read_block(&changed(&HEADER, 49, 0x40)).is_none());
    assert!(rt; read_block(&changed(&LEAF_FRONT, 49, 0x48)).is_none());
    assert!(rt; read_block(&changed(&LEAF_FRONT, 88, 4)).is_none());
    assert!(rt; read_block(&changed(&HEADER, 63, 2)).is_none());
    assert!(rt; read_block(&changed(&HEADER, 99, 1)).is_none());
    assert!(rt; read_block(&changed(&HEADER, 100, 8)).is_none());
}

#[test]
fn whole_leaves(rt: HostRuntime) {
    let mut leaf = block(&LEAF_FRONT, &LEAF_BACK, 15_825);
    assert!(rt; is_whole(&leaf));
    leaf[8_000] = 1;
    assert!(rt; !is_whole(&leaf) && !is_whole(&LEAF_FRONT));
    assert!(rt; is_whole(&block(&SINGLE_FRONT, &SINGLE_BACK, 16_048)));
}

#[test]
fn places_that_a_leaf_tells(rt: HostRuntime) {
    let leaf = block(&LEAF_FRONT, &LEAF_BACK, 15_825);
    assert!(rt; read_leaf_chunk(1, &leaf, 0).is_none() && read_leaf_chunk(1, &leaf, 4).is_none());
    match read_leaf_chunk(1, &leaf, 3) {
        Some(chunk) => {
            assert!(rt; chunk.first_place(30_474_240) == Some(38_862_848));
            assert!(rt; chunk.second_place(30_474_240) == Some(72_417_280));
        }
        None => assert!(rt; false, "no chunk"),
    }
    match read_leaf_chunk(1, &block(&SINGLE_FRONT, &SINGLE_BACK, 16_048), 2) {
        Some(chunk) => {
            assert!(rt; chunk.first_place(5_439_488) == Some(5_439_488));
            assert!(rt; chunk.second_place(5_439_488).is_none());
        }
        None => assert!(rt; false, "no chunk"),
    }
}
