//! Tree blocks of btrfs, and where their addresses lie.
ghost use Rattle.std.specs.Prelude.{◌<◌};

use crate::btrfs_parts::{
    ARRAY, FRONT, LEAF, LEAF_ITEMS, RENAMED_FRONT, RENAMED_ROOTS, ROOTS, SINGLE_ARRAY,
};
use crate::sectors::{MADE, sector_of, turned};
use btrfstree::{Chunk, TreeBlock, is_whole, read_block, read_leaf_chunk};
use uuid::Uuid;

// The leaf of the chunk tree, as it is printed.
fn chunk_leaf() -> Option<TreeBlock> {
    Some(TreeBlock {
        identifier: Uuid::from_bytes(MADE),
        address: 22_036_480,
        generation: 6,
        is_chunk_leaf: true,
    })
}

// The chunk of metadata, as it is printed.
const METADATA: Chunk = Chunk {
    logical: 30_408_704,
    bytes: 33_554_432,
    first: 38_797_312,
    second: Some(72_351_744),
};

// Puts bytes into a block from a place on, as far as there is room.
fn put(block: &mut [u8], at: usize, bytes: &[u8]) {
    for (to, from) in block.iter_mut().skip(at).zip(bytes) {
        *to = *from;
    }
}

// A superblock with these bytes at its beginning, from its array on and from its backup roots on.
fn superblock(front: &[u8], array: &[u8], roots: &[u8]) -> [u8; 4096] {
    let mut block = [0; 4096];
    put(&mut block, 0, front);
    put(&mut block, 811, array);
    put(&mut block, 2859, roots);
    block
}

// The leaf with what is kept of it, which is all but zeros and the parts of item 0.
fn leaf() -> [u8; 16_384] {
    let mut leaf = [0; 16_384];
    leaf[..512].copy_from_slice(&LEAF);
    leaf[15_982..].copy_from_slice(&LEAF_ITEMS);
    leaf
}

// A leaf whose one item has the key with which these bytes begin, and the others.
fn leaf_of(keyed: &[u8]) -> [u8; 512] {
    let mut leaf = [0; 512];
    leaf[96] = 1;
    put(&mut leaf, 126, keyed.get(17..).unwrap_or(&[]));
    put(&mut leaf, 101, keyed.get(..17).unwrap_or(&[]));
    leaf[118] = 25;
    leaf
}

// The leaf with another address in the key of its item 1.
fn moved(address: u64) -> [u8; 16_384] {
    let mut leaf = leaf();
    put(&mut leaf, 135, &address.to_le_bytes());
    leaf
}

#[test]
fn superblocks_of_dump_super(rt: HostRuntime) {
    assert!(rt; is_whole(&superblock(&FRONT, &ARRAY, &ROOTS)));
    assert!(rt; is_whole(&superblock(&RENAMED_FRONT, &ARRAY, &RENAMED_ROOTS)));
    assert!(rt; !is_whole(&superblock(&FRONT, &ARRAY, &RENAMED_ROOTS)));
    assert!(rt; !is_whole(&superblock(&RENAMED_FRONT, &ARRAY, &ROOTS)));
}

#[test]
fn chunks_of_a_leaf(rt: HostRuntime) {
    let leaf = leaf();
    assert!(rt; read_leaf_chunk(1, &leaf, 3) == Some(METADATA));
    match read_leaf_chunk(1, &leaf, 1) {
        Some(chunk) => {
            assert!(rt; chunk.logical == 13_631_488 && chunk.bytes == 8_388_608);
            assert!(rt; chunk.first == 13_631_488 && chunk.second.is_none());
        }
        None => assert!(rt; false, "no chunk"),
    }
    assert!(rt; read_leaf_chunk(1, &leaf, 0).is_none() && read_leaf_chunk(1, &leaf, 4).is_none());
    assert!(rt;
        read_leaf_chunk(2, &leaf, 3).is_none() && read_leaf_chunk(1, &leaf, u16::MAX).is_none()
    );
    assert!(rt; read_leaf_chunk(1, &LEAF, 3).is_none() && read_leaf_chunk(1, &[], 0).is_none());
}

#[test]
fn blocks_of_dump_tree(rt: HostRuntime) {
    assert!(rt; read_block(&LEAF) == chunk_leaf());
    assert!(rt; read_block(&sector_of(&FRONT)).is_none());
    assert!(rt; read_block(&turned(LEAF, 48)).is_none());
    assert!(rt; read_block(&turned(LEAF, 100)).is_none());
}

// `btrfs-map-logical -l 30900224` prints mirror 1 at physical 39288832 and mirror 2 at 72843264.
#[test]
fn places_of_a_chunk_that_lies_twice(rt: HostRuntime) {
    match read_leaf_chunk(1, &leaf(), 3) {
        Some(chunk) => {
            assert!(rt; chunk.first_place(30_900_224) == Some(39_288_832));
            assert!(rt; chunk.second_place(30_900_224) == Some(72_843_264));
            assert!(rt;
                chunk.first_place(30_408_703).is_none() && chunk.second_place(30_408_703).is_none()
            );
            assert!(rt;
                chunk.second_place(30_408_704 + 33_554_431) == Some(72_351_744 + 33_554_431)
            );
            assert!(rt; chunk.second_place(30_408_704 + 33_554_432).is_none());
        }
        None => assert!(rt; false, "no chunk"),
    }
}

#[test]
fn places_of_a_chunk_that_lies_once(rt: HostRuntime) {
    match read_leaf_chunk(1, &leaf(), 1) {
        Some(chunk) => {
            assert!(rt; chunk.bytes == 8_388_608 && chunk.second.is_none());
            assert!(rt; chunk.first_place(13_631_488 + 8_388_607) == Some(13_631_488 + 8_388_607));
            assert!(rt; chunk.second_place(13_631_488).is_none());
        }
        None => assert!(rt; false, "no chunk"),
    }
}

// `btrfs-map-logical -l 22036480` prints mirror 1 at physical 22036480 and mirror 2 at 30425088.
#[test]
fn chunks_of_the_superblock(rt: HostRuntime) {
    match read_leaf_chunk(1, &leaf_of(&ARRAY), 0) {
        Some(chunk) => {
            assert!(rt; chunk.logical == 22_020_096 && chunk.bytes == 8_388_608);
            assert!(rt; chunk.first_place(22_036_480) == Some(22_036_480));
            assert!(rt; chunk.second_place(22_036_480) == Some(30_425_088));
        }
        None => assert!(rt; false, "no chunk"),
    }
    match read_leaf_chunk(1, &leaf_of(&SINGLE_ARRAY), 0) {
        Some(chunk) => {
            assert!(rt; chunk.logical == 1_048_576 && chunk.bytes == 4_194_304);
            assert!(rt; chunk.first == 1_048_576 && chunk.second.is_none());
        }
        None => assert!(rt; false, "no chunk"),
    }
}

// The first bytes of a leaf.
fn front(leaf: &[u8; 512], bytes: usize) -> &[u8] {
    leaf.get(..bytes).unwrap_or(&[])
}

// Of the items of 112 bytes and of 80 bytes one byte is cut off, or the key begins a byte later.
#[test]
fn no_chunks(rt: HostRuntime) {
    let twice = leaf_of(&ARRAY);
    assert!(rt; read_leaf_chunk(1, front(&twice, 126 + 112), 0).is_some());
    assert!(rt; read_leaf_chunk(1, front(&twice, 126 + 111), 0).is_none());
    assert!(rt; read_leaf_chunk(2, &twice, 0).is_none());
    let once = leaf_of(&SINGLE_ARRAY);
    assert!(rt; read_leaf_chunk(1, front(&once, 126 + 80), 0).is_some());
    assert!(rt; read_leaf_chunk(1, front(&once, 126 + 79), 0).is_none());
    assert!(rt; read_leaf_chunk(1, &leaf_of(&ARRAY[1..]), 0).is_none());
    assert!(rt; read_leaf_chunk(1, &moved(u64::MAX - 8_388_607), 1).is_none());
    assert!(rt; read_leaf_chunk(1, &moved(u64::MAX - 8_388_608), 1).is_some());
}
