//! Chunk items: where addresses lie on a device.

ghost use Rattle.std.specs.Prelude.{◌≡◌, ◌+◌, ◌<◌, ◌≤◌, ◌^◌, length, IfSome, IsTrue};
ghost use Rattle.sector_fields.specs.Fields.{u16_le, u64_le};
ghost use Rattle.btrfstree.specs.Chunks.{chunk_item, chunk_of, first_place, has_leaf_item, has_stripe, is_chunk, is_dup, is_single, is_within, leaf_chunk, place_from, second_place};

use crate::fields::{u16_le, u32_le, u64_le};

/// Addresses and places end below this.
const END: u128 = 1 << 64;

/// The type of a key of a chunk item.
const CHUNK_ITEM: u8 = 228;

/// The bytes of a header, after which the keys of a leaf stand.
const HEADER: usize = 101;

/// The bytes of a key in a leaf with the place and size of its item.
const KEYED: usize = 25;

/// A chunk that lies on one device alone.
#[derive(Clone, Copy, PartialEq, Eq)]
pub struct Chunk {
    /// The first of its logical addresses, in bytes.
    pub logical: u64,
    /// How many addresses it has.
    pub bytes: u64,
    /// The byte of the device at which it lies.
    pub first: u64,
    /// The byte at which it lies the second time: none where it lies once.
    pub second: Option<u64>,
}

/// The chunk of an item whose key has the logical address, where it lies on the device alone (btrfs On-disk Format,
/// CHUNK_ITEM). `item` are bytes that begin with the item. None where they are none of such a chunk: too few bytes;
/// another profile than single with one stripe, or DUP with two; a stripe of another device; or an end of its addresses
/// or of a stripe at 2^64 or later.
#[tactic(auto, unfolding(crate::specs::Chunks::chunk_item), using(crate::proofs::Within::first_there, crate::proofs::Within::second_there))]
fn read_chunk(device: u64, logical: u64, item: &[u8]) -> Option<Chunk>
    ensures chunk { result ≡ chunk_item device logical item.now }
    ensures within { IfSome result (λ x. IsTrue (is_within x)) }
{
    if is_chunk(device, logical, item) {
        Some(chunk_of(logical, item))
    } else {
        None
    }
}

/// The chunk of the item with a number of a leaf, whose bytes from its header on these are. None where the block is no
/// leaf, has no such item or not within the bytes, its key is that of no chunk item, or the item is that of no such
/// chunk.
#[tactic(auto, unfolding(crate::specs::Chunks::leaf_chunk), using(crate::proofs::Within::key_there, crate::proofs::Within::item_there))]
pub fn read_leaf_chunk(device: u64, leaf: &[u8], index: u16) -> Option<Chunk>
    ensures chunk { result ≡ leaf_chunk device leaf.now index }
    ensures within { IfSome result (λ x. IsTrue (is_within x)) }
{
    if has_leaf_item(leaf, index) {
        let at = HEADER + KEYED * index as usize;
        let item = HEADER + u32_le(leaf, at + 17) as usize;
        read_chunk(device, u64_le(leaf, at + 9), &leaf[item..])
    } else {
        None
    }
}

/// Whether the block is a leaf that has the item with a number within its bytes, and its key is that of a chunk item.
#[tactic(auto, unfolding(crate::specs::Chunks::has_leaf_item))]
fn has_leaf_item(leaf: &[u8], index: u16) -> bool
    ensures { result ≡ has_leaf_item leaf.now index }
{
    let at = HEADER + KEYED * index as usize;
    at + KEYED <= leaf.len()
        && leaf[100] == 0
        && (index as u32) < u32_le(leaf, 96)
        && leaf[at + 8] == CHUNK_ITEM
        && HEADER + u32_le(leaf, at + 17) as usize <= leaf.len()
}

/// Whether the bytes begin with the item of a chunk that lies on the device alone.
#[tactic(auto, unfolding(crate::specs::Chunks::is_chunk))]
fn is_chunk(device: u64, logical: u64, item: &[u8]) -> bool
    ensures { result ≡ is_chunk device logical item.now }
{
    80 <= item.len()
        && (logical as u128 + u64_le(item, 0) as u128) < END
        && (is_single(device, item) || is_dup(device, item))
}

/// Whether the chunk lies once.
#[tactic(auto, unfolding(crate::specs::Chunks::is_single))]
fn is_single(device: u64, item: &[u8]) -> bool
    requires { 80 ≤ length item.now }
    ensures { result ≡ is_single device item.now }
{
    u64_le(item, 24) / 8 == 0 && u16_le(item, 44) == 1 && has_stripe(device, item, 48)
}

/// Whether the chunk lies twice on the device.
#[tactic(auto, unfolding(crate::specs::Chunks::is_dup))]
fn is_dup(device: u64, item: &[u8]) -> bool
    requires { 80 ≤ length item.now }
    ensures { result ≡ is_dup device item.now }
{
    u64_le(item, 24) / 8 == 4
        && u16_le(item, 44) == 2
        && 112 <= item.len()
        && has_stripe(device, item, 48)
        && has_stripe(device, item, 80)
}

/// Whether the stripe at a byte of the item lies on the device, and ends below 2^64.
#[tactic(auto, unfolding(crate::specs::Chunks::has_stripe))]
fn has_stripe(device: u64, item: &[u8], at: usize) -> bool
    requires stripe { at + 16 ≤ length item.now }
    requires item { 8 ≤ length item.now }
    ensures { result ≡ has_stripe device item.now at }
{
    let end = u64_le(item, at + 8) as u128 + u64_le(item, 0) as u128;
    u64_le(item, at) == device && end < END
}

/// The fields of a chunk, by their places in its item.
#[tactic(auto, unfolding(crate::specs::Chunks::chunk_of))]
fn chunk_of(logical: u64, item: &[u8]) -> Chunk
    requires first { 80 ≤ length item.now }
    requires second { u16_le item.now 44 ≡ 2 → 112 ≤ length item.now }
    ensures { result ≡ chunk_of logical item.now }
{
    let second = if u16_le(item, 44) == 2 {
        Some(u64_le(item, 88))
    } else {
        None
    };
    Chunk {
        logical,
        bytes: u64_le(item, 0),
        first: u64_le(item, 56),
        second,
    }
}

impl Chunk {
    /// The byte of the device at which an address lies first. None where the chunk does not have the address.
    #[tactic(auto, unfolding(crate::specs::Chunks::first_place), using(crate::proofs::Within::first_ends))]
    pub fn first_place(&self, address: u64) -> Option<u64>
        requires { IsTrue (is_within self.now) }
        ensures { result ≡ first_place self.now address }
    {
        self.place(self.first, address)
    }

    /// The byte of the device at which an address lies the second time. None where the chunk does not have the address,
    /// or lies once.
    #[tactic(auto, using(crate::proofs::Within::second_ends, crate::proofs::Within::second_is, crate::proofs::Within::second_is_none))]
    pub fn second_place(&self, address: u64) -> Option<u64>
        requires { IsTrue (is_within self.now) }
        ensures { result ≡ second_place self.now address }
    {
        match self.second {
            Some(start) => self.place(start, address),
            None => None,
        }
    }

    /// The byte at which an address lies, where the chunk lies from `start` on.
    #[tactic(auto, unfolding(crate::specs::Chunks::place_from))]
    fn place(&self, start: u64, address: u64) -> Option<u64>
        requires { start + self.now.bytes < 2 ^ 64 }
        ensures { result ≡ place_from self.now start address }
    {
        if address < self.logical {
            return None;
        }
        let past = address - self.logical;
        if past < self.bytes {
            Some(start + past)
        } else {
            None
        }
    }
}
