//! What sightings tell of others: leaves of the tree of chunks where tree blocks of btrfs lie, and copies of superblocks of
//! ext where inodes of ext4 do.
ghost use Rattle.std.specs.Prelude.{◌≡◌, ◌+◌, ◌*◌, ◌^◌, ◌<◌, if◌then◌else◌, count_by, map, All, IfSome, OnOk, Some};
ghost use Rattle.outside.specs.Attached.{told_all};
ghost use Rattle.outside.specs.Causes.{HasCause};
ghost use Rattle.outside.specs.Seen.{OnlyReads, lengths_of};
ghost use Rattle.survey_engine.specs.Sightings.{AreSightings, IsInImages};
ghost use Rattle.survey_engine.specs.Telling.{bare, begins_leaf, has_copy, is_leaf, is_newer, is_other, is_same_number, landmark_with, sectors_by, sighting_with, spot_at, spot_of, told, told_by, told_by_leaf, with_leaf, with_spot};

use crate::copies::tell_by_copy;
use crate::landmark::{Landmark, TreeSeen};
use crate::owner::is_same_uuid;
use crate::sighting::Sighting;
use btrfstree::{TreeBlock, is_whole, read_leaf_chunk};
use mark_kinds::Kinds;
use outside::{Failed, Images};

/// The bytes of a leaf.
const LEAF: usize = 16_384;

/// The sectors of a leaf.
const LEAF_SECTORS: u64 = 32;

/// The most chunk items of a leaf: 25 bytes of key and 80 of item each, after the header of 101.
const MOST_CHUNKS: u16 = 155;

/// The device of a file system that lies on one.
const DEVICE: u64 = 1;

/// Where an address lies, in bytes of its device.
#[derive(Clone, Copy)]
pub struct Spot {
    /// Where it lies the first time.
    pub first: u64,
    /// Where it lies the second time: None where it lies once.
    pub second: Option<u64>,
}

/// Adds to each of the sightings what all of them tell of where it lies: of tree blocks, where those are `asked`, the leaves
/// of the tree of chunks, and of inodes of ext4, where those are, the copies of superblocks of ext. Each leaf that its image
/// has whole is read once, 32 sectors, and 256 sectors from each copy on of which the image has them.
pub fn tell<I: Images>(
    images: &mut I,
    lengths: &[u64],
    asked: &Kinds,
    found: &mut [Sighting],
) -> Result<(), Failed>
    requires found { AreSightings lengths.now found.old }
    requires lengths { lengths.now ≡ lengths_of (I.seen images.old).attached }
    requires short { All (λ n. n < 2 ^ 55) lengths.now }
    ensures told { OnOk result (IfSome (told_all (I.seen images.old).attached)
        (λ bytes. found.new ≡ told asked.now lengths.now bytes found.old)) }
    ensures sightings { OnOk result (AreSightings lengths.now found.new) }
    ensures reads { OnlyReads (I.seen images.old) (I.seen images.new)
        (32 * count_by (is_leaf asked.now.btrfstree lengths.now) found.old + 256 * count_by (has_copy asked.now.extinode lengths.now) found.old) }
    ensures cause { HasCause (I.seen images.old).faults (I.seen images.new).faults result }
{
    for place in 0..found.len() {
        let by = found[place];
        tell_by(images, lengths, asked, &by, found)?;
    }
    Ok(())
}

/// Adds to each of the sightings what another tells of it.
fn tell_by<I: Images>(
    images: &mut I,
    lengths: &[u64],
    asked: &Kinds,
    by: &Sighting,
    found: &mut [Sighting],
) -> Result<(), Failed>
    requires by { IsInImages lengths.now by.now }
    requires lengths { lengths.now ≡ lengths_of (I.seen images.old).attached }
    requires short { All (λ n. n < 2 ^ 55) lengths.now }
    ensures told { OnOk result (IfSome (told_all (I.seen images.old).attached)
        (λ bytes. found.new ≡ map (λ s. told_by asked.now lengths.now bytes s by.now) found.old)) }
    ensures alike { map bare found.new ≡ map bare found.old }
    ensures reads { OnlyReads (I.seen images.old) (I.seen images.new) (sectors_by asked.now lengths.now by.now) }
    ensures cause { HasCause (I.seen images.old).faults (I.seen images.new).faults result }
{
    tell_by_leaf(images, lengths, asked.btrfstree, by, found)?;
    tell_by_copy(images, lengths, asked.extinode, by, found)?;
    Ok(())
}

/// Adds to each of the sightings what another tells of it, where tree blocks are `asked` and that is a leaf that its image
/// has whole.
fn tell_by_leaf<I: Images>(
    images: &mut I,
    lengths: &[u64],
    asked: bool,
    by: &Sighting,
    found: &mut [Sighting],
) -> Result<(), Failed>
    requires by { IsInImages lengths.now by.now }
    requires lengths { lengths.now ≡ lengths_of (I.seen images.old).attached }
    requires short { All (λ n. n < 2 ^ 55) lengths.now }
    ensures told { OnOk result (IfSome (told_all (I.seen images.old).attached)
        (λ bytes. found.new ≡ map (λ s. told_by_leaf asked lengths.now bytes s by.now) found.old)) }
    ensures alike { map bare found.new ≡ map bare found.old }
    ensures reads { OnlyReads (I.seen images.old) (I.seen images.new) (if is_leaf asked lengths.now by.now then 32 else 0) }
    ensures cause { HasCause (I.seen images.old).faults (I.seen images.new).faults result }
{
    if !is_leaf(asked, lengths, by) {
        return Ok(());
    }
    let mut leaf = [0; LEAF];
    images.read(by.image as u32, by.sector, &mut leaf)?;
    if !is_whole(&leaf) {
        return Ok(());
    }
    hear(&leaf, &by.landmark, found);
    Ok(())
}

/// Whether tree blocks are `asked`, and a sighting is a leaf of the tree of chunks that its image has whole.
#[tactic(auto, unfolding(crate::specs::Telling::is_leaf))]
fn is_leaf(asked: bool, lengths: &[u64], sighting: &Sighting) -> bool
    requires sighting { IsInImages lengths.now sighting.now }
    requires short { All (λ n. n < 2 ^ 55) lengths.now }
    ensures { result ≡ is_leaf asked lengths.now sighting.now }
{
    asked
        && begins_leaf(&sighting.landmark)
        && sighting.sector + LEAF_SECTORS <= lengths[sighting.image as usize]
}

/// Whether a landmark is the first sector of a leaf of the tree of chunks.
fn begins_leaf(landmark: &Landmark) -> bool
    ensures { result ≡ begins_leaf landmark.now }
{
    match landmark {
        Landmark::Tree(tree) => tree.block.is_chunk_leaf,
        _ => false,
    }
}

/// Adds to each of the sightings what a leaf, which is this landmark, tells of it.
#[tactic(auto, using(crate::proofs::Leaves::heard_none, crate::proofs::Leaves::heard_more, crate::proofs::Leaves::heard_all))]
fn hear(leaf: &[u8; LEAF], by: &Landmark, found: &mut [Sighting])
    ensures { found.new ≡ map (sighting_with leaf.now by.now) found.old }
{
    for place in 0..found.len() {
        let sighting = found[place];
        found[place] = sighting_with(leaf, by, &sighting);
    }
}

/// A sighting with what a leaf tells of it.
fn sighting_with(leaf: &[u8; LEAF], by: &Landmark, sighting: &Sighting) -> Sighting
    ensures { result ≡ sighting_with leaf.now by.now sighting.now }
{
    Sighting {
        image: sighting.image,
        sector: sighting.sector,
        landmark: landmark_with(leaf, by, &sighting.landmark),
    }
}

/// A landmark with what a leaf tells of it.
fn landmark_with(leaf: &[u8; LEAF], by: &Landmark, landmark: &Landmark) -> Landmark
    ensures { result ≡ landmark_with leaf.now by.now landmark.now }
{
    match (by, landmark) {
        (Landmark::Tree(by), Landmark::Tree(tree)) => {
            Landmark::Tree(with_leaf(leaf, &by.block, tree))
        }
        _ => *landmark,
    }
}

/// A tree block with what a leaf tells of where it lies, if that is one of its file system.
#[tactic(auto, unfolding(crate::specs::Telling::with_leaf))]
fn with_leaf(leaf: &[u8; LEAF], by: &TreeBlock, tree: &TreeSeen) -> TreeSeen
    ensures { result ≡ with_leaf leaf.now by.now tree.now }
{
    if !is_same_uuid(&by.identifier, &tree.block.identifier) {
        return *tree;
    }
    match spot_of(leaf, tree.block.address) {
        Some(spot) => with_spot(by.generation, tree, &spot),
        None => *tree,
    }
}

/// A tree block once a leaf of a generation told where it lies: the newest leaf counts, and where two of that generation
/// tell of different places, nothing is known.
#[tactic(auto, unfolding(crate::specs::Telling::with_spot))]
fn with_spot(generation: u64, tree: &TreeSeen, spot: &Spot) -> TreeSeen
    ensures { result ≡ with_spot generation tree.now spot.now }
{
    if is_newer(generation, tree.told) {
        TreeSeen {
            block: tree.block,
            told: Some(generation),
            first: Some(spot.first),
            second: spot.second,
        }
    } else if is_same_number(tree.told, Some(generation)) && is_other(tree, spot) {
        TreeSeen {
            block: tree.block,
            told: tree.told,
            first: None,
            second: None,
        }
    } else {
        *tree
    }
}

/// Whether a leaf of a generation is newer than what told before.
fn is_newer(generation: u64, told: Option<u64>) -> bool
    ensures { result ≡ is_newer generation told }
{
    match told {
        Some(before) => before < generation,
        None => true,
    }
}

/// Whether the place that is told is another than what is known.
fn is_other(tree: &TreeSeen, spot: &Spot) -> bool
    ensures { result ≡ is_other tree.now spot.now }
{
    !(is_same_number(tree.first, Some(spot.first)) && is_same_number(tree.second, spot.second))
}

/// Whether two numbers are one, or there is neither.
fn is_same_number(a: Option<u64>, b: Option<u64>) -> bool
    ensures { result ≡ is_same_number a b }
{
    match (a, b) {
        (Some(a), Some(b)) => a == b,
        (None, None) => true,
        _ => false,
    }
}

/// Where a leaf tells that an address lies: of its chunk items the first that has it.
#[tactic(auto, using(crate::proofs::Leaves::spot_start, crate::proofs::Leaves::spot_found, crate::proofs::Leaves::spot_passed, crate::proofs::Leaves::spot_none))]
fn spot_of(leaf: &[u8; LEAF], address: u64) -> Option<Spot>
    ensures { result ≡ spot_of leaf.now address }
{
    for index in 0..MOST_CHUNKS {
        if let Some(spot) = spot_at(leaf, address, index) {
            return Some(spot);
        }
    }
    None
}

/// Where the chunk of an item of a leaf has an address.
#[tactic(auto, unfolding(crate::specs::Telling::spot_at))]
fn spot_at(leaf: &[u8; LEAF], address: u64, index: u16) -> Option<Spot>
    ensures { result ≡ spot_at leaf.now address index }
{
    let chunk = read_leaf_chunk(DEVICE, leaf, index)?;
    let first = chunk.first_place(address)?;
    Some(Spot {
        first,
        second: chunk.second_place(address),
    })
}
