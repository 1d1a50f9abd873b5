//! In how many sectors of their regions images differ.
ghost use Rattle.std.specs.Prelude.{◌≡◌, ◌+◌, ◌-◌, ◌*◌, ◌≤◌, ◌<◌, ◌^◌, ℕ, All, IfSome, IsTrue, OnOk, Some, [], if◌then◌else◌, length, map, min, slice_index, slice_index_or};
ghost use Rattle.std.specs.Bool.{Decides};
ghost use Rattle.outside.specs.Attached.{told_all};
ghost use Rattle.outside.specs.Causes.{HasCause};
ghost use Rattle.outside.specs.Seen.{OnlyReads};
ghost use Rattle.std.specs.List.{range_with_len};
ghost use Rattle.raid_params.specs.declared.limits.TheConstants.{MOST};
ghost use Rattle.member_regions.specs.Regions.{IsRoomFor};
ghost use Rattle.member_regions.specs.declared.regions.TheConstants.{BLOCK};
ghost use Rattle.near_mirror.specs.Heads.{is_valid_near};
ghost use Rattle.near_tables.specs.Counting.{AddsPair};
ghost use Rattle.near_tables.specs.Reading.{HasRoom, HoldStrip, regions_differ, strip_torn};
ghost use Rattle.near_tables.specs.Tables.{count_of, lane_depth, lane_gap as lane_gap_of};

use crate::lane_reading::Strips;
use member_regions::{BLOCK, Regions};
use near_mirror::{Copying, MOST_COPIES};
use outside::{Failed, Images};
use raid_params::{MOST, Slots};

/// For one image with each other, in how many sectors they differ.
pub(crate) type ImageCounts = [u64; MOST];

/// For each two images, in how many sectors they differ.
pub(crate) type PairCounts = [ImageCounts; MOST];

/// The most lanes: as many as a chunk may have copies.
pub(crate) const LANES: usize = MOST_COPIES as usize;

/// Slots that hold `count` images, each in the slot of its number.
fn all_images(count: usize) -> Slots
    requires { count ≤ MOST }
    ensures { result.items ≡ map (λ i. Some i) (range_with_len 0 count) }
{
    let mut slots = Slots::new();
    for image in 0..count {
        slots.push(Some(image as u8));
    }
    slots
}

/// Reads `count` sectors of each of the images from an image sector on, into a region for each.
pub(crate) fn read_strip<I: Images>(
    images: &mut I,
    regions: &mut Regions,
    many: usize,
    sector: u64,
    count: usize,
) -> Result<(), Failed>
    requires few { many ≤ MOST }
    requires attached { length (I.seen images.old).attached ≡ many }
    requires reach { 1 ≤ count → All (λ image. sector + count ≤ image.sectors) (I.seen images.old).attached }
    requires near { 1 ≤ count → sector + count < 2 ^ 55 }
    requires room { IsRoomFor many BLOCK regions.old }
    requires fits { count ≤ BLOCK }
    ensures told { OnOk result (IfSome (told_all (I.seen images.old).attached) (λ bytes. HoldStrip bytes many sector count regions.new)) }
    ensures room { IsRoomFor many BLOCK regions.new }
    ensures reads { OnlyReads (I.seen images.old) (I.seen images.new) (many * count) }
    ensures cause { HasCause (I.seen images.old).faults (I.seen images.new).faults result }
{
    if count == 0 {
        return Ok(());
    }
    let slots = all_images(many);
    regions.read(images, &slots, sector, 0, count)
}

/// Adds to the counts of each two lanes those of the first `count` sectors from number `at` on, which is this sector of the first
/// lane, as they were read.
pub(crate) fn add_lanes(
    counts: &mut [PairCounts],
    strips: &Strips,
    at: u64,
    sector: u64,
    count: usize,
)
    requires head { IsTrue (is_valid_near strips.now.head) }
    requires few { strips.now.many ≤ MOST }
    requires room { HasRoom strips.now }
    requires sector { sector ≡ lane_depth strips.now.head 0 at }
    requires near { sector < 2 ^ 55 }
    requires fits { count ≤ BLOCK }
    requires long { length counts.old ≡ 16 }
    ensures long { length counts.new ≡ 16 }
    ensures adds { (pair : ℕ) → pair < 16 → AddsPair strips.now.many strips.now.head strips.now.limit at count strips.now.lanes.items pair
        (slice_index_or counts.old pair []) (slice_index_or counts.new pair []) }
{
    for pair in 0..LANES * LANES {
        add_pair(&mut counts[pair], strips, pair, at, sector, count);
    }
}

/// Adds those to the counts of two lanes, where copies of a chunk may lie in them.
fn add_pair(
    counts: &mut PairCounts,
    strips: &Strips,
    pair: usize,
    at: u64,
    sector: u64,
    count: usize,
)
    requires head { IsTrue (is_valid_near strips.now.head) }
    requires few { strips.now.many ≤ MOST }
    requires room { HasRoom strips.now }
    requires pair { pair < 16 }
    requires sector { sector ≡ lane_depth strips.now.head 0 at }
    requires near { sector < 2 ^ 55 }
    requires fits { count ≤ BLOCK }
    ensures { AddsPair strips.now.many strips.now.head strips.now.limit at count strips.now.lanes.items pair counts.old counts.new }
{
    let (lane, next) = (pair / LANES, pair % LANES);
    let least = lane + lane_gap(strips.head.layout.copying);
    let copies = usize::from(strips.head.layout.copies);
    if least <= next && next < copies {
        let rest = strips.rest_at(next as u8, at, sector, count);
        add_images(
            counts,
            &strips.lanes[lane],
            &strips.lanes[next],
            strips.many,
            rest,
        );
    }
}

/// How many lanes a later copy of a chunk lies after an earlier one, at the least.
fn lane_gap(copying: Copying) -> usize
    ensures value { result ≡ lane_gap_of copying }
    ensures few { result ≤ 1 }
{
    match copying {
        Copying::Near => 0,
        Copying::Far => 1,
        Copying::Offset => 1,
    }
}

/// Adds to the counts of each two images those of the first `count` sectors of their regions: the first image's among some regions,
/// the second's among others.
fn add_images(counts: &mut PairCounts, first: &Regions, second: &Regions, many: usize, count: usize)
    requires few { many ≤ MOST }
    requires first { IsRoomFor many count first.now }
    requires second { IsRoomFor many count second.now }
    ensures { (one other : ℕ) → one < many → other < many →
        count_of counts.new one other ≡ min (count_of counts.old one other + strip_torn first.now second.now count one other) (2 ^ 64 - 1) }
{
    for one in 0..many {
        add_image(&mut counts[one], first, one, second, many, count);
    }
}

/// Adds those of one image with each other.
fn add_image(
    counts: &mut ImageCounts,
    first: &Regions,
    one: usize,
    second: &Regions,
    many: usize,
    count: usize,
)
    requires few { many ≤ MOST }
    requires one { one < many }
    requires first { IsRoomFor many count first.now }
    requires second { IsRoomFor many count second.now }
    ensures { (other : ℕ) → other < many →
        slice_index counts.new other ≡ min (slice_index counts.old other + strip_torn first.now second.now count one other) (2 ^ 64 - 1) }
{
    for other in 0..many {
        counts[other] = counts[other].saturating_add(torn_in(first, one, second, other, count));
    }
}

/// In how many of the first `count` sectors of their regions two images differ.
fn torn_in(first: &Regions, one: usize, second: &Regions, other: usize, count: usize) -> u64
    requires first { IsRoomFor (one + 1) count first.now }
    requires second { IsRoomFor (other + 1) count second.now }
    ensures { result ≡ strip_torn first.now second.now count one other }
{
    let mut torn = 0;
    for j in 0..count {
        torn += one_if(are_torn(first, one, second, other, j));
    }
    torn
}

/// 1 where it holds.
fn one_if(holds: bool) -> u64
    ensures value { result ≡ if holds then 1 else 0 }
    ensures few { result ≤ 1 }
{
    if holds { 1 } else { 0 }
}

/// Whether sectors number `j` of their regions differ.
fn are_torn(first: &Regions, one: usize, second: &Regions, other: usize, j: usize) -> bool
    requires first { IsRoomFor (one + 1) (j + 1) first.now }
    requires second { IsRoomFor (other + 1) (j + 1) second.now }
    ensures { result ≡ regions_differ first.now one second.now other j }
{
    !are_same(first.region(one, j, 1), second.region(other, j, 1))
}

/// Whether two lists of bytes are the same.
fn are_same(one: &[u8], other: &[u8]) -> bool
    ensures { Decides result (one.now ≡ other.now) }
{
    one == other
}
