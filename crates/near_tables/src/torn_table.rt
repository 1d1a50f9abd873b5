//! The table of torn sectors of each two images.
ghost use Rattle.std.specs.Prelude.{◌≡◌, ◌+◌, ◌*◌, ◌-◌, ◌%◌, ◌<◌, ◌≤◌, ◌^◌, ℕ, List, All, IfErr, IfOk, IfSome, IsTrue, None, OnOk, length, replicate, slice_index_or};
ghost use Rattle.outside.specs.Attached.{told_all};
ghost use Rattle.outside.specs.Causes.{HasCause};
ghost use Rattle.outside.specs.Seen.{OnlyReads};
ghost use Rattle.raid_params.specs.declared.limits.TheConstants.{MOST};
ghost use Rattle.member_regions.specs.Regions.{Room};
ghost use Rattle.member_regions.specs.declared.regions.TheConstants.{BLOCK};
ghost use Rattle.near_mirror.specs.Heads.{is_valid_near};
ghost use Rattle.slot_math.specs.Ways.{AllImages};
ghost use Rattle.near_tables.specs.Reading.{EndsTable, HasRoom, KeepsStrips, MayRead, ReachesTo, lane_room, rests_of, sectors_read};
ghost use Rattle.near_tables.specs.Tables.{CountsFirst, IsTornTable, copy_held, copy_lane, copy_torn as copy_torn_of, lane_depth, pair_torn as pair_torn_of, pairs_torn as pairs_torn_of, table_torn};
ghost use Rattle.near_mirror.specs.declared.types.NearHead.{NearHead as NearHeadOf};
ghost use Rattle.member_regions.specs.Regions.{IsRoomFor};

use crate::lane_reading::Strips;
use crate::torn_strips::{LANES, PairCounts, add_lanes};
use member_regions::{BLOCK, Regions};
use near_mirror::{Copying, NearHead};
use outside::{Failed, Images, Memory};
use raid_params::MOST;
use std::alloc::Global;
use std::marker::Model;

/// Why a table is not built.
#[derive(Clone, Copy, Debug, PartialEq, Eq)]
pub enum TableFault {
    /// The images failed.
    ReadFault,
    /// Memory ran out.
    Memory,
}

/// For each two lanes of a group of chunks, and each two images, in how many sectors they differ, the first image in the one lane and
/// the second as far on in the other.
///
/// Contracts see it as `TornCounts`.
#[derive(Drop)]
pub struct TornTable {
    counts: Vec<PairCounts>,
}

impl Model for TornTable {
    ghost use Rattle.std.specs.Prelude.{◌≡◌, length};
    ghost use Rattle.near_tables.specs.Tables.{TornCounts};

    ghost Value = { TornCounts };

    ghost view = { λ table. table.counts.items };

    ghost invariant = { λ table. length table.counts.items ≡ 16 };
}

/// Regions for a block of each of `many` images, for each of so many lanes.
fn new_lanes(alloc: Global, many: usize, lanes: u8) -> Result<Vec<Regions>, Memory>
    ensures long { IfOk result (λ rooms. length rooms.items ≡ lanes) }
    ensures blocks { IfOk result (λ rooms. (lane : ℕ) → lane < lanes → IsRoomFor many BLOCK (lane_room rooms.items lane)) }
{
    let mut rooms = Vec::new(alloc);
    for _ in 0..lanes {
        let room = Regions::new(alloc, many, BLOCK)?;
        rooms.push(room).map_err(|_| Memory)?;
    }
    Ok(rooms)
}

/// Counts of no sectors, for each two lanes.
fn new_counts(alloc: Global) -> Result<Vec<PairCounts>, TableFault>
    ensures zeros { IfOk result (λ counts. counts.items ≡ replicate 16 (replicate MOST (replicate MOST 0))) }
    ensures memory { IfErr result (λ fault. fault ≡ TableFault.Memory) }
{
    let mut counts = Vec::new(alloc);
    for _ in 0..LANES * LANES {
        counts
            .push([[0; MOST]; MOST])
            .map_err(|_| TableFault::Memory)?;
    }
    Ok(counts)
}

impl TornTable {
    /// Counts for each two lanes and each two images the sectors before sector `limit` of each part of the members in which they
    /// differ, over rows of a head's chunk from its offset on, where the members end before the image sector `end`. Each such
    /// sector of an image is read once, at most `BLOCK` of them by a call, and memory is taken before the first reading.
    /// `ReadFault` comes only where the images failed.
    pub fn build<I: Images>(
        alloc: Global,
        images: &mut I,
        many: usize,
        head: &NearHead,
        end: u64,
        limit: u64,
    ) -> Result<TornTable, TableFault>
        requires head { IsTrue (is_valid_near head.now) }
        requires few { many ≤ MOST }
        requires attached { length (I.seen images.old).attached ≡ many }
        requires reach { All (λ image. ReachesTo head.now end limit image.sectors) (I.seen images.old).attached }
        requires near { ReachesTo head.now end limit (2 ^ 55 - 1) }
        ensures told { IfOk result (λ table. IfSome (told_all (I.seen images.old).attached)
            (λ bytes. IsTornTable bytes many head.now end limit table)) }
        ensures reads { OnlyReads (I.seen images.old) (I.seen images.new) (many * sectors_read head.now limit) }
        ensures ends { IfErr result (EndsTable (I.seen images.old) (I.seen images.new)) }
        ensures stays { OnOk result ((I.seen images.new).faults ≡ (I.seen images.old).faults) }
    {
        let lanes = new_lanes(alloc, many, head.layout.copies).map_err(|_| TableFault::Memory)?;
        let mut strips = Strips {
            many,
            head: *head,
            end,
            limit,
            lanes,
        };
        let mut table = TornTable::new(alloc)?;
        table
            .add_strips(images, &mut strips)
            .map_err(|_| TableFault::ReadFault)?;
        Ok(table)
    }

    /// The table of no sectors.
    fn new(alloc: Global) -> Result<TornTable, TableFault>
        ensures memory { IfErr result (λ fault. fault ≡ TableFault.Memory) }
        ensures none { IfOk result (λ table. (bytes : List (List ℕ)) (images end limit : ℕ) (head : NearHeadOf) → CountsFirst bytes images head end limit 0 table) }
    {
        let counts = new_counts(alloc)?;
        Ok(TornTable { counts })
    }

    /// Counts all sectors that are tested, strip by strip.
    fn add_strips<I: Images>(&mut self, images: &mut I, strips: &mut Strips) -> Result<(), Failed>
        requires over { MayRead (I.seen images.old).attached strips.old }
        requires room { HasRoom strips.old }
        requires none { (bytes : List (List ℕ)) → CountsFirst bytes strips.old.many strips.old.head strips.old.end strips.old.limit 0 self.old }
        ensures told { OnOk result (IfSome (told_all (I.seen images.old).attached)
            (λ bytes. IsTornTable bytes strips.old.many strips.old.head strips.old.end strips.old.limit self.new)) }
        ensures reads { OnlyReads (I.seen images.old) (I.seen images.new) (strips.old.many * sectors_read strips.old.head strips.old.limit) }
        ensures cause { HasCause (I.seen images.old).faults (I.seen images.new).faults result }
    {
        let mut at = 0;
        let mut sector = 0;
        while sector < strips.limit {
            let count = strips.count_at(at, sector);
            self.add_strip(images, strips, at, sector, count)?;
            at += count as u64;
            sector = strips.sector_at(at);
        }
        Ok(())
    }

    /// Counts `count` sectors of each lane from number `at` on, which is this sector of the first one, as far as they are tested.
    fn add_strip<I: Images>(
        &mut self,
        images: &mut I,
        strips: &mut Strips,
        at: u64,
        sector: u64,
        count: usize,
    ) -> Result<(), Failed>
        requires over { MayRead (I.seen images.old).attached strips.old }
        requires room { HasRoom strips.old }
        requires sector { sector ≡ lane_depth strips.old.head 0 at }
        requires row { at % strips.old.head.chunk + count ≤ strips.old.head.chunk }
        requires fits { count ≤ BLOCK }
        requires within { sector + count ≤ strips.old.limit }
        ensures told { OnOk result (IfSome (told_all (I.seen images.old).attached) (λ bytes.
            CountsFirst bytes strips.old.many strips.old.head strips.old.end strips.old.limit at self.old →
            CountsFirst bytes strips.old.many strips.old.head strips.old.end strips.old.limit (at + count) self.new)) }
        ensures keeps { KeepsStrips strips.old strips.new }
        ensures room { HasRoom strips.new }
        ensures reads { OnlyReads (I.seen images.old) (I.seen images.new)
            (strips.old.many * rests_of strips.old.head strips.old.limit at count strips.old.head.layout.copies) }
        ensures cause { HasCause (I.seen images.old).faults (I.seen images.new).faults result }
    {
        strips.read_lanes(images, at, sector, count)?;
        add_lanes(&mut self.counts, strips, at, sector, count);
        Ok(())
    }

    /// How many sectors of a mirror are torn where its slots begin so, over each two of their copies: of slots that are not there, or
    /// that are empty, nothing is.
    pub fn torn(&self, head: &NearHead, slots: &[Option<u8>]) -> u128
        requires head { IsTrue (is_valid_near head.now) }
        requires images { AllImages MOST slots.now }
        ensures { result ≡ table_torn self.now head.now slots.now }
    {
        let mut torn = 0u128;
        for second in 0..head.layout.copies {
            torn += self.copy_torn(head, slots, second);
        }
        torn
    }

    /// How many of those are between a copy and the ones before it.
    fn copy_torn(&self, head: &NearHead, slots: &[Option<u8>], second: u8) -> u128
        requires head { IsTrue (is_valid_near head.now) }
        requires second { second < head.now.layout.copies }
        requires images { AllImages MOST slots.now }
        ensures value { result ≡ copy_torn_of self.now head.now slots.now second }
        ensures few { result ≤ 96 * 2 ^ 64 }
    {
        let mut torn = 0u128;
        for first in 0..second {
            torn += self.pairs_torn(head, slots, first, second);
        }
        torn
    }

    /// How many are between two copies.
    fn pairs_torn(&self, head: &NearHead, slots: &[Option<u8>], first: u8, second: u8) -> u128
        requires head { IsTrue (is_valid_near head.now) }
        requires first { first < second }
        requires second { second < head.now.layout.copies }
        requires images { AllImages MOST slots.now }
        ensures value { result ≡ pairs_torn_of self.now head.now slots.now second first }
        ensures few { result ≤ 24 * 2 ^ 64 }
    {
        let mut torn = 0u128;
        for chunk in 0..head.members {
            torn += u128::from(self.pair_torn(head, slots, first, second, chunk));
        }
        torn
    }

    /// How many are between two copies of a chunk of each group.
    fn pair_torn(
        &self,
        head: &NearHead,
        slots: &[Option<u8>],
        first: u8,
        second: u8,
        chunk: u8,
    ) -> u64
        requires head { IsTrue (is_valid_near head.now) }
        requires first { first < second }
        requires second { second < head.now.layout.copies }
        requires chunk { chunk < head.now.members }
        requires images { AllImages MOST slots.now }
        ensures { result ≡ pair_torn_of self.now head.now slots.now first second chunk }
    {
        let (lane, next) = (lane_of(head, first, chunk), lane_of(head, second, chunk));
        let counts = &self.counts[LANES * lane + next];
        let (one, other) = (
            held(slots, usize::from(head.slot(first, u64::from(chunk)))),
            held(slots, usize::from(head.slot(second, u64::from(chunk)))),
        );
        match (one, other) {
            (Some(one), Some(other)) => counts[one as usize][other as usize],
            _ => 0,
        }
    }
}

/// The lane of a copy of the chunk that is this number of its group.
fn lane_of(head: &NearHead, copy: u8, chunk: u8) -> usize
    requires head { IsTrue (is_valid_near head.now) }
    requires copy { copy < head.now.layout.copies }
    requires chunk { chunk < head.now.members }
    ensures lane { result ≡ copy_lane head.now copy chunk }
    ensures few { result < head.now.layout.copies }
{
    let copies = usize::from(head.layout.copies);
    match head.layout.copying {
        Copying::Near => {
            (copies * usize::from(chunk) + usize::from(copy)) / usize::from(head.members)
        }
        Copying::Far => usize::from(copy),
        Copying::Offset => usize::from(copy),
    }
}

/// What a slot holds, of the first slots of a list.
fn held(slots: &[Option<u8>], slot: usize) -> Option<u8>
    ensures { result ≡ slice_index_or slots.now slot None }
{
    if slot < slots.len() {
        slots[slot]
    } else {
        None
    }
}
