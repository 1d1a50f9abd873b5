//! The sectors of images that a table is built over, and their reading.
ghost use Rattle.std.specs.Prelude.{ℕ, ◌≡◌, ◌+◌, ◌-◌, ◌*◌, ◌/◌, ◌%◌, ◌<◌, ◌≤◌, ◌^◌, IfSome, IsTrue, OnOk, min};
ghost use Rattle.outside.specs.Attached.{told_all};
ghost use Rattle.outside.specs.Causes.{HasCause};
ghost use Rattle.outside.specs.Seen.{OnlyReads};
ghost use Rattle.member_regions.specs.declared.regions.TheConstants.{BLOCK};
ghost use Rattle.near_mirror.specs.Heads.{is_valid_near};
ghost use Rattle.near_tables.specs.Reading.{HasRoom, HoldsLane, KeepsStrips, MayRead, ReachesTo, rest_of, rests_of};
ghost use Rattle.near_tables.specs.Tables.{group_rows as group_rows_of, lane_depth, lane_row as lane_row_of};
ghost use Rattle.near_tables.specs.Torn.{part_start as part_start_of};

use crate::tested::part_rows;
use crate::torn_strips::read_strip;
use member_regions::{BLOCK, Regions};
use near_mirror::{CopyLayout, Copying, NearHead};
use outside::{Failed, Images};

/// What a table is built over, and with.
#[derive(Drop)]
pub(crate) struct Strips {
    /// How many images there are.
    pub(crate) many: usize,
    /// The mirror.
    pub(crate) head: NearHead,
    /// The image sector before which the members' whole rows end.
    pub(crate) end: u64,
    /// The sector of a part before which those lie that are tested.
    pub(crate) limit: u64,
    /// Of each lane, sectors of the images.
    pub(crate) lanes: Vec<Regions>,
}

/// How many rows of a part the chunks of a group take up.
fn group_rows(layout: &CopyLayout) -> u64
    ensures { result ≡ group_rows_of layout.now.copying layout.now.copies }
{
    match layout.copying {
        Copying::Near => u64::from(layout.copies),
        Copying::Far => 1,
        Copying::Offset => u64::from(layout.copies),
    }
}

/// Which of the rows of a group a lane is.
fn lane_row(copying: Copying, lane: u8) -> u64
    ensures { result ≡ lane_row_of copying lane }
{
    match copying {
        Copying::Near => u64::from(lane),
        Copying::Far => 0,
        Copying::Offset => u64::from(lane),
    }
}

impl Strips {
    /// The member sector that is number `at` among those of the first lane.
    #[tactic(auto, using(near_mirror::proofs::Chunks::valid_chunk, crate::proofs::Strips::first_depth))]
    pub(crate) fn sector_at(&self, at: u64) -> u64
        requires head { IsTrue (is_valid_near self.now.head) }
        requires at { at < 2 ^ 56 }
        ensures { result ≡ lane_depth self.now.head 0 at }
    {
        let chunk = self.head.chunk;
        let rows = group_rows(&self.head.layout);
        rows * (at / chunk) * chunk + at % chunk
    }

    /// How many sectors from there on are read at once: no more than to the end of the row, nor than a region holds.
    pub(crate) fn count_at(&self, at: u64, sector: u64) -> usize
        requires head { IsTrue (is_valid_near self.now.head) }
        requires below { sector < self.now.limit }
        ensures some { 1 ≤ result }
        ensures row { at % self.now.head.chunk + result ≤ self.now.head.chunk }
        ensures fits { result ≤ BLOCK }
        ensures within { sector + result ≤ self.now.limit }
    {
        let chunk = self.head.chunk;
        (chunk - at % chunk)
            .min(BLOCK as u64)
            .min(self.limit - sector) as usize
    }

    /// Where sector `sector` of the first lane is in another one, in its part.
    #[tactic(auto, using(near_mirror::proofs::Chunks::short_chunk, crate::proofs::Strips::lane_after))]
    fn depth_in(&self, lane: u8, at: u64, sector: u64) -> u64
        requires head { IsTrue (is_valid_near self.now.head) }
        requires lane { lane < 4 }
        requires sector { sector ≡ lane_depth self.now.head 0 at }
        requires near { sector < 2 ^ 55 }
        ensures depth { result ≡ lane_depth self.now.head lane at }
        ensures near { result < 2 ^ 56 }
    {
        sector + lane_row(self.head.layout.copying, lane) * self.head.chunk
    }

    /// The image sector at which the part of a lane begins.
    fn part_start(&self, lane: u8) -> u64
        requires head { IsTrue (is_valid_near self.now.head) }
        requires lane { lane < self.now.head.layout.copies }
        requires near { ReachesTo self.now.head self.now.end self.now.limit (2 ^ 55 - 1) }
        ensures { result ≡ self.now.head.offset + part_start_of self.now.head self.now.end lane }
    {
        self.head.offset + u64::from(lane) * (part_rows(&self.head, self.end) * self.head.chunk)
    }

    /// How many of `count` sectors of a lane from number `at` on are tested, which is this sector of the first lane.
    pub(crate) fn rest_at(&self, lane: u8, at: u64, sector: u64, count: usize) -> usize
        requires head { IsTrue (is_valid_near self.now.head) }
        requires lane { lane < 4 }
        requires sector { sector ≡ lane_depth self.now.head 0 at }
        requires near { sector < 2 ^ 55 }
        ensures { result ≡ rest_of self.now.head self.now.limit at count lane }
    {
        let depth = self.depth_in(lane, at, sector);
        self.limit.saturating_sub(depth).min(count as u64) as usize
    }

    /// Reads of each lane those that are tested of `count` sectors from number `at` on, which is this sector of the first lane.
    pub(crate) fn read_lanes<I: Images>(
        &mut self,
        images: &mut I,
        at: u64,
        sector: u64,
        count: usize,
    ) -> Result<(), Failed>
        requires over { MayRead (I.seen images.old).attached self.old }
        requires room { HasRoom self.old }
        requires sector { sector ≡ lane_depth self.old.head 0 at }
        requires fits { count ≤ BLOCK }
        requires within { sector + count ≤ self.old.limit }
        ensures told { OnOk result (IfSome (told_all (I.seen images.old).attached) (λ bytes.
            (lane : ℕ) → lane < self.old.head.layout.copies → HoldsLane bytes self.old.many self.old.head self.old.end self.old.limit at count self.new.lanes.items lane)) }
        ensures keeps { KeepsStrips self.old self.new }
        ensures room { HasRoom self.new }
        ensures reads { OnlyReads (I.seen images.old) (I.seen images.new)
            (self.old.many * rests_of self.old.head self.old.limit at count self.old.head.layout.copies) }
        ensures cause { HasCause (I.seen images.old).faults (I.seen images.new).faults result }
    {
        let many = self.many;
        for lane in 0..self.head.layout.copies {
            let rest = self.rest_at(lane, at, sector, count);
            let from = self.part_start(lane) + self.depth_in(lane, at, sector);
            read_strip(images, &mut self.lanes[usize::from(lane)], many, from, rest)?;
        }
        Ok(())
    }
}
