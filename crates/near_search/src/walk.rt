//! The walk over all parameter sets, head after head.
ghost use Rattle.std.specs.Prelude.{◌≡◌, ◌+◌, ◌-◌, ◌<◌, ◌≤◌, ◌^◌, All, Some, length, map, slice_get};
ghost use Rattle.outside.specs.Attached.{told_all};
ghost use Rattle.raid_params.specs.declared.limits.TheConstants.{MOST};
ghost use Rattle.near_search.specs.Asks.{IsNearAsk};
ghost use Rattle.near_search.specs.Costs.{walk_fails, walk_join, walk_none};
ghost use Rattle.near_search.specs.Pages.{CanNear, SameNear, StandsNear};
ghost use Rattle.near_search.specs.Product.{near_numbered, near_total};
ghost use Rattle.near_search.specs.Walk.{FailsNear, HoldsNear, ReadsNear, count_at, first_at, passes_told};

use crate::ask::NearAsk;
use crate::gathering::gather_head;
use crate::heads::NearSets;
use crate::parts::NearLines;
use near_tables::TableFault;
use outside::Images;
use page_loop::{PageWalk, Part};
use std::alloc::Global;

/// A walk over the parameter sets of what is asked, in the order of their ranks. It gathers whole heads: the ranks of one that are
/// cut off by the end of a range wait until the page is made whole, so that no image is read twice for a head.
#[derive(Drop)]
pub(crate) struct NearWalk<'a> {
    /// That which gives memory.
    pub(crate) alloc: Global,
    /// What is asked.
    pub(crate) ask: &'a NearAsk,
    /// How many images are attached.
    pub(crate) many: u8,
    /// How many parameter sets there are.
    pub(crate) total: u64,
    /// The most lines of a page.
    pub(crate) size: u64,
    /// The place of a head among all, no later than the one with the rank `tested`.
    pub(crate) place: usize,
    /// The rank of the first set of the head there.
    pub(crate) first: u64,
    /// The rank before which all sets are gathered.
    pub(crate) tested: u64,
    /// The rank to which the page has come.
    pub(crate) at: u64,
}

/// The first head from a place on whose ranks go past this one, with its place.
fn seek(ask: &NearAsk, many: u8, place: usize, first: u64, rank: u64) -> (usize, NearSets)
    requires ask { IsNearAsk ask.now }
    requires many { many ≤ MOST }
    requires first { first ≡ first_at many ask.now place }
    requires low { first ≤ rank }
    requires few { near_total many ask.now < 2 ^ 64 }
    requires rank { rank < near_total many ask.now }
    ensures sets { slice_get (near_numbered many ask.now) result.0 ≡ Some result.1 }
    ensures low { result.1.first ≤ rank }
    ensures high { rank < result.1.first + result.1.count }
    ensures stays { rank < first + count_at many ask.now place → result.0 ≡ place }
{
    let mut start = first;
    for at in place..ask.head_count() {
        let count = ask.count_at(many, at) as u64;
        if rank < start + count {
            let head = ask.head_at(at);
            let space = ask.space(many, &head);
            let sets = NearSets {
                head,
                space,
                first: start,
                count,
            };
            return (at, sets);
        }
        start += count;
    }
    unreachable!()
}

impl<'a> PageWalk for NearWalk<'a> {
    type Page = NearLines;

    type Fault = TableFault;

    ghost total_of = { λ w. w.total };

    ghost size_of = { λ w. w.size };

    ghost passes = { λ w seen. passes_told (told_all seen.attached) w.many w.ask.now };

    ghost can_page = { λ w seen. CanNear w seen };

    ghost ranks_of = { λ w page. map (λ line. line.rank) page };

    ghost tested = { λ w page. w.tested };

    ghost holds = { λ w page. All (HoldsNear w.many w.ask.now) page };

    ghost stands = { λ w seen page rank. StandsNear w seen page rank };

    ghost reads = { λ u old from v new to whole. SameNear u v × ReadsNear u.many u.ask.now from to whole old new };

    ghost fails = { λ u old from v new stop fault. SameNear u v × FailsNear u.many u.ask.now from stop old new fault };

    ghost parts_left = { λ w. w.total - w.at };

    ghost tested_before = { λ w seen page rank stands. stands.tested };

    ghost reads_none = { walk_none };

    ghost reads_join = { walk_join };

    ghost fails_on = { walk_fails };

    fn total(&self) -> u64 {
        self.total
    }

    fn begin<I: Images>(&mut self, _: &I, from: u64) -> NearLines {
        self.place = 0;
        self.first = 0;
        self.tested = from;
        self.at = from;
        NearLines::new(self.alloc)
    }

    fn gather_part<I: Images>(
        &mut self,
        images: &mut I,
        at: u64,
        stop: u64,
        page: &mut NearLines,
    ) -> Result<Part, TableFault> {
        let (place, sets) = seek(self.ask, self.many, self.place, self.first, self.tested);
        let end = sets.first + sets.count;
        let tested = self.tested;
        self.place = place;
        self.first = sets.first;
        if stop < end {
            self.at = stop;
            return Ok(Part::UpTo(stop));
        }
        self.at = end;
        self.tested = end;
        let full = gather_head(
            self.alloc, images, self.many, self.ask, &sets, tested, end, self.size, page,
        )?;
        match full {
            Some(next) => Ok(Part::Full(next)),
            None => Ok(Part::UpTo(end)),
        }
    }

    fn finish<I: Images>(
        &mut self,
        images: &mut I,
        stop: u64,
        page: &mut NearLines,
    ) -> Result<u64, TableFault> {
        if self.tested == stop {
            return Ok(stop);
        }
        let (_, sets) = seek(self.ask, self.many, self.place, self.first, self.tested);
        let full = gather_head(
            self.alloc,
            images,
            self.many,
            self.ask,
            &sets,
            self.tested,
            stop,
            self.size,
            page,
        )?;
        match full {
            Some(next) => Ok(next),
            None => Ok(stop),
        }
    }
}
