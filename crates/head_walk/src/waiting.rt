//! The sets of a page that wait for the parity test.
ghost use Rattle.std.specs.Prelude.{◌≡◌, ◌==◌, ◌+◌, ◌++◌, ◌∷◌, [], ◌≤◌, ◌<◌, ◌^◌, ◌⊎◌, if◌then◌else◌, length, OnOk};
ghost use Rattle.parity_scan.specs.Tallies.{is_open as is_open_tally};
ghost use Rattle.head_walk.specs.Walk.{AreWaiting, first_tally as first_tally_of};

use outside::{ListOf, Memory};
use prune_filters::rows_decide;
use raid_params::Geometry;
use row_scan::{Tally, nothing_can_break};
use search_plan::Plan;
use std::alloc::Global;

/// Parameter sets that wait for the parity test, by rank.
#[derive(Drop)]
pub struct Waiting {
    /// Their ranks.
    pub ranks: ListOf<u64>,
    /// The sets.
    pub sets: ListOf<Geometry>,
    /// How the test of each begins.
    pub tallies: Vec<Tally>,
    /// How many of them are known to pass, before the first of which rows have to be tested.
    pub known: usize,
}

impl Waiting {
    /// None.
    pub fn none(alloc: Global) -> Waiting
        ensures ranks { result.ranks ≡ [] }
        ensures sets { result.sets ≡ [] }
        ensures tallies { result.tallies.items ≡ [] }
        ensures known { result.known ≡ 0 }
    {
        Waiting {
            ranks: ListOf::new(alloc),
            sets: ListOf::new(alloc),
            tallies: Vec::new(alloc),
            known: 0,
        }
    }

    /// Lets one more wait, of a rank after those of the others.
    pub fn push(&mut self, plan: &Plan, rank: u64, geo: Geometry) -> Result<(), Memory>
        requires are { AreWaiting plan.now self.old }
        requires room { length self.old.sets < 4096 }
        ensures are { OnOk result (AreWaiting plan.now self.new) }
        ensures ranks { OnOk result (self.new.ranks ≡ self.old.ranks ++ rank ∷ []) }
        ensures sets { OnOk result (self.new.sets ≡ self.old.sets ++ geo ∷ []) }
        ensures more { OnOk result (self.new.known ≤ self.old.known + 1) }
        ensures known { OnOk result ((self.new.known ≡ self.old.known) ⊎ (self.new.known ≡ length self.new.sets)) }
    {
        let tally = first_tally(plan, &geo);
        let known = with_one(self.known, self.tallies.len(), tally);
        self.ranks.push(rank)?;
        self.sets.push(geo)?;
        self.tallies.push(tally).map_err(|_| Memory)?;
        self.known = known;
        Ok(())
    }
}

/// How many of some sets are known to pass before the first other, where of the `count` before the last one `known` are, and the
/// last one's test begins so.
fn with_one(known: usize, count: usize, last: Tally) -> usize
    requires { known < 4096 }
    ensures { result ≡ (if known == count then (if is_open_tally last then known else known + 1) else known) }
{
    if known == count && !last.is_open() {
        return known + 1;
    }
    known
}

/// The tally with which the test of a set begins: it passes where nothing can break one of its rows, or the tables of rows
/// decide.
fn first_tally(plan: &Plan, geo: &Geometry) -> Tally
    ensures { result ≡ first_tally_of plan.now geo.now }
{
    if nothing_can_break(geo) || rows_decide(plan, &geo.head) {
        return Tally::Passes;
    }
    Tally::Left(plan.limits.badrows)
}
