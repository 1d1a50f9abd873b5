//! Runs of image sectors, and which of them a scan reads next.
ghost use Rattle.std.specs.Prelude.{◌≡◌, ◌⊎◌, length, All, MatchOption, None};
ghost use Rattle.std.specs.List.{list_any};
ghost use Rattle.parity_scan.specs.Tallies.{is_open, NoneOpen};
ghost use Rattle.parity_scan.specs.Pass.{IsOwnRun, IsNextRun, IsNotLater, NothingLeft, IsScanned};

use crate::image_rows::rows_of;
use crate::scan_parts::Scanned;
use crate::tally::Tally;
use member_regions::BLOCK;
use raid_params::Geometry;
use search_scope::Scope;

/// Some image sectors, one after the other.
#[derive(Clone, Copy)]
pub struct Run {
    /// The first of the sectors.
    pub first: u64,
    /// How many sectors there are.
    pub count: u64,
}

impl Run {
    /// The run of no sectors.
    pub fn empty() -> Run
        ensures { result ≡ record { first = 0; count = 0 } }
    {
        Run { first: 0, count: 0 }
    }
}

/// The first image sectors from `at` on that an open set has tested rows in, at most a block, all of them tested
/// rows of one set. None where no open set has any left.
pub fn next_run(scanned: &Scanned, tallies: &[Tally], at: u64) -> Option<Run>
    requires sets { All (IsScanned scanned.now.scope.now) scanned.now.sets.now }
    requires long { length tallies.now ≡ length scanned.now.sets.now }
    ensures next { MatchOption result
        (NothingLeft scanned.now.scope.now scanned.now.sets.now tallies.now (length scanned.now.sets.now) at)
        (IsNextRun scanned.now.scope.now scanned.now.sets.now tallies.now (length scanned.now.sets.now) at) }
    ensures closed { NoneOpen tallies.now → result ≡ None }
{
    if !are_open(tallies) {
        return None;
    }
    let mut next = None;
    for k in 0..scanned.sets.len() {
        next = earlier(
            next,
            own_run(scanned.scope, &scanned.sets[k], tallies[k], at),
        );
    }
    next
}

/// Whether some tally is open.
pub fn are_open(tallies: &[Tally]) -> bool
    ensures { result ≡ list_any is_open tallies.now }
{
    tallies.iter().any(|tally| tally.is_open())
}

/// The run of two that begins earlier, the first where both begin at the same sector.
fn earlier(one: Option<Run>, other: Option<Run>) -> Option<Run>
    ensures either { (result ≡ one) ⊎ (result ≡ other) }
    ensures one { IsNotLater result one }
    ensures other { IsNotLater result other }
{
    match (one, other) {
        (Some(a), Some(b)) if b.first < a.first => other,
        (None, _) => other,
        _ => one,
    }
}

/// The first image sectors from `at` on that are tested rows of a set, at most a block. None where its tally is not
/// open, or no rows are left.
fn own_run(scope: &Scope, geo: &Geometry, tally: Tally, at: u64) -> Option<Run>
    requires set { IsScanned scope.now geo.now }
    ensures { IsOwnRun scope.now geo.now tally at result }
{
    let first = at.max(geo.head.offset);
    let stop = geo.head.offset + rows_of(scope, geo);
    if !tally.is_open() || stop <= first {
        return None;
    }
    let count = (stop - first).min(BLOCK as u64);
    Some(Run { first, count })
}
