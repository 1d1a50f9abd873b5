//! Which sectors of a member the data are found by, and how far that goes on.
ghost use Rattle.std.specs.Prelude.{ℕ, ◌≡◌, ◌≢◌, ◌/◌, ◌<◌, ◌≤◌, length};
ghost use Rattle.std.specs.List.{list_all};
ghost use Rattle.std.specs.Option.{is_some};
ghost use Rattle.pq_parity.specs.Needs.{is_p_lost as is_p_lost_of, lost_data as lost_data_of};
ghost use Rattle.raid_terms.specs.Cells.{row_cells};
ghost use Rattle.member_regions.specs.Members.{IsTestable};
ghost use Rattle.lost_members.specs.Needs.{is_needed as is_needed_of};

use raid_layouts::{p_slot, q_slot};
use raid_params::Geometry;

/// Whether each slot holds an image.
pub(crate) fn is_full(geo: &Geometry) -> bool
    ensures { result ≡ list_all is_some geo.now.slots.items }
{
    geo.slots.iter().all(|held| held.is_some())
}

/// How many data blocks of a row are lost.
#[tactic(auto, using(member_regions::proofs::Sets::testable_head, member_regions::proofs::Sets::testable_slots))]
fn lost_data(geo: &Geometry, row: u64) -> usize
    requires set { IsTestable geo.now }
    ensures { result ≡ lost_data_of (row_cells geo.now row) }
{
    let p = p_slot(&geo.head, row);
    let q = q_slot(&geo.head, row);
    let mut lost = 0;
    for (slot, held) in geo.slots.iter().enumerate() {
        let place = Some(slot as u8);
        if held.is_none() && p != place && q != place {
            lost += 1;
        }
    }
    lost
}

/// Whether the P of a row is lost.
#[tactic(auto, using(member_regions::proofs::Sets::testable_head, member_regions::proofs::Sets::testable_slots))]
fn is_p_lost(geo: &Geometry, row: u64) -> bool
    requires set { IsTestable geo.now }
    ensures { result ≡ is_p_lost_of (row_cells geo.now row) }
{
    match p_slot(&geo.head, row) {
        Some(p) => geo.slots[p as usize].is_none(),
        None => false,
    }
}

/// Whether a member sector of a slot is there and needed.
#[tactic(auto, using(member_regions::proofs::Sets::testable_head, member_regions::proofs::Sets::testable_slots, member_regions::proofs::Sets::testable_chunk))]
pub(crate) fn is_needed(geo: &Geometry, slot: usize, sector: u64) -> bool
    requires set { IsTestable geo.now }
    requires slot { slot < length geo.now.slots.items }
    ensures { result ≡ is_needed_of geo.now slot sector }
{
    let row = sector / geo.head.chunk;
    let place = Some(slot as u8);
    if geo.slots[slot].is_none() {
        false
    } else if p_slot(&geo.head, row) == place {
        lost_data(geo, row) >= 1
    } else if q_slot(&geo.head, row) == place {
        let lost = lost_data(geo, row);
        lost >= 2 || lost >= 1 && is_p_lost(geo, row)
    } else {
        true
    }
}

/// The member sector at which the chunk row of a member sector ends, or `end` where that comes first.
#[tactic(auto, using(member_regions::proofs::Sets::testable_head, member_regions::proofs::Sets::testable_slots, member_regions::proofs::Sets::testable_chunk))]
pub(crate) fn row_end(geo: &Geometry, sector: u64, end: u64) -> u64
    requires set { IsTestable geo.now }
    requires some { sector < end }
    ensures goes_on { sector < result }
    ensures end { result ≤ end }
    ensures row { (t : ℕ) → sector ≤ t → t < result → t / geo.now.head.chunk ≡ sector / geo.now.head.chunk }
{
    let left = geo.head.chunk - sector % geo.head.chunk;
    sector + left.min(end - sector)
}

/// Where the run of a member sector ends, at most at `end`: from it on all sectors before are needed, or
/// none is.
pub(crate) fn run_end(geo: &Geometry, slot: usize, sector: u64, end: u64) -> u64
    requires set { IsTestable geo.now }
    requires slot { slot < length geo.now.slots.items }
    requires some { sector < end }
    ensures goes_on { sector < result }
    ensures end { result ≤ end }
    ensures alike { (t : ℕ) → sector ≤ t → t < result → is_needed_of geo.now slot t ≡ is_needed_of geo.now slot sector }

    // It is the whole run: the next sector is not of it.
    ensures whole { result < end → is_needed_of geo.now slot result ≢ is_needed_of geo.now slot sector }
{
    let needed = is_needed(geo, slot, sector);
    let mut at = row_end(geo, sector, end);
    while at < end && is_needed(geo, slot, at) == needed {
        at = row_end(geo, at, end);
    }
    at
}
