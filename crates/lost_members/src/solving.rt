//! What lost members held.
ghost use Rattle.std.specs.Prelude.{ℕ, List, ◌≡◌, ◌+◌, ◌*◌, ◌^◌, ◌<◌, ◌≤◌, None, length, not, slice_index_or};
ghost use Rattle.raid_terms.specs.Parity.{is_data};
ghost use Rattle.member_regions.specs.Members.{HoldBytes, IsTestable};
ghost use Rattle.lost_members.specs.Needs.{HoldData, HoldNeeded};
ghost use Rattle.member_regions.specs.Regions.{HoldSlot};

use crate::needs::{is_full, row_end};
use pq_parity::{solve_data, solve_parity};
use raid_layouts::row_cells;
use raid_params::{Cell, Geometry, Part};

/// Finds the lost data among the `count` sectors of each missing member, from member sector `first` on,
/// and writes them into its region. The regions of the others hold what these are found by. A region
/// has `stride` bytes.
#[tactic(auto, using(member_regions::proofs::Sets::testable_head, member_regions::proofs::Sets::testable_slots, member_regions::proofs::Sets::testable_chunk, member_regions::proofs::Sets::testable_row, member_regions::proofs::Sets::row_length))]
pub(crate) fn find_data(geo: &Geometry, sectors: &mut [u8], stride: usize, first: u64, count: usize)
    requires set { IsTestable geo.now }
    requires sectors { stride * length geo.now.slots.items ≤ length sectors.old }
    requires fits { 512 * count ≤ stride }
    requires first { first + count < 2 ^ 55 }
    ensures { (bytes : List (List ℕ)) → HoldNeeded bytes geo.now stride first count sectors.old →
        HoldData bytes geo.now stride first count sectors.new }
{
    if is_full(geo) {
        return;
    }
    let end = first + count as u64;
    let mut at = first;
    while at < end {
        let next = row_end(geo, at, end);
        let cells = row_cells(geo, at / geo.head.chunk);
        solve_data(
            &cells,
            sectors,
            stride,
            (at - first) as usize,
            (next - at) as usize,
        );
        at = next;
    }
}

/// Finds the lost parity among the `count` sectors of the missing member of a slot, from member sector `first`
/// on, and writes it into the slot's region. The regions of all members hold their data, read or found. A
/// region has `stride` bytes.
#[tactic(auto, using(member_regions::proofs::Sets::testable_head, member_regions::proofs::Sets::testable_slots, member_regions::proofs::Sets::testable_chunk, member_regions::proofs::Sets::testable_row, member_regions::proofs::Sets::row_length))]
pub(crate) fn find_parity(
    geo: &Geometry,
    slot: usize,
    sectors: &mut [u8],
    stride: usize,
    first: u64,
    count: usize,
)
    requires set { IsTestable geo.now }
    requires slot { slot < length geo.now.slots.items }
    requires missing { slice_index_or geo.now.slots.items slot None ≡ None }
    requires sectors { stride * length geo.now.slots.items ≤ length sectors.old }
    requires fits { 512 * count ≤ stride }
    requires first { first + count < 2 ^ 55 }
    ensures { (bytes : List (List ℕ)) → HoldBytes bytes → HoldData bytes geo.now stride first count sectors.old →
        HoldSlot bytes geo.now stride first count slot sectors.new }
{
    let end = first + count as u64;
    let mut at = first;
    while at < end {
        let next = row_end(geo, at, end);
        let cells = row_cells(geo, at / geo.head.chunk);
        if is_parity(cells[slot]) {
            solve_parity(
                &cells,
                slot,
                sectors,
                stride,
                (at - first) as usize,
                (next - at) as usize,
            );
        }
        at = next;
    }
}

/// Whether a cell holds parity.
fn is_parity(cell: Cell) -> bool
    ensures { result ≡ not (is_data cell.part) }
{
    !matches!(cell.part, Part::Block(_))
}
