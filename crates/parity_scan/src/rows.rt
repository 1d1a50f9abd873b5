//! The rows of regions.
ghost use Rattle.std.specs.Prelude.{◌≡◌, ◌+◌, ◌^◌, ◌<◌, ◌≤◌, length};
ghost use Rattle.member_regions.specs.Members.{IsTestable};
ghost use Rattle.member_regions.specs.Regions.{IsRoomFor};
ghost use Rattle.parity_scan.specs.Block.{unsound_in};

use member_regions::{BLOCK, Regions, turn_to};
use raid_layouts::row_cells;
use raid_params::Geometry;

/// How many of the first `count` rows of the regions are unsound. The regions begin at member sector `first`.
#[tactic(auto, using(member_regions::proofs::Sets::testable_head, member_regions::proofs::Sets::testable_slots, member_regions::proofs::Sets::testable_chunk, member_regions::proofs::Sets::testable_row, member_regions::proofs::Sets::row_length))]
pub fn unsound_of(geo: &Geometry, regions: &Regions, first: u64, count: usize) -> u64
    requires set { IsTestable geo.now }
    requires room { IsRoomFor (length geo.now.slots.items) count regions.now }
    requires first { first < 2 ^ 55 }
    requires count { count ≤ BLOCK }
    ensures count { result ≡ unsound_in geo.now regions.now first count }
    ensures few { result ≤ count }
{
    let mut at = first / geo.head.chunk;
    let mut cells = row_cells(geo, at);
    let mut sum = 0;
    for j in 0..count {
        let chunk_row = (first + j as u64) / geo.head.chunk;
        turn_to(geo, &mut cells, at, chunk_row);
        at = chunk_row;
        if !regions.is_sound(&cells, j) {
            sum += 1;
        }
    }
    sum
}
