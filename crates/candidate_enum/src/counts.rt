//! How many lists go on from a prefix, in a table.
ghost use Rattle.std.specs.Prelude.{ℕ, ◌≡◌, ◌≤◌, ◌+◌, ◌*◌, ◌^◌, length};
ghost use Rattle.slot_math.specs.Ways.{ways};
ghost use Rattle.candidate_enum.specs.Counts.{AreCells, IsCell, IsTable};

use raid_params::MOST;
use slot_math::Space;

/// How many numbers of empty places a row of a table has room for.
pub const ROW: usize = MOST + 1;

/// How many cells a table has.
pub const CELLS: usize = ROW * ROW;

/// Of a space: how many lists go on from a prefix, by how many places are to come and how many are empty so far. A row is for
/// so many places to come.
pub type Counts = [u128; CELLS];

/// One way where from `low` to `high` places are empty, and none elsewhere.
#[tactic(auto, using(slot_math::proofs::Bound::ways_zero))]
fn last_way(space: &Space, empty: usize) -> u128
    ensures { (u : ℕ) → result ≡ ways space.now.low space.now.high u 0 empty }
{
    let fits = space.low as usize <= empty && empty <= space.high as usize;
    if fits { 1 } else { 0 }
}

/// The ways with an unused image next, and those with an empty place next.
#[tactic(auto, using(slot_math::proofs::Bound::small_product))]
fn more_ways(unused: usize, image: u128, empty: u128) -> u128
    requires unused { unused ≤ MOST }
    requires image { image ≤ (MOST + 1) ^ MOST }
    requires empty { empty ≤ (MOST + 1) ^ MOST }
    ensures { result ≡ unused * image + empty }
{
    unused as u128 * image + empty
}

/// The cell after these.
fn next_cell(space: &Space, cells: &[u128]) -> u128
    requires images { space.now.images ≤ MOST }
    requires members { space.now.members ≤ MOST }
    requires cells { AreCells space.now cells.now }
    ensures { IsCell space.now (length cells.now) result }
{
    let at = cells.len();
    let left = at / ROW;
    let empty = at % ROW;
    if left + empty > space.members as usize {
        return 0;
    }
    if left == 0 {
        return last_way(space, empty);
    }
    let unused = (space.images as usize + empty + left).saturating_sub(space.members as usize);
    more_ways(unused, cells[at - ROW], cells[at - ROW + 1])
}

/// The table of a space.
pub(crate) fn counts_of(space: &Space) -> Counts
    requires images { space.now.images ≤ MOST }
    requires members { space.now.members ≤ MOST }
    ensures { IsTable space.now result }
{
    let mut counts = [0; CELLS];
    for at in 0..(space.members as usize + 1) * ROW {
        let cell = next_cell(space, &counts[..at]);
        counts[at] = cell;
    }
    counts
}
