//! The standings of the images of a row, one after the other, by elimination.
ghost use Rattle.std.specs.Prelude.{ℕ, ◌≡◌, ◌+◌, ◌*◌, ◌<◌, ◌≤◌, List, All, length, slice_index, take};
ghost use Rattle.row_relations.specs.declared.combination.Combination.{Combination as CombinationOf};
ghost use Rattle.row_relations.specs.declared.standing.TheConstants.{MOST_IMAGES as MOST};
ghost use Rattle.row_relations.specs.Rows.{AreBytes};
ghost use Rattle.row_relations.specs.Stages.{with_image, AreCleared, IsKept, IsRest, IsStage, VanishAt};
ghost use Rattle.row_relations.specs.Tables.{Table, IsTable};

use crate::combination::{Combination, zero_weights};
use crate::standing::{MOST_IMAGES, Standing};
use lane_kernels::first_nonzero;

/// How an image stands, and what is kept behind it.
#[derive(Drop)]
struct Placed {
    standing: Standing,
    weights: [u8; MOST_IMAGES],
    /// How many combinations are kept.
    rank: usize,
}

/// Adds multiples of what is kept, so that the sum is 0 in all their pivots.
fn reduce(kept: &[Combination], rest: &mut Combination)
    requires { All (λ (x : CombinationOf). x.pivot < 512) kept.now }
    ensures long { length rest.new.sector ≡ 512 }
    ensures rest { (sectors : List ℕ) (table : Table) (n : ℕ) → AreBytes sectors → n ≤ MOST → All (IsKept sectors table n) kept.now →
        IsRest sectors table n rest.old → IsRest sectors table n rest.new }
    ensures vanish { All (λ (x : CombinationOf). slice_index x.sector x.pivot ≡ 1) kept.now → AreCleared kept.now →
        VanishAt kept.now (slice_index rest.new.sector) }
{
    for part in kept {
        let factor = rest.sector[part.pivot];
        if factor != 0 {
            rest.add(part, factor);
        }
    }
}

/// Finds how the next image stands. The first `rank` combinations are kept of those before it.
fn place(kept: &mut [Combination], rank: usize, sectors: &[u8], image: usize) -> Placed
    requires image { image < MOST }
    requires sectors { 512 * image + 512 ≤ length sectors.now }
    requires rank { rank < length kept.old }
    requires pivots { All (λ (x : CombinationOf). x.pivot < 512) (take rank kept.old) }
    ensures long { length kept.new ≡ length kept.old }
    ensures rank { result.rank ≤ rank + 1 }
    ensures pivots { All (λ (x : CombinationOf). x.pivot < 512) (take result.rank kept.new) }
    ensures stage { (table : Table) → image < length table.standings → image < length table.weights → IsStage sectors.now table image (take rank kept.old) →
        IsStage sectors.now (with_image table image result.standing result.weights) (image + 1) (take result.rank kept.new) }
{
    let mut rest = Combination::of_image(sectors, image);
    if first_nonzero(&rest.sector).is_none() {
        let weights = zero_weights();
        return Placed {
            standing: Standing::Zero,
            weights,
            rank,
        };
    }
    reduce(&kept[..rank], &mut rest);
    let Some(pivot) = first_nonzero(&rest.sector) else {
        let weights = rest.weights;
        return Placed {
            standing: Standing::Dependent,
            weights,
            rank,
        };
    };
    rest.normalize(image, pivot);
    kept[rank] = rest;
    let weights = zero_weights();
    Placed {
        standing: Standing::Independent,
        weights,
        rank: rank + 1,
    }
}

/// Fills in the table of a row. The room of `kept` is used, whatever it holds.
pub(crate) fn fill_table(
    standings: &mut [Standing],
    weights: &mut [[u8; MOST_IMAGES]],
    kept: &mut [Combination],
    sectors: &[u8],
)
    requires few { length standings.old ≤ MOST }
    requires weights { length weights.old ≡ length standings.old }
    requires kept { length kept.old ≡ length standings.old }
    requires sectors { length sectors.now ≡ 512 * length standings.old }
    ensures kept { length kept.new ≡ length kept.old }
    ensures table { IsTable (length standings.old) sectors.now (record { standings = standings.new; weights = weights.new }) }
{
    let mut rank = 0;
    for image in 0..standings.len() {
        let placed = place(kept, rank, sectors, image);
        standings[image] = placed.standing;
        let own = placed.weights;
        weights[image] = own;
        rank = placed.rank;
    }
}
