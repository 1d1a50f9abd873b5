//! Sums of the sectors of a row.
ghost use Rattle.std.specs.Prelude.{ℕ, ◌≡◌, ◌≢◌, ◌+◌, ◌*◌, ◌<◌, ◌≤◌, length, map, slice_index, slice_set};
ghost use Rattle.std.specs.Simd.Lanes.{zip2};
ghost use Rattle.gf256.specs.Field.{product};
ghost use Rattle.lane_kernels.specs.Formulas.{scaled_sum};
ghost use Rattle.row_relations.specs.Rows.{byte_of};
ghost use Rattle.row_relations.specs.Tables.{no_weights};

use crate::standing::MOST_IMAGES;
use gf256::inverse;
use lane_kernels::{scale, scale_xor};
use outside::SECTOR;

/// No weights.
#[tactic(auto, unfolding(crate::specs::Tables::no_weights))]
pub(crate) fn zero_weights() -> [u8; MOST_IMAGES]
    ensures { result ≡ no_weights }
{
    [0; MOST_IMAGES]
}

/// The sum of some sectors of a row, each times a weight.
#[derive(Clone, Copy)]
pub(crate) struct Combination {
    /// A column in which the sum is 1, once it is kept.
    pub(crate) pivot: usize,
    /// The sum.
    pub(crate) sector: [u8; SECTOR],
    /// The weights, by image.
    pub(crate) weights: [u8; MOST_IMAGES],
}

impl Combination {
    /// No sectors.
    pub(crate) const NOTHING: Combination = Combination {
        pivot: 0,
        sector: [0; SECTOR],
        weights: [0; MOST_IMAGES],
    };

    /// The sector of one image, with no weights yet.
    pub(crate) fn of_image(sectors: &[u8], image: usize) -> Combination
        requires { 512 * image + 512 ≤ length sectors.now }
        ensures sector { (c : ℕ) → c < 512 → slice_index result.sector c ≡ byte_of sectors.now image c }
        ensures long { length result.sector ≡ 512 }
        ensures weights { result.weights ≡ no_weights }
    {
        let mut sector = [0u8; SECTOR];
        sector.copy_from_slice(&sectors[SECTOR * image..SECTOR * image + SECTOR]);
        let weights = zero_weights();
        Combination {
            pivot: 0,
            sector,
            weights,
        }
    }

    /// Adds another one times a factor.
    pub(crate) fn add(&mut self, other: &Combination, factor: u8)
        ensures sector { self.new.sector ≡ zip2 (scaled_sum factor) self.old.sector other.now.sector }
        ensures weights { self.new.weights ≡ zip2 (scaled_sum factor) self.old.weights other.now.weights }
        ensures long { length self.new.sector ≡ 512 }
        ensures same { length self.old.sector ≡ 512 }
        ensures other { length other.now.sector ≡ 512 }
        ensures fits { factor < 256 }
    {
        scale_xor(&mut self.sector, &other.sector, factor);
        scale_xor(&mut self.weights, &other.weights, factor);
    }

    /// Gives the image itself the weight 1, and makes the sum 1 in a column, where it is not 0, by multiplying all.
    pub(crate) fn normalize(&mut self, image: usize, pivot: usize)
        requires image { image < 64 }
        requires pivot { pivot < 512 }
        requires other { slice_index self.old.sector pivot ≢ 0 }
        ensures pivot { self.new.pivot ≡ pivot }
        ensures scaled { (factor : ℕ) × (factor < 256) × (product (slice_index self.old.sector pivot) factor ≡ 1)
            × (self.new.sector ≡ map (product factor) self.old.sector)
            × (self.new.weights ≡ map (product factor) (slice_set self.old.weights image 1)) }
    {
        let factor = inverse(self.sector[pivot]);
        self.pivot = pivot;
        self.weights[image] = 1;
        scale(&mut self.sector, factor);
        scale(&mut self.weights, factor);
    }
}
