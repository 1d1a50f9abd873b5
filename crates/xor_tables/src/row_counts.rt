//! In how many rows of sectors the images differ.
ghost use Rattle.std.specs.Prelude.{◌≡◌, ◌+◌, ◌<◌, ◌≤◌, ◌^◌, ℕ, false, not, slice_index, slice_index_or, if◌then◌else◌};
ghost use Rattle.raid_params.specs.declared.limits.TheConstants.{MOST};

use member_regions::ImageSum;
use raid_params::MOST;

/// A count for each image.
pub(crate) type RowCounts = [u64; MOST];

/// The counts of the images, each with one more where the others differ in the row, of which this is the sum.
pub(crate) fn count_row(counts: &RowCounts, sum: &ImageSum, images: usize) -> RowCounts
    requires images { images ≤ MOST }
    requires few { (i : ℕ) → slice_index counts.now i < 2 ^ 63 }
    ensures counts { (i : ℕ) → i < images → slice_index result i ≡ slice_index counts.now i + (if not (slice_index_or sum.now.is_image i false) then 1 else 0) }
    ensures few { (i : ℕ) → slice_index result i ≤ slice_index counts.now i + 1 }
{
    let mut more = *counts;
    for image in 0..images {
        more[image] += one_if(!sum.is_image[image]);
    }
    more
}

/// 1 where it holds.
pub(crate) fn one_if(holds: bool) -> u64
    ensures value { result ≡ if holds then 1 else 0 }
    ensures few { result ≤ 1 }
{
    if holds { 1 } else { 0 }
}
