//! Rows that are kept of those that are read for tables.
ghost use Rattle.std.specs.Prelude.{◌≡◌, ◌+◌, ◌<◌, ◌≤◌, ◌^◌, ℕ, List};
ghost use Rattle.member_regions.specs.Regions.{IsRoomFor};
ghost use Rattle.member_regions.specs.declared.regions.TheConstants.{BLOCK};
ghost use Rattle.row_samples.specs.Rows.{HoldSector};
ghost use Rattle.row_samples.specs.Spreads.{AreSampled, LieBelow};
ghost use Rattle.xor_tables.specs.Xors.{HoldRows};

use member_regions::{BLOCK, ImageSum, Regions};
use row_samples::RowSampler;

/// Offers the `count` rows that the regions hold, of which the first is row `first`, to a sampler: those that are not zeros in all
/// images.
pub(crate) fn offer_rows(
    sampler: &mut RowSampler,
    regions: &Regions,
    sums: &[ImageSum; BLOCK],
    first: u64,
    count: usize,
)
    requires room { IsRoomFor sampler.old.telling.kept.images BLOCK regions.now }
    requires count { count ≤ BLOCK }
    requires rows { first + count < 2 ^ 55 }
    requires below { LieBelow first sampler.old }
    ensures telling_images { sampler.new.telling.kept.images ≡ sampler.old.telling.kept.images }
    ensures others_images { sampler.new.others.kept.images ≡ sampler.old.others.kept.images }
    ensures below { LieBelow (first + count) sampler.new }
    ensures kept { (bytes : List (List ℕ)) (offset : ℕ) → HoldRows bytes sampler.old.telling.kept.images (offset + first) count regions.now →
        AreSampled bytes sampler.old.telling.kept.images offset sampler.old → AreSampled bytes sampler.old.telling.kept.images offset sampler.new }
{
    for j in 0..count {
        offer_row(sampler, regions, sums[j].is_blank, first + j as u64, j);
    }
}

/// Offers row `row`, which the regions hold at a place, where it is not zeros in all images.
fn offer_row(sampler: &mut RowSampler, regions: &Regions, is_blank: bool, row: u64, place: usize)
    requires room { IsRoomFor sampler.old.telling.kept.images (place + 1) regions.now }
    requires row { row < 2 ^ 55 }
    requires below { LieBelow row sampler.old }
    ensures telling_images { sampler.new.telling.kept.images ≡ sampler.old.telling.kept.images }
    ensures others_images { sampler.new.others.kept.images ≡ sampler.old.others.kept.images }
    ensures below { LieBelow (row + 1) sampler.new }
    ensures kept { (bytes : List (List ℕ)) (offset : ℕ) → HoldSector bytes sampler.old.telling.kept.images (offset + row) place regions.now →
        AreSampled bytes sampler.old.telling.kept.images offset sampler.old → AreSampled bytes sampler.old.telling.kept.images offset sampler.new }
{
    if !is_blank {
        sampler.offer(regions, row, place);
    }
}
