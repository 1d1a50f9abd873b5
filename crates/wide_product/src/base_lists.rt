//! Lists of bases: how many there are, which stands at a rank, and which rank one has.
ghost use Rattle.std.specs.Prelude.{◌≡◌, ◌<◌, ◌≤◌, ◌*◌, ◌^◌, ℕ, min, Some, length, position, slice_get};
ghost use Rattle.raid_params.specs.declared.limits.TheConstants.{MOST};
ghost use Rattle.wide_product.specs.Bases.{base_lists, same_bases};

use crate::groups::place_of;
use arrayvec::ArrayVec;
use raid_params::MOST;

/// Where a count stops: of as many elements or more none is ranked.
pub(crate) const COUNT_END: u128 = 1 << 64;

/// How many pairs two lists have, from how many elements each has. The counts stop at `COUNT_END`.
pub(crate) fn count_pairs(firsts: u128, seconds: u128) -> u128
    ensures { (n m : ℕ) → firsts ≡ min n (2 ^ 64) → seconds ≡ min m (2 ^ 64) → result ≡ min (n * m) (2 ^ 64) }
{
    firsts.saturating_mul(seconds).min(COUNT_END)
}

/// How many lists of bases there are for so many images. The count stops at `COUNT_END`.
pub(crate) fn count_bases(offsets: &[u64], images: usize) -> u128
    requires { length offsets.now ≤ 64 }
    ensures { result ≡ min (length (base_lists offsets.now images)) (2 ^ 64) }
{
    let mut count = 1;
    for _ in 0..images {
        count = count_pairs(offsets.len() as u128, count);
    }
    count
}

/// The list of bases of this rank.
pub(crate) fn bases_at(offsets: &[u64], images: usize, rank: u64) -> ArrayVec<u64, MOST>
    requires offsets { length offsets.now ≤ 64 }
    requires images { images ≤ MOST }
    requires few { length (base_lists offsets.now images) < 2 ^ 64 }
    requires rank { rank < length (base_lists offsets.now images) }
    ensures { slice_get (base_lists offsets.now images) rank ≡ Some result.items }
{
    let mut bases = ArrayVec::new();
    let mut rest = rank;
    for image in 0..images {
        let later = count_bases(offsets, images - image - 1) as u64;
        bases.push(offsets[(rest / later) as usize]);
        rest %= later;
    }
    bases
}

/// The rank of a list of bases, None where an offset is not among these.
pub(crate) fn bases_rank(offsets: &[u64], bases: &[u64]) -> Option<u64>
    requires offsets { length offsets.now ≤ 64 }
    requires few { length (base_lists offsets.now (length bases.now)) < 2 ^ 64 }
    ensures { result ≡ position (same_bases bases.now) (base_lists offsets.now (length bases.now)) }
{
    let mut rank = 0;
    for base in bases {
        let place = place_of(offsets, *base)?;
        rank = rank * offsets.len() as u64 + place;
    }
    Some(rank)
}
