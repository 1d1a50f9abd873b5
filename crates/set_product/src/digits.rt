//! Ranks as digits: how many pairs two lists have, which pair stands at a rank, and which rank a pair has.
//!
//! The elements of nested lists are pairs of pairs: the rank of one is a number whose digits are the places of its
//! parts. Counts stop at `COUNT_END`, so that any number of lists can be joined: no rank is as large, and a digit
//! that so many elements follow is 0.
ghost use Rattle.std.specs.Prelude.{◌≡◌, ◌<◌, ◌*◌, ◌+◌, ◌/◌, ◌%◌, ◌^◌, ℕ, min, IfSome, Some, length, slice_get};
ghost use Rattle.set_product.specs.Pairs.{joined, pairs};

/// Where a count stops: of as many elements or more none is ranked.
pub(crate) const COUNT_END: u128 = 1 << 64;

/// How many pairs two lists have, from how many elements each has. The counts stop at `COUNT_END`.
pub(crate) fn count_pairs(firsts: u128, seconds: u128) -> u128
    ensures { (n m : ℕ) → firsts ≡ min n (2 ^ 64) → seconds ≡ min m (2 ^ 64) → result ≡ min (n * m) (2 ^ 64) }
{
    firsts.saturating_mul(seconds).min(COUNT_END)
}

/// How many elements two lists have together. The counts stop at `COUNT_END`.
pub(crate) fn count_both(firsts: u128, seconds: u128) -> u128
    ensures { (n m : ℕ) → firsts ≡ min n (2 ^ 64) → seconds ≡ min m (2 ^ 64) → result ≡ min (n + m) (2 ^ 64) }
{
    firsts.saturating_add(seconds).min(COUNT_END)
}

/// The places of the parts of the pair of this rank, from how many elements the second list has.
pub(crate) fn split_rank(rank: u64, seconds: u128) -> (u64, u64)
    requires { 0 < seconds }
    ensures first { (n : ℕ) → seconds ≡ min n (2 ^ 64) → result.0 ≡ rank / n }
    ensures second { (n : ℕ) → seconds ≡ min n (2 ^ 64) → result.1 ≡ rank % n }
{
    let rank = u128::from(rank);
    ((rank / seconds) as u64, (rank % seconds) as u64)
}

/// The rank of a pair, from the places of its parts and how many elements the second list has.
#[tactic(auto)]
pub(crate) fn join_rank(first: Option<u64>, second: Option<u64>, seconds: u128) -> Option<u64>
    requires { IfSome (joined seconds first second) (λ rank. rank < 2 ^ 64) }
    ensures { result ≡ joined seconds first second }
{
    let (first, second) = (first?, second?);
    Some((u128::from(first) * seconds + u128::from(second)) as u64)
}

/// The pair of this rank among the pairs of two slices.
#[tactic(auto, using(crate::proofs::Pairs::pair_of_rank, crate::proofs::Pairs::second_some, crate::proofs::Pairs::row_within, crate::proofs::Pairs::column_within))]
pub(crate) fn pair_at<A: Copy, B: Copy>(firsts: &[A], seconds: &[B], rank: u64) -> (A, B)
    requires { rank < length firsts.now * length seconds.now }
    ensures { slice_get (pairs firsts.now seconds.now) rank ≡ Some result }
{
    let count = seconds.len() as u64;
    (
        firsts[(rank / count) as usize],
        seconds[(rank % count) as usize],
    )
}
