//! How many rows have each set.
ghost use Rattle.std.specs.Prelude.{◌≡◌, ◌+◌, ◌++◌, ◌≤◌, ◌<◌, ◌^◌, [], length};
ghost use Rattle.std.specs.Vec.{vec_capacity};
ghost use Rattle.relation_lines.specs.Shared.{counted, share as share_of_set, shares_of as shares_of_sets};

/// A set with the number of its rows, as one number.
fn share(rows: u64, set: u64) -> u128
    ensures { result ≡ share_of_set rows set }
{
    u128::from(rows) * (1 << 64) + u128::from(set)
}

/// Appends to no shares those of sets in order, within the room that is taken.
fn count_sets(sets: &[u64], shares: &mut Vec<u128>)
    requires none { shares.old.items ≡ [] }
    requires room { length sets.now ≤ vec_capacity shares.old }
    requires few { length sets.now < 2 ^ 32 }
    ensures { shares.new.items ≡ counted sets.now }
{
    let Some((first, rest)) = sets.split_first() else {
        return;
    };
    let mut set = *first;
    let mut rows = 1;
    for other in rest {
        if set == *other {
            rows += 1;
        } else {
            let _ = shares.push(share(rows, set));
            rows = 1;
            set = *other;
        }
    }
    let _ = shares.push(share(rows, set));
}

/// Appends sets, within the room that is taken.
pub(crate) fn push_sets(sets: &mut Vec<u64>, more: &[u64])
    requires { length sets.old.items + length more.now ≤ vec_capacity sets.old }
    ensures items { sets.new.items ≡ sets.old.items ++ more.now }
    ensures room { vec_capacity sets.old ≤ vec_capacity sets.new }
{
    let _ = sets.extend_from_slice(more);
}

/// Appends to no shares those of sets, those with most rows first. The sets are put in order.
pub(crate) fn add_shares(sets: &mut Vec<u64>, shares: &mut Vec<u128>)
    requires none { shares.old.items ≡ [] }
    requires room { length sets.old.items ≤ vec_capacity shares.old }
    requires few { length sets.old.items < 2 ^ 32 }
    ensures { shares.new.items ≡ shares_of_sets sets.old.items }
{
    sets.sort_unstable();
    count_sets(sets, shares);
    shares.sort_unstable();
    shares.reverse();
}
