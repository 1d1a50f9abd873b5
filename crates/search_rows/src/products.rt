//! Small products whose sets are known.
ghost use Rattle.std.specs.Prelude.{◌<◌, ◌^◌};
ghost use Rattle.search_plan.specs.Plans.{IsPlan};
ghost use Rattle.plan_sets.specs.Sets.{total_of};

use crate::plans::{largest, one_missing, two_delays, two_levels};
use raid_params::{Geometry, Head, Level, Pattern};
use search_plan::{Placed, Plan};
use set_product::{Heads, product_rank, product_set, product_total};
use std::process::Abort;

// An empty slot.
const NO: Option<u8> = None;

// The set of a rank that the plan has.
fn set_of<R: Abort>(rt: &R, plan: &Plan, rank: u64) -> Geometry
    requires { IsPlan plan.now }
    ensures { total_of plan.now < 2 ^ 64 }
{
    let total = product_total(plan).expect(rt, "few sets");
    assert!(rt; rank < total);
    product_set(plan, rank)
}

// Whether the set of this rank has these slots, and its rank is this.
fn stands<R: Abort>(rt: &R, plan: &Plan, rank: u64, slots: &[Option<u8>]) -> bool
    requires { IsPlan plan.now }
{
    let geo = set_of(rt, plan, rank);
    geo.slots.as_slice() == slots && product_rank(plan, &geo) == Some(rank)
}

// The head of the set of this rank.
fn head_at<R: Abort>(rt: &R, plan: &Plan, rank: u64) -> Head
    requires { IsPlan plan.now }
{
    set_of(rt, plan, rank).head
}

// Whether the set of this rank has this pattern with this delay.
fn has_rotation<R: Abort>(rt: &R, plan: &Plan, rank: u64, pattern: Pattern, delay: u64) -> bool
    requires { IsPlan plan.now }
{
    let head = head_at(rt, plan, rank);
    head.pattern.place() == pattern.place() && head.delay == delay
}

// Three images have 3 * 2 orders. La comes with both delays before parity-last does, which does not move and has the delay 1 alone.
#[test]
fn two_delays_of_two_patterns(rt: HostRuntime) {
    let plan = two_delays(rt.alloc());
    assert_eq!(rt; product_total(&plan), Some(18));
    for rank in 0..6 {
        assert!(rt; has_rotation(&rt, &plan, rank, Pattern::La, 1));
        assert!(rt; has_rotation(&rt, &plan, rank + 6, Pattern::La, 2));
        assert!(rt; has_rotation(&rt, &plan, rank + 12, Pattern::ParityLast, 1));
    }
    assert!(rt; stands(&rt, &plan, 6, &[Some(0), Some(1), Some(2)]));
    assert!(rt; stands(&rt, &plan, 17, &[Some(2), Some(1), Some(0)]));
    let mut absent = set_of(&rt, &plan, 12);
    absent.head.delay = 2;
    assert_eq!(rt; product_rank(&plan, &absent), None);
}

// Two members of level 0 take 3 * 2 orders of two images, three take 3 * 2 of all, and three of
// level 5 as many.
#[test]
fn two_levels_of_three_images(rt: HostRuntime) {
    let plan = two_levels(rt.alloc());
    assert_eq!(rt; product_total(&plan), Some(18));
    let first = head_at(&rt, &plan, 0);
    assert!(rt; matches!(first.level, Level::Raid0));
    assert_eq!(rt; first.members, 2);
    let last = head_at(&rt, &plan, 12);
    assert!(rt; matches!(last.level, Level::Raid5));
    assert!(rt; matches!(last.pattern, Pattern::Ls));
    assert!(rt; stands(&rt, &plan, 0, &[Some(0), Some(1)]));
    assert!(rt; stands(&rt, &plan, 12, &[Some(0), Some(1), Some(2)]));
}

// Two images in three slots leave one empty, in 3 * 2 ways.
#[test]
fn one_empty_slot(rt: HostRuntime) {
    let plan = one_missing(rt.alloc());
    assert_eq!(rt; product_total(&plan), Some(6));
    assert!(rt; stands(&rt, &plan, 0, &[Some(0), Some(1), NO]));
    assert!(rt; stands(&rt, &plan, 5, &[NO, Some(1), Some(0)]));
}

// 39,936 heads of 163 * 24! slot lists each, of which 24! leave no slot empty, 24 * 24! one and 276 * 24! / 2 two, are more than 2 to the power 64.
#[test]
fn too_many_sets(rt: HostRuntime) {
    assert_eq!(rt; product_total(&largest(rt.alloc())), None);
}

// The number of members of the next head, twice, and the rank of its first set.
fn next_head<R: Abort>(rt: &R, heads: &mut Heads) -> (u8, u8, u64) {
    let sets = heads.next().expect(rt, "a head");
    (sets.head.members, sets.space.members, sets.first)
}

// Six sets have two members of level 0, twelve three: six of level 0 and six of level 5. The second
// head has its sets from rank 6 on, and a walk from rank 11 on begins there.
#[test]
fn three_heads(rt: HostRuntime) {
    let plan = two_levels(rt.alloc());
    assert_eq!(rt; product_total(&plan), Some(18));
    let mut heads = Heads::of(&plan);
    assert_eq!(rt; next_head(&rt, &mut heads), (2, 2, 0));
    heads.skip_to(11);
    assert_eq!(rt; next_head(&rt, &mut heads), (3, 3, 6));
    heads.skip_to(18);
    assert!(rt; heads.next().is_none());
}
