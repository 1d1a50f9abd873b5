//! Blocks with heads, one after another.
ghost use Rattle.std.specs.Prelude.{◌≡◌, ◌+◌, ◌<◌, ◌≤◌, ◌^◌, IfSome, length};
ghost use Rattle.search_plan.specs.Plans.{IsPlan};
ghost use Rattle.plan_sets.specs.Sets.{total_of};
ghost use Rattle.set_product.specs.Blocks.{heads_with};
ghost use Rattle.set_product.specs.Left.{heads_after, heads_from, left_heads, IsOpened, MayBeOpened};

use crate::block::Block;
use crate::product::{block_at, shape_count};
use search_plan::Plan;

/// A block with heads that a walk has come to.
#[derive(Drop)]
pub(crate) struct Opened {
    /// The place of the pair of a level and a number of members after its own.
    pub after: usize,
    /// The block.
    pub block: Block,
    /// How many heads it has.
    pub heads: u64,
    /// How many slot lists each head has.
    pub lists: u64,
    /// The rank of the next head among those of the block.
    pub next: u64,
}

/// The first block with heads from this pair on, at its first head.
#[tactic(auto, using(crate::proofs::HeadByHead::shape_is))]
pub(crate) fn open_from(plan: &Plan, from: usize) -> Option<Opened>
    requires plan { IsPlan plan.now }
    requires few { total_of plan.now < 2 ^ 64 }
    ensures left { left_heads plan.now result ≡ heads_after plan.now from }
    ensures opened { MayBeOpened plan.now result }
    ensures later { IfSome result (λ opened. from < opened.after) }
{
    for at in from..shape_count(plan) {
        let block = block_at(plan, at);
        let heads = block.count_heads(plan);
        if heads > 0 {
            let lists = block.count_lists() as u64;
            return Some(Opened {
                after: at + 1,
                block,
                heads: heads as u64,
                lists,
                next: 0,
            });
        }
    }
    None
}

/// What comes after the next `count` heads of the block.
pub(crate) fn pass_heads(plan: &Plan, mut opened: Opened, count: u64) -> Option<Opened>
    requires plan { IsPlan plan.now }
    requires few { total_of plan.now < 2 ^ 64 }
    requires opened { IsOpened plan.now opened }
    requires count { opened.next + count ≤ opened.heads }
    ensures left { left_heads plan.now result ≡ heads_from plan.now opened (opened.next + count) }
    ensures opened { MayBeOpened plan.now result }
{
    opened.next += count;
    if opened.next < opened.heads {
        return Some(opened);
    }
    open_from(plan, opened.after)
}
