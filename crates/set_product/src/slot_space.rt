//! The slot lists of a plan.
ghost use Rattle.std.specs.Prelude.{◌≡◌, ◌≤◌};
ghost use Rattle.raid_params.specs.declared.limits.TheConstants.{MOST};
ghost use Rattle.search_plan.specs.Plans.{IsPlan};
ghost use Rattle.set_product.specs.Blocks.{IsSpaceOf};
ghost use Rattle.set_product.specs.Heads.{space_of};

use raid_params::Level;
use search_plan::Plan;
use slot_math::Space;

/// The slot lists of a plan's sets of one level and one number of members: at most `missing` places are
/// empty, no more than the level survives, and at most `foreign` images are in no slot.
#[tactic(auto, using(crate::proofs::Spaces::no_lists, crate::proofs::Spaces::some_lists, crate::proofs::Spaces::no_space, crate::proofs::Spaces::some_space))]
pub(crate) fn space_of(plan: &Plan, level: Level, members: u8) -> Space
    requires plan { IsPlan plan.now }
    requires members { members ≤ MOST }
    ensures lists { IsSpaceOf plan.now level members result }
    ensures space { result ≡ space_of plan.now level members }
{
    let images = plan.lengths.len() as u8;
    let missing = plan.bounds.missing.min(level.redundancy());
    let held = plan.bounds.foreign + members;
    if held < images {
        return Space {
            images,
            members,
            low: 1,
            high: 0,
        };
    }
    Space {
        images,
        members,
        low: 0,
        high: missing.min(held - images),
    }
}
