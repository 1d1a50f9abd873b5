//! Plans in which the images of a part have a common offset.
ghost use Rattle.std.specs.Prelude.{◌≡◌, ◌<◌, ◌^◌, true, [], ◌∷◌, IfOk, length};
ghost use Rattle.search_plan.specs.Plans.{IsPlan};
ghost use Rattle.wide_product.specs.PaddedParts.{part_plan, IsPaddedPart};
ghost use Rattle.wide_product.specs.Parts.{IsPartOf};
ghost use Rattle.wide_product.specs.Sets.{wide_total};

use crate::parts::Part;
use arrayvec::ArrayVec;
use outside::Memory;
use padded_images::pad_plan;
use raid_params::Geometry;
use search_plan::Plan;
use set_product::product_rank;
use std::alloc::Global;

/// A part of a product, as a range of the ranks of a plan over padded images that have a common offset.
#[derive(Drop)]
pub struct PaddedPart {
    /// The plan. Of chunks and offsets it has those of the part alone.
    pub plan: Plan,
    /// The rank there of the part's first set.
    pub first: u64,
}

impl PaddedPart {
    /// The sets of a part, over the images once they are padded by its bases.
    pub fn of(alloc: Global, plan: &Plan, part: &Part) -> Result<PaddedPart, Memory>
        requires plan { IsPlan plan.now }
        requires each { plan.now.each ≡ true }
        requires few { wide_total plan.now < 2 ^ 64 }
        requires part { IsPartOf plan.now part.now }
        requires some { 0 < part.now.count }
        ensures padded { IfOk result (IsPaddedPart plan.now part.now) }
    {
        let plan = plan_over(alloc, plan, part)?;
        let first = Geometry {
            head: part.head,
            slots: part.space.unrank(0),
        };
        let first = product_rank(&plan, &first).unwrap();
        Ok(PaddedPart { plan, first })
    }
}

/// The plan of a part over padded images.
fn plan_over(alloc: Global, plan: &Plan, part: &Part) -> Result<Plan, Memory>
    requires plan { IsPlan plan.now }
    requires each { plan.now.each ≡ true }
    requires part { IsPartOf plan.now part.now }
    ensures plan { IfOk result (λ made. made ≡ part_plan plan.now part.now) }
{
    let mut padded = pad_plan(alloc, plan, &part.bases)?;
    padded.bounds.chunks = just(part.head.chunk);
    padded.bounds.offsets = just(part.head.offset);
    Ok(padded)
}

/// A list of one number.
fn just<const N: usize>(number: u64) -> ArrayVec<u64, N>
    requires { 0 < N }
    ensures { result.items ≡ number ∷ [] }
{
    let mut list = ArrayVec::new();
    list.push(number);
    list
}
