//! Parts of which the marks leave no set.
ghost use Rattle.std.specs.Prelude.{◌≡◌, ◌+◌, ◌<◌, ◌≤◌, ℕ, List, None, true, false, IfErr, IfOk};
ghost use Rattle.common_pages.specs.declared.page_parts.PageFault.TheVariants.{Memory as OutOfMemory};
ghost use Rattle.head_walk.specs.Walk.{IsAsked};
ghost use Rattle.mark_tables.specs.Marks.{groups_may_hold as all_may_hold};
ghost use Rattle.search_plan.specs.Plans.{IsPlan};
ghost use Rattle.wide_product.specs.PaddedParts.{IsPaddedPart};
ghost use Rattle.wide_product.specs.Parts.{IsPartOf};
ghost use Rattle.page_engine.specs.Parts.{NonePass};

use candidate_enum::{Family, Survivors};
use common_pages::PageFault;
use mark_tables::{MarkTable, groups_may_hold};
use outside::Memory;
use raid_params::{Head, Slots};
use search_plan::Plan;
use slot_math::Space;
use std::alloc::Global;
use std::marker::Model;
use wide_product::{PaddedPart, Part};

/// The slot lists of a part. A prefix is admitted where each group of marks may still hold.
#[derive(Drop)]
pub(crate) struct Marked<'a> {
    plan: &'a Plan,
    head: Head,
    space: Space,
    marks: MarkTable,
}

impl<'a> Model for Marked<'a> {
    ghost use Rattle.std.specs.declared.option.Option.TheVariants.{None};
    ghost use Rattle.mark_tables.specs.Tables.{IsMarkTable};
    ghost use Rattle.head_walk.specs.Walk.{Asked, IsAsked};

    ghost Value = { Asked };

    ghost view = { λ s. record { plan = s.plan.now; head = s.head; space = s.space; xors = None } };

    ghost invariant = { λ s. IsAsked s.plan.now s.head s.space × IsMarkTable s.plan.now s.head s.marks };
}

impl<'a> Marked<'a> {
    /// Those of a part, with its plan over padded images. Memory is taken for the table of the plan's marks.
    fn new(alloc: Global, plan: &'a Plan, part: &Part) -> Result<Marked<'a>, Memory>
        requires { IsAsked plan.now part.now.head part.now.space }
        ensures { IfOk result (λ asked. asked ≡ record { plan = plan.now; head = part.now.head; space = part.now.space; xors = None }) }
    {
        let marks = MarkTable::build(alloc, plan, &part.head)?;
        Ok(Marked {
            plan,
            head: part.head,
            space: part.space,
            marks,
        })
    }
}

impl<'a> Family for Marked<'a> {
    type Kept = ();

    ghost space_of = { λ asked. asked.space };

    ghost admits = { λ asked. all_may_hold asked.plan asked.head };

    ghost keeps = { λ _ _ _. Unit };

    fn space(&self) -> Space {
        self.space
    }

    fn kept_first(&self) {}

    fn kept_next(&self, _kept: &(), _prefix: &Slots) {}

    fn may_pass(&self, prefix: &Slots, _kept: &()) -> bool {
        groups_may_hold(&self.marks, self.plan, &self.head, prefix)
    }
}

/// Whether the marks leave no set of a part's ranks from `from` up to `stop`: then none of them passes. Nothing is read for it.
pub(crate) fn is_ruled_out(
    alloc: Global,
    plan: &Plan,
    part: &Part,
    padded: &PaddedPart,
    from: u64,
    stop: u64,
) -> Result<bool, PageFault>
    requires plan { IsPlan plan.now }
    requires own { plan.now.each ≡ true }
    requires part { IsPartOf plan.now part.now }
    requires padded { IsPaddedPart plan.now part.now padded.now }
    requires from { part.now.first ≤ from }
    requires range { from ≤ stop }
    requires stop { stop ≤ part.now.first + part.now.count }
    ensures out { IfOk result (λ out. out ≡ true → NonePass plan.now from stop) }
    ensures memory { IfErr result (λ fault. fault ≡ OutOfMemory) }
{
    if plan.groups.as_slice().is_empty() {
        return Ok(false);
    }
    match Marked::new(alloc, &padded.plan, part) {
        Ok(marked) => {
            let mut walk = Survivors::start(&marked, from - part.first, stop - part.first);
            Ok(walk.next().is_none())
        }
        Err(_) => Err(PageFault::Memory),
    }
}
