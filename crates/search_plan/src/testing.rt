//! How many rows of sectors are tested.
ghost use Rattle.std.specs.Prelude.{◌≡◌, ◌-◌, ◌<◌, ◌≤◌};
ghost use Rattle.raid_params.specs.declared.types.Geometry.{Geometry};
ghost use Rattle.raid_terms.specs.Parity.{tested_rows as rows_of_set};
ghost use Rattle.search_plan.specs.Rows.{tested_with};

use crate::plan::Plan;

/// How many rows of sectors of a parameter set with this chunk, in sectors, and this offset a plan tests: those in whole rows
/// of chunks before the plan's end, and below its window. Neither the level nor the slots matter.
pub fn tested_rows(plan: &Plan, chunk: u64, offset: u64) -> u64
    requires chunk { 0 < chunk }
    ensures value { result ≡ tested_with plan.now chunk offset }
    ensures sets { (geo : Geometry) → geo.head.chunk ≡ chunk → geo.head.offset ≡ offset →
        result ≡ rows_of_set geo plan.now.end plan.now.limits.window }
    ensures within { result ≤ plan.now.end - offset }
    ensures short { result ≤ plan.now.limits.window }
{
    search_scope::tested_rows(plan.end, plan.limits, chunk, offset)
}
