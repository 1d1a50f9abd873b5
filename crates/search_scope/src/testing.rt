//! How many rows of sectors are tested.
ghost use Rattle.std.specs.Prelude.{◌≡◌, ◌-◌, ◌<◌, ◌≤◌};
ghost use Rattle.raid_params.specs.declared.types.Geometry.{Geometry};
ghost use Rattle.raid_terms.specs.Parity.{tested_rows as rows_of_set};
ghost use Rattle.search_scope.specs.Rows.{tested_with};

use crate::scope::Limits;

/// How many rows of sectors of a parameter set with this chunk, in sectors, and this offset are tested: those in whole rows of
/// chunks before the image sector `end`, and below the window. Neither the level nor the slots matter.
pub fn tested_rows(end: u64, limits: Limits, chunk: u64, offset: u64) -> u64
    requires chunk { 0 < chunk }
    ensures value { result ≡ tested_with end limits.window chunk offset }
    ensures sets { (geo : Geometry) → geo.head.chunk ≡ chunk → geo.head.offset ≡ offset →
        result ≡ rows_of_set geo end limits.window }
    ensures within { result ≤ end - offset }
    ensures short { result ≤ limits.window }
{
    (end.saturating_sub(offset) / chunk * chunk).min(limits.window)
}
