//! The most rows of sectors that are tested with one of some chunks.
ghost use Rattle.std.specs.Prelude.{◌≡◌, ◌-◌, ◌<◌, ◌≤◌, All, IsTrue};
ghost use Rattle.raid_params.specs.Validity.{is_chunk};
ghost use Rattle.xor_tables.specs.Xors.{most_tested};
ghost use Rattle.search_plan.specs.Rows.{tested_with};

use search_plan::{Plan, tested_rows};

/// The most rows that a plan tests with an offset and one of some chunks.
pub fn most_rows(plan: &Plan, chunks: &[u64], offset: u64) -> u64
    requires chunks { All (λ chunk. IsTrue (is_chunk chunk)) chunks.now }
    ensures value { result ≡ most_tested plan.now chunks.now offset }
    ensures within { result ≤ plan.now.end - offset }
    ensures most { All (λ chunk. tested_with plan.now chunk offset ≤ result) chunks.now }
{
    let mut most = 0;
    for chunk in chunks {
        most = tested_rows(plan, *chunk, offset).max(most);
    }
    most
}
