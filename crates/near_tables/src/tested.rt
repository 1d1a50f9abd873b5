//! Which sectors of the members are tested.
ghost use Rattle.std.specs.Prelude.{◌≡◌, ◌<◌, ◌^◌, IsTrue};
ghost use Rattle.near_mirror.specs.Copies.{near_rows};
ghost use Rattle.near_mirror.specs.Heads.{is_valid_near};
ghost use Rattle.near_tables.specs.Torn.{part_rows as part_rows_of, rows_tested as rows_tested_of, tested_below};

use near_mirror::{Copying, NearHead};

/// How many rows each copy of a chunk has to itself.
#[tactic(auto, using(near_mirror::proofs::Chunks::valid_chunk, near_mirror::proofs::Heads::some_copies))]
pub(crate) fn part_rows(head: &NearHead, end: u64) -> u64
    requires head { IsTrue (is_valid_near head.now) }
    ensures { result ≡ part_rows_of head.now.layout.copying head.now.layout.copies (near_rows head.now end) }
{
    match head.layout.copying {
        Copying::Near => 0,
        Copying::Far => head.rows(end) / u64::from(head.layout.copies),
        Copying::Offset => 0,
    }
}

/// How many rows of a part are tested.
#[tactic(auto, using(near_mirror::proofs::Chunks::valid_chunk, near_mirror::proofs::Heads::few_cells, near_mirror::proofs::Heads::some_copies))]
fn rows_tested(head: &NearHead, end: u64) -> u64
    requires head { IsTrue (is_valid_near head.now) }
    requires end { end < 2 ^ 55 }
    ensures { result ≡ rows_tested_of head.now.layout.copying head.now.members head.now.layout.copies (near_rows head.now end) }
{
    let rows = head.rows(end);
    let copies = u64::from(head.layout.copies);
    match head.layout.copying {
        Copying::Near if rows * u64::from(head.members) % copies <= 1 => rows,
        Copying::Near => rows.saturating_sub(1),
        Copying::Far => rows / copies,
        Copying::Offset => rows / copies * copies,
    }
}

/// The sector of a part of the members before which those lie that are tested: in the rows before the image sector `end` in which
/// chunks have all their copies, and in the window.
#[tactic(auto, using(near_mirror::proofs::Heads::area_short))]
pub fn tested_sectors(head: &NearHead, end: u64, window: u64) -> u64
    requires head { IsTrue (is_valid_near head.now) }
    requires end { end < 2 ^ 55 }
    ensures { result ≡ tested_below head.now end window }
{
    window.min(rows_tested(head, end) * head.chunk)
}
