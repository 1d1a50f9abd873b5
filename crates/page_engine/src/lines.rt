//! Lines of pages.
ghost use Rattle.std.specs.Prelude.{◌≡◌, ◌+◌, ◌<◌, ◌^◌, false, IfOk, MatchOption};
ghost use Rattle.raid_params.specs.Bases.{greatest_base};
ghost use Rattle.page_engine.specs.Lines.{AddsPadded, is_inside, IsPaddedLine};

use arrayvec::ArrayVec;
use head_walk::{Line, Lines};
use outside::Memory;
use raid_params::{Geometry, MOST, Slots, Wide};
use wide_product::Part;

/// A copy of bases.
fn bases_of(bases: &ArrayVec<u64, MOST>) -> ArrayVec<u64, MOST>
    ensures { result ≡ bases.now }
{
    let mut copy = ArrayVec::new();
    copy.try_extend_from_slice(bases.as_slice()).unwrap();
    copy
}

/// A copy of slots.
fn slots_of(slots: &Slots) -> Slots
    ensures { result ≡ slots.now }
{
    let mut copy = Slots::new();
    copy.try_extend_from_slice(slots.as_slice()).unwrap();
    copy
}

/// The line of a part for a line of its plan over padded images, where the part's first set has the rank `first`. There is none
/// for a rank outside the part.
fn padded_line(part: &Part, first: u64, line: &Line) -> Option<Line>
    requires fits { part.now.first + part.now.count < 2 ^ 64 }
    requires offset { part.now.head.offset ≡ greatest_base part.now.bases.items }
    ensures { MatchOption result ((is_inside part.now first line.now.rank) ≡ false) (IsPaddedLine part.now first line.now) }
{
    let place = line.rank.checked_sub(first)?;
    if part.count <= place {
        return None;
    }
    Some(Line {
        rank: part.first + place,
        geo: Wide {
            geo: Geometry {
                head: part.head,
                slots: slots_of(&line.geo.geo.slots),
            },
            bases: bases_of(&part.bases),
        },
    })
}

/// Appends the lines of a part for those of its plan over padded images, where the part's first set has the rank `first`.
pub(crate) fn add_lines(
    part: &Part,
    first: u64,
    found: &[Line],
    lines: &mut Lines,
) -> Result<(), Memory>
    requires fits { part.now.first + part.now.count < 2 ^ 64 }
    requires offset { part.now.head.offset ≡ greatest_base part.now.bases.items }
    ensures { IfOk result (λ _. AddsPadded part.now first found.now lines.old lines.new) }
{
    for line in found {
        if let Some(line) = padded_line(part, first, line) {
            lines.push(line)?;
        }
    }
    Ok(())
}
