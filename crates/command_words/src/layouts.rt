//! Lists of layouts of copies.
ghost use Rattle.std.specs.Prelude.{◌≡◌, ◌≢◌, ◌↔◌, IsTrue, List, MatchOption, map};
ghost use Rattle.std.specs.List.Sorted.{IsStrictlyIncreasing};
ghost use Rattle.command_words.specs.Operands.{AreLayouts, layout_place};
ghost use Rattle.near_mirror.specs.Words.{layout_name};
ghost use Rattle.near_mirror.specs.declared.types.CopyLayout.{CopyLayout as CopyLayoutOf};
ghost use Rattle.value_text.specs.Spelling.{commas};

use crate::command::MOST_LAYOUTS;
use arrayvec::ArrayVec;
use near_mirror::{CopyLayout, Copying};
use value_text::list;

/// The layouts that a text spells with a comma between them, each with a place before the next one's.
pub(crate) fn read_layouts(text: &[u8]) -> Option<ArrayVec<CopyLayout, MOST_LAYOUTS>>
    ensures { MatchOption result
        ((layouts : List CopyLayoutOf) → AreLayouts layouts → text.now ≢ commas (map layout_name layouts))
        (λ layouts. AreLayouts layouts.items × (text.now ≡ commas (map layout_name layouts.items))) }
{
    let layouts = list::<CopyLayout, MOST_LAYOUTS>(text)?;
    if rise(&layouts) { Some(layouts) } else { None }
}

/// Whether each layout has a place before the next one's.
fn rise(layouts: &[CopyLayout]) -> bool
    ensures { IsTrue result ↔ IsStrictlyIncreasing (map layout_place layouts.now) }
{
    layouts.is_sorted_by(|earlier, later| place(earlier) < place(later))
}

/// Where a layout stands among all of them.
fn place(layout: &CopyLayout) -> u64
    ensures { result ≡ layout_place layout.now }
{
    let before: u64 = match layout.copying {
        Copying::Near => 0,
        Copying::Far => 3,
        Copying::Offset => 6,
    };
    before + u64::from(layout.copies)
}
