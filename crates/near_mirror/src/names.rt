//! The names of layouts.
ghost use Rattle.std.specs.Prelude.{◌≡◌, ◌≢◌, ◌++◌, ℕ, List, IsTrue, MatchOption};
ghost use Rattle.near_mirror.specs.Heads.{are_copies as are_copies_of, is_near2};
ghost use Rattle.near_mirror.specs.NameLaws.{layout_law};
ghost use Rattle.near_mirror.specs.Words.{copying_name, layout_name};
ghost use Rattle.near_mirror.specs.declared.types.Copying.{Copying as CopyingOf};
ghost use Rattle.value_text.specs.NameLaws.{in_lists};

use crate::types::{CopyLayout, Copying};
use crate::validity::are_copies;
use outside::Memory;
use value_text::{Field, Spelled, Text, add_number, after};

/// Two near copies: the layout of most mirrors.
impl Default for CopyLayout {
    ghost is_default = { λ layout. IsTrue (is_near2 layout) };

    fn default() -> CopyLayout {
        CopyLayout {
            copying: Copying::Near,
            copies: 2,
        }
    }
}

impl Spelled for CopyLayout {
    ghost name = { layout_name };

    ghost IsSpelled = { λ layout. IsTrue (are_copies_of layout.copies) };

    fn read(text: &[u8]) -> Option<CopyLayout> {
        let (copying, number) = read_copying(text)?;
        let copies = u8::read(number)?;
        if are_copies(copies) {
            Some(CopyLayout { copying, copies })
        } else {
            None
        }
    }

    ghost law = { in_lists layout_name (λ layout. IsTrue (are_copies_of layout.copies)) layout_law };
}

impl Field for CopyLayout {
    fn add_to(&self, text: &mut Text) -> Result<(), Memory> {
        text.extend_from_slice(name(self.copying))?;
        add_number(text, u64::from(self.copies))
    }

    ghost law = { layout_law };
}

/// How copies lie, by name.
fn name(copying: Copying) -> &'static [u8]
    ensures { result.now ≡ copying_name copying }
{
    match copying {
        Copying::Near => b"near",
        Copying::Far => b"far",
        Copying::Offset => b"offset",
    }
}

/// How copies lie, where a text begins with its name, and what follows.
fn read_copying(text: &[u8]) -> Option<(Copying, &[u8])>
    ensures { MatchOption result
        ((copying : CopyingOf) (rest : List ℕ) → text.entry.now ≢ copying_name copying ++ rest)
        (λ r. text.entry.now ≡ copying_name r.0 ++ r.1.now) }
{
    if let Some(rest) = after(text, b"near") {
        return Some((Copying::Near, rest));
    }
    if let Some(rest) = after(text, b"far") {
        return Some((Copying::Far, rest));
    }
    let rest = after(text, b"offset")?;
    Some((Copying::Offset, rest))
}
