//! The texts of the parameter set of a mirror.
ghost use Rattle.std.specs.Prelude.{◌≡◌, ◌≢◌, ◌∷◌, ◌++◌, [], IfOk, MatchOption, OnOk, codes, decimal};
ghost use Rattle.near_mirror.specs.Words.{HasNearWord, near_line as near_line_text, near_word};
ghost use Rattle.near_mirror.specs.declared.types.NearSet.{NearSet as NearSetOf};

use crate::types::{NearHead, NearSet};
use outside::Memory;
use raid_params::{SECTORS_END, Slots};
use std::alloc::Global;
use value_text::{Field, Text, add_list, add_number, after, list, value_until};

/// Reads the word `LAYOUT:CHUNK:OFFSET:SLOTS`, to its last byte: the layout, as `near2`, `far3` or `offset4`, the chunk
/// and the offset in sectors, and of each slot the number of its image, or a dash. It takes no memory.
///
/// It answers `None` exactly where the text is no near word. Whether the set makes sense is not asked.
pub fn read_near(text: &[u8]) -> Option<NearSet>
    ensures { MatchOption result
        ((set : NearSetOf) → HasNearWord set → text.now ≢ near_word set)
        (λ set. HasNearWord set × (text.now ≡ near_word set)) }
{
    let (layout, after_layout) = value_until(text, b':')?;
    let (chunk, after_chunk) = value_until(after_layout, b':')?;
    let (offset, after_offset) = value_until(after_chunk, b':')?;
    let slots: Slots = list(after_offset)?;
    if chunk <= u64::from(u32::MAX) && offset < SECTORS_END {
        let head = NearHead {
            members: slots.len() as u8,
            chunk,
            offset,
            layout,
        };
        Some(NearSet { head, slots })
    } else {
        None
    }
}

/// The line `RANK NEARWORD` of the parameter set of a mirror, with its line feed.
pub fn near_line(alloc: Global, rank: u64, set: &NearSet) -> Result<Text, Memory>
    ensures { IfOk result (λ text. text ≡ near_line_text rank set.now) }
{
    let mut text = Text::new(alloc);
    add_number(&mut text, rank)?;
    text.push(b' ')?;
    add_near(&mut text, set)?;
    text.push(b'\n')?;
    Ok(text)
}

/// Appends the word of the parameter set of a mirror.
fn add_near(text: &mut Text, set: &NearSet) -> Result<(), Memory>
    ensures { OnOk result (text.new ≡ text.old ++ near_word set.now) }
{
    set.head.layout.add_to(text)?;
    add_sizes(text, &set.head)?;
    add_list(text, &set.slots)
}

/// Appends `:CHUNK:OFFSET:`.
fn add_sizes(text: &mut Text, head: &NearHead) -> Result<(), Memory>
    ensures { OnOk result (text.new ≡ text.old ++ 58 ∷ (decimal head.now.chunk ++ 58 ∷ (decimal head.now.offset ++ 58 ∷ []))) }
{
    text.push(b':')?;
    add_number(text, head.chunk)?;
    text.push(b':')?;
    add_number(text, head.offset)?;
    text.push(b':')
}
