//! The texts of a parameter set.
ghost use Rattle.std.specs.Prelude.{◌≡◌, ◌∷◌, ◌++◌, IfOk, OnOk, decimal, []};
ghost use Rattle.value_text.specs.SetText.{common, offset_name, rotation_name, set_line as set_line_text, set_word, word_with};
ghost use Rattle.value_text.specs.Spelling.{level_name, line, named, syndrome_name};

use crate::offset::add_offset;
use crate::rotation::Rotation;
use crate::spelled::{Field, add_list};
use crate::text::{Text, add_number};
use outside::Memory;
use raid_params::{Geometry, Head, Wide};
use std::alloc::Global;

/// The word `LEVEL:PATTERN:SYNDROME:CHUNK:OFFSET:SLOTS` of a parameter set.
pub fn write_set(alloc: Global, set: &Wide) -> Result<Text, Memory>
    ensures { IfOk result (λ text. text ≡ set_word set.now) }
{
    let mut text = Text::new(alloc);
    add_set(&mut text, &set.geo, &set.bases)?;
    Ok(text)
}

/// The line `RANK SETWORD` of a parameter set, with its line feed.
pub fn set_line(alloc: Global, rank: u64, set: &Wide) -> Result<Text, Memory>
    ensures { IfOk result (λ text. text ≡ set_line_text rank set.now) }
{
    line_with(alloc, rank, &set.geo, &set.bases)
}

/// The line `RANK SETWORD` of a parameter set with one offset that is common to all images, with its line feed.
pub fn common_set_line(alloc: Global, rank: u64, geo: &Geometry) -> Result<Text, Memory>
    ensures { IfOk result (λ text. text ≡ set_line_text rank (common geo.now)) }
{
    line_with(alloc, rank, geo, &[])
}

/// The line `RANK SETWORD` of these parameters with these bases.
fn line_with(alloc: Global, rank: u64, geo: &Geometry, bases: &[u64]) -> Result<Text, Memory>
    ensures { IfOk result (λ text. text ≡ line (named (decimal rank) (word_with geo.now bases.now))) }
{
    let mut text = Text::new(alloc);
    add_number(&mut text, rank)?;
    text.push(b' ')?;
    add_set(&mut text, geo, bases)?;
    text.push(b'\n')?;
    Ok(text)
}

/// Appends the word of these parameters with these bases.
fn add_set(text: &mut Text, geo: &Geometry, bases: &[u64]) -> Result<(), Memory>
    ensures { OnOk result (text.new ≡ text.old ++ word_with geo.now bases.now) }
{
    add_layout(text, &geo.head)?;
    add_sizes(text, &geo.head, bases)?;
    add_list(text, &geo.slots)
}

/// Appends `LEVEL:PATTERN:SYNDROME:`, where a delay other than 1 stands behind the pattern.
fn add_layout(text: &mut Text, head: &Head) -> Result<(), Memory>
    ensures { OnOk result (text.new ≡ text.old ++ (level_name head.now.level ++ 58 ∷ (rotation_name head.now.pattern head.now.delay ++ 58 ∷ (syndrome_name head.now.syndrome ++ 58 ∷ [])))) }
{
    head.level.add_to(text)?;
    text.push(b':')?;
    let rotation = Rotation {
        pattern: head.pattern,
        delay: head.delay,
    };
    rotation.add_to(text)?;
    text.push(b':')?;
    head.syndrome.add_to(text)?;
    text.push(b':')
}

/// Appends `CHUNK:OFFSET:`.
fn add_sizes(text: &mut Text, head: &Head, bases: &[u64]) -> Result<(), Memory>
    ensures { OnOk result (text.new ≡ text.old ++ (decimal head.now.chunk ++ 58 ∷ (offset_name head.now.offset bases.now ++ 58 ∷ []))) }
{
    add_number(text, head.chunk)?;
    text.push(b':')?;
    add_offset(text, head.offset, bases)?;
    text.push(b':')
}
