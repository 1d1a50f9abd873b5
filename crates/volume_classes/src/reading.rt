//! Lists of parameter sets, line by line.
ghost use Rattle.std.specs.Prelude.{◌≡◌, ◌≢◌, ◌∷◌, ◌++◌, ◌<◌, ◌≤◌, ◌^◌, ◌↔◌, [], ℕ, IsTrue, MatchOption, None, decimal, length};
ghost use Rattle.raid_params.specs.Validity.{first_fault};
ghost use Rattle.raid_params.specs.declared.types.Geometry.{Geometry as GeometryOf};
ghost use Rattle.value_text.specs.SetText.{HasWord, common, set_word};
ghost use Rattle.value_text.specs.Spelling.{named};
ghost use Rattle.volume_classes.specs.SetLists.{Adds, AddsSet, Entry, IsEntry, IsShare, IsWhole, ReadsSets, entry_line, set_of, told_set};

use crate::fault::ClassFault;
use outside::ListOf;
use raid_params::Geometry;
use std::alloc::Global;
use value_text::{after, cut, read_common_set, read_number, value_until};

/// The most sets of a list.
const MOST_LISTED: usize = 1024;

/// What a line of a set list tells.
#[derive(Drop)]
pub enum Told {
    /// A set, whose offset is common to all images.
    Set(Geometry),
    /// How far of all ranks a listing went.
    Next,
}

/// Reads the sets of a list, each of which breaks no rule over so many images, whose members end before the image sector
/// `end`.
pub(crate) fn read_sets(
    alloc: Global,
    text: &[u8],
    images: u8,
    end: u64,
) -> Result<ListOf<Geometry>, ClassFault>
    ensures { ReadsSets images end text.now result }
{
    let mut sets = ListOf::new(alloc);
    let mut rest = text;
    let mut taken = 0;
    while let Some((line, more)) = cut(rest, b'\n') {
        taken += 1;
        add_entry(&mut sets, line, images, end, taken)?;
        rest = more;
    }
    if rest.is_empty() {
        Ok(sets)
    } else {
        Err(ClassFault::Line(taken + 1))
    }
}

/// Adds the set that a line tells, the line of this number, where it tells one.
fn add_entry(
    sets: &mut ListOf<Geometry>,
    line: &[u8],
    images: u8,
    end: u64,
    number: u64,
) -> Result<(), ClassFault>
    requires { length sets.old ≤ 1024 }
    ensures { Adds images end number line.now sets.old sets.new result }
{
    match read_entry(line, images, end) {
        Some(Told::Next) => Ok(()),
        Some(Told::Set(set)) => add_set(sets, set, number),
        None => Err(ClassFault::Line(number)),
    }
}

/// Adds the set of the line of this number, where there are not as many yet as there may be.
fn add_set(sets: &mut ListOf<Geometry>, set: Geometry, number: u64) -> Result<(), ClassFault>
    ensures { AddsSet number set sets.old sets.new result }
{
    if sets.as_slice().len() < MOST_LISTED {
        Ok(sets.push(set)?)
    } else {
        Err(ClassFault::Line(number))
    }
}

/// What a line tells, given without its line feed.
fn read_entry(line: &[u8], images: u8, end: u64) -> Option<Told>
    ensures { MatchOption result
        ((entry : Entry) → IsEntry images end entry → line.now ++ 10 ∷ [] ≢ entry_line entry)
        (λ told. (entry : Entry) × IsEntry images end entry × (line.now ++ 10 ∷ [] ≡ entry_line entry) × (told_set told ≡ set_of entry)) }
{
    match after(line, b"next ") {
        Some(share) if is_share(share) => Some(Told::Next),
        Some(_) => None,
        None => Some(Told::Set(read_ranked(line, images, end)?)),
    }
}

/// Whether a text is `A of B`.
fn is_share(text: &[u8]) -> bool
    ensures { IsTrue result ↔ IsShare text.now }
{
    match value_until::<u64>(text, b' ') {
        Some((_, rest)) => is_whole(rest),
        None => false,
    }
}

/// Whether a text is `of B`.
fn is_whole(text: &[u8]) -> bool
    ensures { IsTrue result ↔ IsWhole text.now }
{
    match after(text, b"of ") {
        Some(total) => read_number(total).is_some(),
        None => false,
    }
}

/// The set of a line `RANK SETWORD`, which breaks no rule and has an offset that is common to all images.
fn read_ranked(line: &[u8], images: u8, end: u64) -> Option<Geometry>
    ensures { MatchOption result
        ((rank : ℕ) (geo : GeometryOf) → rank < 2 ^ 64 → HasWord (common geo) → first_fault geo images end ≡ None → line.now ≢ named (decimal rank) (set_word (common geo)))
        (λ geo. (rank : ℕ) × (rank < 2 ^ 64) × HasWord (common geo) × (first_fault geo images end ≡ None) × (line.now ≡ named (decimal rank) (set_word (common geo)))) }
{
    let (_, word) = value_until::<u64>(line, b' ')?;
    let set = read_common_set(word)?;
    match set.validate(images, end) {
        Ok(()) => Some(set),
        Err(_) => None,
    }
}
