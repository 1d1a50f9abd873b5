//! Lines of JSON.
ghost use Rattle.std.specs.Prelude.{◌≡◌, ◌==◌, ◌∷◌, ◌++◌, IfOk, decimal, if◌then◌else◌, map, string_bytes};
ghost use Rattle.json_lines.specs.Objects.{base_data, layout_name, level_number as level_number_of, name_data, next_data, next_object, offset_data, set_data, set_object, slot_data, slots_data};
ghost use Rattle.value_text.specs.Spelling.{line as line_of};
ghost use Rattle.value_text.specs.SetText.{rotation_name};
ghost use Rattle.serde_json.specs.Data.{array, string};
ghost use Rattle.serde_json.specs.View.{items_of, view};
ghost use Rattle.serde_json.specs.Written.{compact_text};

use outside::Memory;
use raid_layouts::md_name;
use raid_params::{Head, Level, Wide};
use serde_json::{Value, json};
use std::alloc::{AllocError, Global};
use value_text::{Text, pattern_name, syndrome_name};

/// The line of a parameter set with its rank, and its line feed: an object with the keys chunk, level, name,
/// offset, pattern, rank, slots and syndrome. `name` is mdadm's or DDF's name of the layout, or null; `offset` is the list
/// of bases where there are any; `pattern` has the delay behind a star where it is not 1; an empty slot is null.
#[tactic(auto, unfolding(crate::specs::Objects::set_object))]
pub fn json_line(alloc: Global, rank: u64, set: &Wide) -> Result<Text, Memory>
    ensures { IfOk result (λ text. text ≡ set_object rank set.now) }
{
    let geo = &set.geo;
    let text = set_text(alloc, rank, &geo.head, &set.bases, &geo.slots).map_err(|_| Memory)?;
    ended(alloc, &text)
}

/// The line that says where the next page begins, with its line feed: an object with the keys next and total.
#[tactic(auto, unfolding(crate::specs::Objects::next_object))]
pub fn json_next(alloc: Global, next: u64, total: u64) -> Result<Text, Memory>
    ensures { IfOk result (λ text. text ≡ next_object next total) }
{
    let text = next_text(alloc, next, total).map_err(|_| Memory)?;
    ended(alloc, &text)
}

/// The text, ended by a line feed.
fn ended(alloc: Global, text: &str) -> Result<Text, Memory>
    ensures { IfOk result (λ line. line ≡ line_of text.now) }
{
    let mut line = Text::new(alloc);
    line.extend_from_slice(text.as_bytes())?;
    line.push(b'\n')?;
    Ok(line)
}

/// The object of where the next page begins.
fn next_text(alloc: Global, next: u64, total: u64) -> Result<String, AllocError>
    ensures { IfOk result (λ text. string_bytes text ≡ compact_text (next_data next total)) }
{
    let value = next_value(alloc, next, total)?;
    value.to_string(alloc)
}

/// The JSON value of where the next page begins.
fn next_value(alloc: Global, next: u64, total: u64) -> Result<Value, AllocError>
    ensures { IfOk result (λ value. view value ≡ next_data next total) }
{
    json!(in alloc; { "next": next, "total": total })
}

/// The object of a parameter set.
fn set_text(
    alloc: Global,
    rank: u64,
    head: &Head,
    bases: &[u64],
    slots: &[Option<u8>],
) -> Result<String, AllocError>
    ensures { IfOk result (λ text. string_bytes text ≡ compact_text (set_data rank head.now bases.now slots.now)) }
{
    let value = set_value(alloc, rank, head, bases, slots)?;
    value.to_string(alloc)
}

/// The JSON value of a parameter set with its rank.
fn set_value(
    alloc: Global,
    rank: u64,
    head: &Head,
    bases: &[u64],
    slots: &[Option<u8>],
) -> Result<Value, AllocError>
    ensures { IfOk result (λ value. view value ≡ set_data rank head.now bases.now slots.now) }
{
    json!(in alloc; {
        "chunk": head.chunk, "level": level_number(head.level), "name": name_value(alloc, head)?,
        "offset": offset_value(alloc, head.offset, bases)?, "pattern": pattern_value(alloc, head)?, "rank": rank,
        "slots": slots_value(alloc, slots)?, "syndrome": syndrome_name(head.syndrome)
    })
}

/// The pattern, with the delay behind a star where it is not 1.
fn pattern_value(alloc: Global, head: &Head) -> Result<Value, AllocError>
    ensures { IfOk result (λ value. view value ≡ string (rotation_name head.now.pattern head.now.delay)) }
{
    let text = rotation_text(alloc, pattern_name(head.pattern), head.delay)?;
    Ok(Value::String(text))
}

/// The name of a pattern, and behind a star the delay where it is not 1.
fn rotation_text(alloc: Global, name: &str, delay: u64) -> Result<String, AllocError>
    ensures { IfOk result (λ text. string_bytes text ≡ (if delay == 1 then name.now else name.now ++ 42 ∷ decimal delay)) }
{
    if delay == 1 {
        String::from_str(alloc, name)
    } else {
        format!(in alloc; "{name}*{delay}")
    }
}

/// The name of the layout, or null: only layouts whose parity stays for one row have one.
fn name_value(alloc: Global, head: &Head) -> Result<Value, AllocError>
    ensures { IfOk result (λ value. view value ≡ name_data (layout_name head.now)) }
{
    if head.delay != 1 {
        return Ok(Value::Null);
    }
    match md_name(head.level, head.pattern, head.syndrome) {
        Some(name) => {
            let text = String::from_str(alloc, name)?;
            Ok(Value::String(text))
        }
        None => Ok(Value::Null),
    }
}

/// The bases, or the offset where there are none.
fn offset_value(alloc: Global, offset: u64, bases: &[u64]) -> Result<Value, AllocError>
    ensures { IfOk result (λ value. view value ≡ offset_data offset bases.now) }
{
    if bases.is_empty() {
        Ok(Value::from(offset))
    } else {
        bases_value(alloc, bases)
    }
}

/// The list of the bases.
fn bases_value(alloc: Global, bases: &[u64]) -> Result<Value, AllocError>
    ensures { IfOk result (λ value. view value ≡ array (items_of (map base_data bases.now))) }
{
    let mut values = Vec::new(alloc);
    for base in bases {
        values.push(Value::from(*base))?;
    }
    Ok(Value::Array(values))
}

/// The slots: numbers of images, and null where they are empty.
fn slots_value(alloc: Global, slots: &[Option<u8>]) -> Result<Value, AllocError>
    ensures { IfOk result (λ value. view value ≡ array (slots_data slots.now)) }
{
    let mut values = Vec::new(alloc);
    for slot in slots {
        values.push(slot_value(*slot))?;
    }
    Ok(Value::Array(values))
}

/// A slot: the number of its image, or null where it is empty.
fn slot_value(slot: Option<u8>) -> Value
    ensures { view result ≡ slot_data slot }
{
    match slot {
        Some(image) => Value::from(image),
        None => Value::Null,
    }
}

/// The number by which a level is known.
fn level_number(level: Level) -> u8
    ensures { result ≡ level_number_of level }
{
    match level {
        Level::Raid0 => 0,
        Level::Raid5 => 5,
        Level::Raid6 => 6,
    }
}
