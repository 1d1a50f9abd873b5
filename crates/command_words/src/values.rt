//! The values of operands, each read from its whole text.
ghost use Rattle.std.specs.Prelude.{◌≡◌, ◌≢◌, ◌≤◌, ℕ, Bool, MatchOption, decimal};
ghost use Rattle.command_words.specs.Operands.{IsValueOf, form_text, logical_text, marks_text, mode_text, salvaged_text, value_text};
ghost use Rattle.command_words.specs.declared.command.Form.{Form as FormOf};
ghost use Rattle.command_words.specs.declared.values.Value.{Value as ValueOf};

use crate::command::{Form, MOST_LAYOUTS, MOST_RELATED};
use crate::layouts::read_layouts;
use crate::table::ValueKind;
use arrayvec::ArrayVec;
use landmark_text::{read_drops, read_groups};
use mark_kinds::{DropAt, GROUP_COUNT, GroupKind, MOST_DROPS};
use near_mirror::{CopyLayout, NearSet, read_near};
use raid_params::{
    Level, MOST_CHUNKS, MOST_DELAYS, MOST_LESS_ONE, MOST_LEVELS, MOST_OFFSETS, MOST_PATTERNS,
    MOST_SYNDROMES, Pattern, Syndrome, Wide,
};
use value_text::{
    read_chunks, read_delays, read_members, read_number, read_places, read_sectors, read_set,
    rising,
};

/// The value of an operand.
#[derive(Drop)]
pub enum Value {
    /// A number.
    Number(u64),
    /// Levels.
    Levels(ArrayVec<Level, MOST_LEVELS>),
    /// Numbers of members.
    Members(ArrayVec<u8, MOST_LESS_ONE>),
    /// Patterns.
    Patterns(ArrayVec<Pattern, MOST_PATTERNS>),
    /// Numbers of rows for which parity stays.
    Delays(ArrayVec<u64, MOST_DELAYS>),
    /// Orders of Q.
    Syndromes(ArrayVec<Syndrome, MOST_SYNDROMES>),
    /// Chunks, in sectors.
    Chunks(ArrayVec<u64, MOST_CHUNKS>),
    /// Places on an image or on the volume, in sectors: as many as a plan may have offsets or origins.
    Sectors(ArrayVec<u64, MOST_OFFSETS>),
    /// A place for each image, in sectors: as many as `relations` takes images.
    Places(ArrayVec<u64, MOST_RELATED>),
    /// Kinds of landmarks.
    Landmarks(ArrayVec<GroupKind, GROUP_COUNT>),
    /// Sectors of images.
    Drops(ArrayVec<DropAt, MOST_DROPS>),
    /// A form of listings.
    Form(Form),
    /// Whether the text of what is lost is asked for. Otherwise it is the volume.
    Salvaged(bool),
    /// Whether the landmarks of an XFS file system are made.
    Marks(bool),
    /// A parameter set.
    Set(Wide),
    /// The parameter set of a mirror.
    Mirror(NearSet),
    /// Layouts of copies.
    Layouts(ArrayVec<CopyLayout, MOST_LAYOUTS>),
    /// Whether each image has an offset of its own.
    Mode(bool),
    /// Whether blocks of partition tables have 4,096 bytes. Otherwise they have 512.
    Logical(bool),
}

/// The value of this kind that the whole text spells.
pub fn read_value(kind: ValueKind, text: &[u8]) -> Option<Value>
    ensures { MatchOption result
        ((value : ValueOf) → IsValueOf value kind → text.now ≢ value_text value)
        (λ value. IsValueOf value kind × (text.now ≡ value_text value)) }
{
    match kind {
        ValueKind::Number { least, most } => Some(Value::Number(number_within(text, least, most)?)),
        ValueKind::Levels => Some(Value::Levels(rising(text)?)),
        ValueKind::Members => Some(Value::Members(read_members(text)?)),
        ValueKind::Patterns => Some(Value::Patterns(rising(text)?)),
        ValueKind::Delays => Some(Value::Delays(read_delays(text)?)),
        ValueKind::Syndromes => Some(Value::Syndromes(rising(text)?)),
        ValueKind::Chunks => Some(Value::Chunks(read_chunks(text)?)),
        ValueKind::Sectors => Some(Value::Sectors(read_sectors(text)?)),
        ValueKind::Places => Some(Value::Places(read_places(text)?)),
        ValueKind::Landmarks => Some(Value::Landmarks(read_groups(text)?)),
        ValueKind::Drops => Some(Value::Drops(read_drops(text)?)),
        ValueKind::Form => Some(Value::Form(read_form(text)?)),
        ValueKind::Salvaged => Some(Value::Salvaged(read_salvaged(text)?)),
        ValueKind::Marks => Some(Value::Marks(read_marks(text)?)),
        ValueKind::Set => Some(Value::Set(read_set(text)?)),
        ValueKind::Mirror => Some(Value::Mirror(read_near(text)?)),
        ValueKind::Layouts => Some(Value::Layouts(read_layouts(text)?)),
        ValueKind::Mode => Some(Value::Mode(read_mode(text)?)),
        ValueKind::Logical => Some(Value::Logical(read_logical(text)?)),
    }
}

/// The number that the text spells, where it lies between these, both included.
fn number_within(text: &[u8], least: u64, most: u64) -> Option<u64>
    ensures { MatchOption result
        ((n : ℕ) → least ≤ n → n ≤ most → text.now ≢ decimal n)
        (λ n. (least ≤ n) × (n ≤ most) × (text.now ≡ decimal n)) }
{
    let number = read_number(text)?;
    if number < least {
        return None;
    }
    if most < number {
        return None;
    }
    Some(number)
}

/// The form of listings.
fn read_form(text: &[u8]) -> Option<Form>
    ensures { MatchOption result ((form : FormOf) → text.now ≢ form_text form) (λ form. text.now ≡ form_text form) }
{
    match text {
        b"text" => Some(Form::Text),
        b"json" => Some(Form::Json),
        _ => None,
    }
}

/// Whether the text of what is lost is asked for.
fn read_salvaged(text: &[u8]) -> Option<bool>
    ensures { MatchOption result ((lost : Bool) → text.now ≢ salvaged_text lost) (λ lost. text.now ≡ salvaged_text lost) }
{
    match text {
        b"data" => Some(false),
        b"lost" => Some(true),
        _ => None,
    }
}

/// Whether the landmarks of an XFS file system are made.
fn read_marks(text: &[u8]) -> Option<bool>
    ensures { MatchOption result ((xfs : Bool) → text.now ≢ marks_text xfs) (λ xfs. text.now ≡ marks_text xfs) }
{
    match text {
        b"none" => Some(false),
        b"xfs" => Some(true),
        _ => None,
    }
}

/// Whether each image has an offset of its own.
fn read_mode(text: &[u8]) -> Option<bool>
    ensures { MatchOption result ((each : Bool) → text.now ≢ mode_text each) (λ each. text.now ≡ mode_text each) }
{
    match text {
        b"common" => Some(false),
        b"each" => Some(true),
        _ => None,
    }
}

/// Whether blocks of partition tables have 4,096 bytes.
fn read_logical(text: &[u8]) -> Option<bool>
    ensures { MatchOption result ((large : Bool) → text.now ≢ logical_text large) (λ large. text.now ≡ logical_text large) }
{
    match text {
        b"512" => Some(false),
        b"4096" => Some(true),
        _ => None,
    }
}
