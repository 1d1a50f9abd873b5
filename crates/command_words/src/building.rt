//! The commands, from their operands and defaults.
ghost use Rattle.std.specs.Prelude.{◌≡◌, ◌≤◌, ◌<◌, ◌^◌, IfSome, Some, length, nat_lt};
ghost use Rattle.std.specs.List.{list_all};
ghost use Rattle.command_words.specs.Commands.{AreAsked, plain_survey as plain_survey_words, bounds_of, can_move as can_move_with, chunks_or, command_of, delays_or, drops_or, each_or, form_or, large_or, kinds_or, layouts_or, levels_or, lost_or, marks_or, members_or, mirror_in, number_in, patterns_or, places_or, relations_of, sectors_or, set_in, survey_of, syndromes_or, tests_of, unit_of};
ghost use Rattle.command_words.specs.Operands.{AreFitting, value_of};
ghost use Rattle.command_words.specs.Steps.{can_go_on as can_go_on_with, lines_fit};

use crate::command::{Command, Form, MOST_LAYOUTS, MOST_RELATED, RelationWords, SurveyWords, Verb};
use crate::operands::{Operand, find_value};
use crate::table::Name;
use crate::values::Value;
use arrayvec::ArrayVec;
use landmark_rules::MarkTests;
use mark_kinds::{DropAt, Kinds, MOST_DROPS};
use near_mirror::{CopyLayout, Copying, NearSet};
use raid_params::{
    Bounds, Geometry, Level, MOST_CHUNKS, MOST_DELAYS, MOST_LESS_ONE, MOST_LEVELS, MOST_OFFSETS,
    MOST_PATTERNS, MOST_SYNDROMES, Pattern, Syndrome, Wide,
};
use value_text::{LEVELS, PATTERNS, SYNDROMES};

/// The most lines of a page where `size` is not given: few enough to look through.
const DEFAULT_PAGE: u64 = 100;

/// The most lines of all pages of a listing together, since it is kept whole before it is put.
const MOST_LINES: u64 = 4_000_000;

/// The chunks that are tried where `chunks` is not given: from 4 KiB to 1 MiB, which controllers offer.
const CHUNKS: [u64; 9] = [8, 16, 32, 64, 128, 256, 512, 1024, 2048];

/// The places at which the data are tried to begin where `offsets` is not given: at once, after 1 MiB, and
/// where md begins them on large members.
const OFFSETS: [u64; 4] = [0, 2048, 262_144, 264_192];

/// The places at which a file system may begin where `origins` is not given: at once, and after 1 MiB, as in
/// the first partition.
const ORIGINS: [u64; 2] = [0, 2048];

/// The layouts of copies that are tried where `layouts` is not given: that of most mirrors.
const LAYOUTS: [CopyLayout; 1] = [CopyLayout {
    copying: Copying::Near,
    copies: 2,
}];

/// The delays that are tried where `delays` is not given: parity moves with each row.
const DELAYS: [u64; 1] = [1];

/// Offsets that are tried for each image alone are below this: 2^54.
const OWN_OFFSETS_END: u64 = 1 << 54;

/// The command with these operands and `names` words up to the names, unless one is missing that it asks
/// for, a listing becomes too long, or images cannot have offsets of their own.
pub fn build(verb: Verb, operands: &[Operand], names: usize) -> Option<Command>
    requires { AreFitting verb operands.now }
    ensures { result ≡ command_of verb operands.now names }
{
    match verb {
        Verb::Survey if can_move(operands) => Some(Command::Survey(survey(operands, names))),
        Verb::Survey => None,
        Verb::List => list(operands, names),
        Verb::Check => Some(Command::Check {
            set: set(operands)?,
            names,
        }),
        Verb::Map => map(operands, names),
        Verb::Write => Some(Command::Write {
            set: set(operands)?,
            end: number(operands, Name::End),
            names,
        }),
        Verb::Rebuild => Some(Command::Rebuild {
            set: set(operands)?,
            slot: small_number(operands, Name::Slot)?,
            end: number(operands, Name::End),
            names,
        }),
        Verb::Sample => sample(operands, names),
        Verb::Classes => Some(Command::Classes {
            images: small_number(operands, Name::Images)?,
            end: number(operands, Name::End)?,
        }),
        Verb::Mirrors => Some(mirrors(operands, names)),
        Verb::MirrorWrite => Some(Command::MirrorWrite {
            set: mirror(operands)?,
            end: number(operands, Name::End),
            names,
        }),
        Verb::Salvage => salvage(operands, names),
        Verb::Relations => Some(Command::Relations(relations(operands, names))),
    }
}

/// Where a sector of the volume lies.
fn map(operands: &[Operand], names: usize) -> Option<Command>
    ensures { result ≡ command_of Verb.Map operands.now names }
{
    Some(Command::Map {
        set: set(operands)?,
        sector: number(operands, Name::Sector)?,
        end: number(operands, Name::End),
        names,
    })
}

/// An array that is generated. No names follow, so their place is not told.
fn sample(operands: &[Operand], names: usize) -> Option<Command>
    ensures { result ≡ command_of Verb.Sample operands.now names }
{
    Some(Command::Sample {
        number: number(operands, Name::Number)?,
        set: set(operands)?,
        rows: number(operands, Name::Rows)?,
        xfs: marks(operands),
    })
}

/// A page of mirrors.
fn mirrors(operands: &[Operand], names: usize) -> Command
    requires { AreFitting Verb.Mirrors operands.now }
    ensures { Some result ≡ command_of Verb.Mirrors operands.now names }
{
    Command::Mirrors {
        layouts: layouts(operands),
        members: members(operands),
        chunks: chunks(operands),
        offsets: sectors(operands, Name::Offsets, &OFFSETS),
        missing: small_number(operands, Name::Missing).unwrap_or(0),
        foreign: small_number(operands, Name::Foreign).unwrap_or(0),
        badrows: number(operands, Name::Badrows).unwrap_or(0),
        window: number(operands, Name::Window),
        end: number(operands, Name::End),
        from: number(operands, Name::From).unwrap_or(0),
        size: number(operands, Name::Size).unwrap_or(DEFAULT_PAGE),
        span: number(operands, Name::Span).unwrap_or(u64::MAX),
        names,
    }
}

/// The volume of damaged members, or what of it is lost.
fn salvage(operands: &[Operand], names: usize) -> Option<Command>
    ensures { result ≡ command_of Verb.Salvage operands.now names }
{
    Some(Command::Salvage {
        set: set(operands)?,
        lost: lost(operands),
        end: number(operands, Name::End),
        names,
    })
}

/// How the images depend on one another.
fn relations(operands: &[Operand], names: usize) -> RelationWords
    ensures { result ≡ relations_of operands.now names }
{
    RelationWords {
        from: number(operands, Name::From).unwrap_or(0),
        end: number(operands, Name::End),
        step: number(operands, Name::Step),
        offsets: places(operands),
        form: form(operands),
        names,
    }
}

/// A listing, unless it becomes too long.
fn list(operands: &[Operand], names: usize) -> Option<Command>
    ensures { result ≡ command_of Verb.List operands.now names }
{
    let size = number(operands, Name::Size).unwrap_or(DEFAULT_PAGE);
    let pages = number(operands, Name::Pages).unwrap_or(1);
    if size.saturating_mul(pages) > MOST_LINES {
        return None;
    }
    Some(Command::List {
        from: number(operands, Name::From).unwrap_or(0),
        size,
        span: number(operands, Name::Span).unwrap_or(u64::MAX),
        pages,
        form: form(operands),
        names,
    })
}

/// Whether these operands may still be those of a command, whatever operands come: a listing may be short
/// enough, where one of `size` and `pages` that was not given can still be 1, and images may have offsets
/// of their own, where they are to.
pub fn can_go_on(operands: &[Operand]) -> bool
    ensures { result ≡ can_go_on_with operands.now }
{
    both_fit(number(operands, Name::Size), number(operands, Name::Pages)) && can_move(operands)
}

/// Whether images may have offsets of their own, where they are to: none of them is foreign, and no offset
/// is too great.
fn can_move(operands: &[Operand]) -> bool
    ensures { result ≡ can_move_with (value_of Name.Mode operands.now) (value_of Name.Foreign operands.now) (value_of Name.Offsets operands.now) }
{
    !has_own_offsets(operands)
        || (number(operands, Name::Foreign).unwrap_or(0) == 0
            && are_own_offsets(&sectors(operands, Name::Offsets, &OFFSETS)))
}

/// Whether each of the offsets may be that of one image alone.
fn are_own_offsets(offsets: &[u64]) -> bool
    ensures { result ≡ list_all (λ n. nat_lt n (2 ^ 54)) offsets.now }
{
    offsets.iter().all(|offset| *offset < OWN_OFFSETS_END)
}

/// Whether `pages` pages of `size` lines are few enough, as far as they are known.
fn both_fit(size: Option<u64>, pages: Option<u64>) -> bool
    ensures { result ≡ lines_fit size pages }
{
    match size {
        Some(size) => match pages {
            Some(pages) => size.saturating_mul(pages) <= MOST_LINES,
            None => true,
        },
        None => true,
    }
}

/// What `survey` asks for where no operand is given.
#[tactic(auto, using(crate::proofs::Limits::plain_asked), unfolding(crate::specs::Commands::plain_survey))]
pub fn plain_survey() -> SurveyWords
    ensures words { result ≡ plain_survey_words }
    ensures asked { AreAsked result }
{
    survey(&[], 2)
}

/// What a survey is asked for.
fn survey(operands: &[Operand], names: usize) -> SurveyWords
    requires { AreFitting Verb.Survey operands.now }
    ensures { result ≡ survey_of operands.now names }
{
    SurveyWords {
        bounds: bounds(operands),
        end: number(operands, Name::End),
        badrows: number(operands, Name::Badrows).unwrap_or(0),
        window: number(operands, Name::Window),
        tests: tests(operands),
        kinds: kinds(operands),
        drops: drops(operands),
        each: has_own_offsets(operands),
        unit: unit(operands),
        names,
    }
}

/// The parameters to try.
fn bounds(operands: &[Operand]) -> Bounds
    requires { AreFitting Verb.Survey operands.now }
    ensures { result ≡ bounds_of operands.now }
{
    Bounds {
        levels: levels(operands),
        members: members(operands),
        patterns: patterns(operands),
        delays: delays(operands),
        syndromes: syndromes(operands),
        chunks: chunks(operands),
        offsets: sectors(operands, Name::Offsets, &OFFSETS),
        missing: small_number(operands, Name::Missing).unwrap_or(0),
        foreign: small_number(operands, Name::Foreign).unwrap_or(0),
    }
}

/// How the landmarks are to be tested.
fn tests(operands: &[Operand]) -> MarkTests
    ensures { result ≡ tests_of operands.now }
{
    MarkTests {
        origins: sectors(operands, Name::Origins, &ORIGINS),
        misfits: number(operands, Name::Misfits).unwrap_or(0),
        least: number(operands, Name::Least).unwrap_or(1),
    }
}

/// Which landmarks are looked for: the usual ones where `kinds` is not given.
fn kinds(operands: &[Operand]) -> Kinds
    ensures { result ≡ kinds_or (value_of Name.Kinds operands.now) }
{
    if let Some(Value::Landmarks(landmarks)) = find_value(operands, Name::Kinds) {
        Kinds::among(landmarks)
    } else {
        Kinds::usual()
    }
}

/// All where `levels` is not given.
fn levels(operands: &[Operand]) -> ArrayVec<Level, MOST_LEVELS>
    ensures { result ≡ levels_or (value_of Name.Levels operands.now) }
{
    if let Some(Value::Levels(levels)) = find_value(operands, Name::Levels) {
        list_of(levels)
    } else {
        list_of(&LEVELS)
    }
}

/// None where `members` is not given: they depend on the images.
fn members(operands: &[Operand]) -> ArrayVec<u8, MOST_LESS_ONE>
    ensures { result ≡ members_or (value_of Name.Members operands.now) }
{
    if let Some(Value::Members(members)) = find_value(operands, Name::Members) {
        list_of(members)
    } else {
        ArrayVec::new()
    }
}

/// Two near copies where `layouts` is not given.
fn layouts(operands: &[Operand]) -> ArrayVec<CopyLayout, MOST_LAYOUTS>
    ensures { result ≡ layouts_or (value_of Name.Layouts operands.now) }
{
    if let Some(Value::Layouts(layouts)) = find_value(operands, Name::Layouts) {
        list_of(layouts)
    } else {
        list_of(&LAYOUTS)
    }
}

/// All where `patterns` is not given.
fn patterns(operands: &[Operand]) -> ArrayVec<Pattern, MOST_PATTERNS>
    ensures { result ≡ patterns_or (value_of Name.Patterns operands.now) }
{
    if let Some(Value::Patterns(patterns)) = find_value(operands, Name::Patterns) {
        list_of(patterns)
    } else {
        list_of(&PATTERNS)
    }
}

/// One where `delays` is not given: the parity of the layouts of md moves with each row.
fn delays(operands: &[Operand]) -> ArrayVec<u64, MOST_DELAYS>
    ensures { result ≡ delays_or (value_of Name.Delays operands.now) }
{
    if let Some(Value::Delays(delays)) = find_value(operands, Name::Delays) {
        list_of(delays)
    } else {
        list_of(&DELAYS)
    }
}

/// All where `syndromes` is not given.
fn syndromes(operands: &[Operand]) -> ArrayVec<Syndrome, MOST_SYNDROMES>
    ensures { result ≡ syndromes_or (value_of Name.Syndromes operands.now) }
{
    if let Some(Value::Syndromes(syndromes)) = find_value(operands, Name::Syndromes) {
        list_of(syndromes)
    } else {
        list_of(&SYNDROMES)
    }
}

fn chunks(operands: &[Operand]) -> ArrayVec<u64, MOST_CHUNKS>
    ensures { result ≡ chunks_or (value_of Name.Chunks operands.now) }
{
    if let Some(Value::Chunks(chunks)) = find_value(operands, Name::Chunks) {
        list_of(chunks)
    } else {
        list_of(&CHUNKS)
    }
}

/// The places of the operand of this name, or others where it is not given.
fn sectors(operands: &[Operand], name: Name, others: &[u64]) -> ArrayVec<u64, MOST_OFFSETS>
    requires { length others.now ≤ MOST_OFFSETS }
    ensures { result ≡ sectors_or others.now (value_of name operands.now) }
{
    if let Some(Value::Sectors(sectors)) = find_value(operands, name) {
        list_of(sectors)
    } else {
        list_of(others)
    }
}

/// None where `offsets` is not given.
fn places(operands: &[Operand]) -> ArrayVec<u64, MOST_RELATED>
    ensures { result ≡ places_or (value_of Name.Offsets operands.now) }
{
    if let Some(Value::Places(places)) = find_value(operands, Name::Offsets) {
        list_of(places)
    } else {
        ArrayVec::new()
    }
}

fn drops(operands: &[Operand]) -> ArrayVec<DropAt, MOST_DROPS>
    ensures { result ≡ drops_or (value_of Name.Dropped operands.now) }
{
    if let Some(Value::Drops(drops)) = find_value(operands, Name::Dropped) {
        list_of(drops)
    } else {
        ArrayVec::new()
    }
}

fn form(operands: &[Operand]) -> Form
    ensures { result ≡ form_or (value_of Name.Form operands.now) }
{
    if let Some(Value::Form(form)) = find_value(operands, Name::Form) {
        *form
    } else {
        Form::Text
    }
}

/// Whether the text of what is lost is asked for: not where `form` is not given.
fn lost(operands: &[Operand]) -> bool
    ensures { result ≡ lost_or (value_of Name.Form operands.now) }
{
    if let Some(Value::Salvaged(lost)) = find_value(operands, Name::Form) {
        *lost
    } else {
        false
    }
}

/// Whether the landmarks of an XFS file system are made: not where `marks` is not given.
fn marks(operands: &[Operand]) -> bool
    ensures { result ≡ marks_or (value_of Name.Marks operands.now) }
{
    if let Some(Value::Marks(xfs)) = find_value(operands, Name::Marks) {
        *xfs
    } else {
        false
    }
}

/// Whether each image has an offset of its own: not where `mode` is not given.
fn has_own_offsets(operands: &[Operand]) -> bool
    ensures { result ≡ each_or (value_of Name.Mode operands.now) }
{
    if let Some(Value::Mode(each)) = find_value(operands, Name::Mode) {
        *each
    } else {
        false
    }
}

/// The sectors of a block of a partition table: 1 where `logical` is not given.
fn unit(operands: &[Operand]) -> u64
    ensures { result ≡ unit_of (large_or (value_of Name.Logical operands.now)) }
{
    if let Some(Value::Logical(true)) = find_value(operands, Name::Logical) {
        8
    } else {
        1
    }
}

fn set(operands: &[Operand]) -> Option<Wide>
    ensures { result ≡ set_in (value_of Name.Set operands.now) }
{
    if let Some(Value::Set(set)) = find_value(operands, Name::Set) {
        let geo = Geometry {
            head: set.geo.head,
            slots: list_of(&set.geo.slots),
        };
        Some(Wide {
            geo,
            bases: list_of(&set.bases),
        })
    } else {
        None
    }
}

/// The set of a mirror.
fn mirror(operands: &[Operand]) -> Option<NearSet>
    ensures { result ≡ mirror_in (value_of Name.Set operands.now) }
{
    if let Some(Value::Mirror(set)) = find_value(operands, Name::Set) {
        Some(NearSet {
            head: set.head,
            slots: list_of(&set.slots),
        })
    } else {
        None
    }
}

/// The number of the operand of this name.
fn number(operands: &[Operand], name: Name) -> Option<u64>
    ensures { result ≡ number_in (value_of name operands.now) }
{
    if let Some(Value::Number(number)) = find_value(operands, name) {
        Some(*number)
    } else {
        None
    }
}

/// The number of the operand of this name, which takes numbers below 2^8 alone.
fn small_number(operands: &[Operand], name: Name) -> Option<u8>
    requires { IfSome (number_in (value_of name operands.now)) (λ n. n < 2 ^ 8) }
    ensures { result ≡ number_in (value_of name operands.now) }
{
    match number(operands, name) {
        Some(number) => Some(number as u8),
        None => None,
    }
}

/// These values, as a list of their own.
fn list_of<T: Copy + Default, const CAP: usize>(values: &[T]) -> ArrayVec<T, CAP>
    requires { length values.now ≤ CAP }
    ensures { result.items ≡ values.now }
{
    let mut list = ArrayVec::new();
    for value in values {
        list.push(*value);
    }
    list
}
