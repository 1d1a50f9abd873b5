//! The names of levels, patterns, orders of Q, slots and numbers.
ghost use Rattle.std.specs.Prelude.{◌≡◌, ◌<◌, ◌^◌, ◌≢◌, ℕ, List, decimal, All, IfSome, MatchOption};
ghost use Rattle.raid_params.specs.declared.limits.TheConstants.{MOST as MOST_IMAGES};
ghost use Rattle.value_text.specs.Spelling.{level_name, pattern_name as pattern_spelling, syndrome_name as syndrome_spelling, slot_name};
ghost use Rattle.value_text.specs.NameLaws.{in_lists, level_law, pattern_law, syndrome_law, byte_law, number_law, slot_law};

use crate::number::read_number;
use crate::spelled::{Field, Spelled};
use crate::text::{Text, add_number};
use outside::Memory;
use raid_params::{Level, MOST, MOST_LEVELS, MOST_PATTERNS, MOST_SYNDROMES, Pattern, Syndrome};

/// All levels, in their order.
pub const LEVELS: [Level; MOST_LEVELS] = [Level::Raid0, Level::Raid5, Level::Raid6];

/// All patterns, in their order.
pub const PATTERNS: [Pattern; MOST_PATTERNS] = [
    Pattern::Plain,
    Pattern::La,
    Pattern::Ra,
    Pattern::Ls,
    Pattern::Rs,
    Pattern::ParityFirst,
    Pattern::ParityLast,
    Pattern::NRestart,
    Pattern::NContinue,
    Pattern::La6,
    Pattern::Ra6,
    Pattern::Ls6,
    Pattern::Rs6,
    Pattern::ParityFirst6,
];

/// All orders of Q, in their order.
pub const SYNDROMES: [Syndrome; MOST_SYNDROMES] = [
    Syndrome::NoQ,
    Syndrome::AfterQ,
    Syndrome::ByData,
    Syndrome::BySlot,
];

/// A value that is one of a few, each with a name.
pub(crate) trait Named: Copy + Drop {
    ghost called: { Self → List ℕ };

    /// Its name.
    fn name(self) -> &'static str
        ensures { result.now ≡ called self };
}

/// The first of these values whose name is the whole text.
pub(crate) fn find_named<T: Named>(values: &[T], text: &[u8]) -> Option<T>
    ensures { MatchOption result (All (λ value. text.now ≢ T.called value) values.now) (λ value. text.now ≡ T.called value) }
{
    for value in values {
        if value.name().as_bytes() == text {
            return Some(*value);
        }
    }
    None
}

impl Named for Level {
    ghost called = { level_name };

    fn name(self) -> &'static str {
        match self {
            Level::Raid0 => "0",
            Level::Raid5 => "5",
            Level::Raid6 => "6",
        }
    }
}

impl Spelled for Level {
    ghost name = { level_name };

    ghost IsSpelled = { λ level. Unit {0} };

    #[tactic(auto, using(crate::proofs::AllValues::any_level))]
    fn read(text: &[u8]) -> Option<Level> {
        find_named(&LEVELS, text)
    }

    ghost law = { in_lists level_name (λ level. Unit {0}) level_law };
}

impl Field for Level {
    fn add_to(&self, text: &mut Text) -> Result<(), Memory> {
        text.extend_from_slice(self.name().as_bytes())
    }

    ghost law = { level_law };
}

impl Named for Pattern {
    ghost called = { pattern_spelling };

    fn name(self) -> &'static str {
        pattern_name(self)
    }
}

impl Spelled for Pattern {
    ghost name = { pattern_spelling };

    ghost IsSpelled = { λ pattern. Unit {0} };

    #[tactic(auto, using(crate::proofs::AllValues::any_pattern))]
    fn read(text: &[u8]) -> Option<Pattern> {
        find_named(&PATTERNS, text)
    }

    ghost law = { in_lists pattern_spelling (λ pattern. Unit {0}) pattern_law };
}

impl Field for Pattern {
    fn add_to(&self, text: &mut Text) -> Result<(), Memory> {
        text.extend_from_slice(self.name().as_bytes())
    }

    ghost law = { pattern_law };
}

/// The name of a pattern.
pub fn pattern_name(pattern: Pattern) -> &'static str
    ensures { result.now ≡ pattern_spelling pattern }
{
    match pattern {
        Pattern::Plain => "plain",
        Pattern::La => "la",
        Pattern::Ra => "ra",
        Pattern::Ls => "ls",
        Pattern::Rs => "rs",
        Pattern::ParityFirst => "parity-first",
        Pattern::ParityLast => "parity-last",
        Pattern::NRestart => "n-restart",
        Pattern::NContinue => "n-continue",
        Pattern::La6 => "la-6",
        Pattern::Ra6 => "ra-6",
        Pattern::Ls6 => "ls-6",
        Pattern::Rs6 => "rs-6",
        Pattern::ParityFirst6 => "parity-first-6",
    }
}

impl Named for Syndrome {
    ghost called = { syndrome_spelling };

    fn name(self) -> &'static str {
        syndrome_name(self)
    }
}

impl Spelled for Syndrome {
    ghost name = { syndrome_spelling };

    ghost IsSpelled = { λ syndrome. Unit {0} };

    #[tactic(auto, using(crate::proofs::AllValues::any_syndrome))]
    fn read(text: &[u8]) -> Option<Syndrome> {
        find_named(&SYNDROMES, text)
    }

    ghost law = { in_lists syndrome_spelling (λ syndrome. Unit {0}) syndrome_law };
}

impl Field for Syndrome {
    fn add_to(&self, text: &mut Text) -> Result<(), Memory> {
        text.extend_from_slice(self.name().as_bytes())
    }

    ghost law = { syndrome_law };
}

/// The name of an order of Q.
pub fn syndrome_name(syndrome: Syndrome) -> &'static str
    ensures { result.now ≡ syndrome_spelling syndrome }
{
    match syndrome {
        Syndrome::NoQ => "none",
        Syndrome::AfterQ => "after-q",
        Syndrome::ByData => "by-data",
        Syndrome::BySlot => "by-slot",
    }
}

impl Spelled for u64 {
    ghost name = { decimal };

    ghost IsSpelled = { λ number. number < 2 ^ 64 };

    fn read(text: &[u8]) -> Option<u64> {
        read_number(text)
    }

    ghost law = { in_lists decimal (λ number. number < 2 ^ 64) number_law };
}

impl Field for u64 {
    fn add_to(&self, text: &mut Text) -> Result<(), Memory> {
        add_number(text, *self)
    }

    ghost law = { number_law };
}

impl Spelled for u8 {
    ghost name = { decimal };

    ghost IsSpelled = { λ number. number < 2 ^ 8 };

    fn read(text: &[u8]) -> Option<u8> {
        u8::try_from(read_number(text)?).ok()
    }

    ghost law = { in_lists decimal (λ number. number < 2 ^ 8) byte_law };
}

impl Field for u8 {
    fn add_to(&self, text: &mut Text) -> Result<(), Memory> {
        add_number(text, u64::from(*self))
    }

    ghost law = { byte_law };
}

/// A slot: the number of its image, or a dash.
impl Spelled for Option<u8> {
    ghost name = { slot_name };

    ghost IsSpelled = { λ slot. IfSome slot (λ image. image < MOST_IMAGES) };

    fn read(text: &[u8]) -> Option<Option<u8>> {
        match text {
            b"-" => Some(None),
            _ => Some(Some(read_image(text)?)),
        }
    }

    ghost law = { in_lists slot_name (λ slot. IfSome slot (λ image. image < MOST_IMAGES)) slot_law };
}

impl Field for Option<u8> {
    fn add_to(&self, text: &mut Text) -> Result<(), Memory> {
        match self {
            None => text.push(b'-'),
            Some(image) => image.add_to(text),
        }
    }

    ghost law = { slot_law };
}

/// The number of an image that the whole text spells.
fn read_image(text: &[u8]) -> Option<u8>
    ensures { MatchOption result ((image : ℕ) → image < MOST → text.now ≢ decimal image) (λ image. (image < MOST) × (text.now ≡ decimal image)) }
{
    let image = u8::read(text)?;
    if usize::from(image) < MOST {
        Some(image)
    } else {
        None
    }
}
