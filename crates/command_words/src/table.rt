//! The operands: how they are named, what values they take, and which command takes which.
ghost use Rattle.std.specs.Prelude.{◌≡◌};
ghost use Rattle.command_words.specs.Operands.{form_kind as form_kind_of, kind_of, most_from as most_from_of, most_missing as most_missing_of, name_text, offsets_kind as offsets_kind_of, operands_of, set_kind as set_kind_of};
ghost use Rattle.command_words.specs.Commands.{takes_names as verb_takes_names};

use crate::command::Verb;
use raid_params::{MOST, MOST_MISSING, SECTORS_END};

/// The most lines of a page.
pub const LARGEST_PAGE: u64 = 1_000_000;

/// The most pages of a listing.
pub const MOST_PAGES: u64 = 1_000_000;

/// The most rows of chunks of a generated array.
pub const MOST_ROWS: u64 = 65_536;

/// The most operands that a command takes.
pub const MOST_OPERANDS: usize = 19;

/// The most empty slots of a mirror: all but one. Which of them leave each chunk a copy depends on the layout.
const MOST_MISSING_OF_MIRRORS: u64 = MOST as u64 - 1;

/// The name of an operand.
#[derive(Clone, Copy)]
pub enum Name {
    /// The levels to try.
    Levels,
    /// The numbers of members to try.
    Members,
    /// The patterns to try.
    Patterns,
    /// The numbers of rows to try for which parity stays.
    Delays,
    /// The orders of Q to try.
    Syndromes,
    /// The chunks to try, in sectors.
    Chunks,
    /// The image sectors to try at which the data may begin.
    Offsets,
    /// The volume sectors at which a file system may begin.
    Origins,
    /// The most empty slots.
    Missing,
    /// The most images that stand in no slot.
    Foreign,
    /// The most tested sector rows that may be unsound.
    Badrows,
    /// The most marks of a group that may lie where their rules do not let them.
    Misfits,
    /// The fewest marks of a group that have to lie where their rules let them.
    Least,
    /// The member sector from which on none is tested.
    Window,
    /// The image sector after the last one that may belong to the array.
    End,
    /// Which landmarks are looked for.
    Kinds,
    /// The sectors that are passed over.
    Dropped,
    /// The first rank of a listing.
    From,
    /// The most lines of a page.
    Size,
    /// The most ranks that a page goes through.
    Span,
    /// The most pages.
    Pages,
    /// How a listing is written, or what is salvaged.
    Form,
    /// A parameter set.
    Set,
    /// A sector of the volume.
    Sector,
    /// A slot of the array.
    Slot,
    /// The number from which an array is generated.
    Number,
    /// The number of rows of chunks of a generated array.
    Rows,
    /// Which landmarks a generated array gets.
    Marks,
    /// How many images listed sets are of.
    Images,
    /// Whether all images of a set share one offset, or each has its own.
    Mode,
    /// The bytes of a block of a partition table.
    Logical,
    /// How many rows lie from one that is looked at to the next.
    Step,
    /// The layouts of copies to try.
    Layouts,
}

/// What values an operand takes. Lists rise strictly.
#[derive(Clone, Copy)]
pub enum ValueKind {
    /// A number between these two, both included.
    Number {
        /// The smallest number.
        least: u64,
        /// The largest number.
        most: u64,
    },
    /// Levels.
    Levels,
    /// Numbers of members.
    Members,
    /// Patterns.
    Patterns,
    /// Numbers of rows for which parity stays.
    Delays,
    /// Orders of Q.
    Syndromes,
    /// Chunks.
    Chunks,
    /// Places on an image or on the volume.
    Sectors,
    /// A place for each image, in the order of the images: these need not rise.
    Places,
    /// Kinds of landmarks.
    Landmarks,
    /// Sectors of images.
    Drops,
    /// A form of listings.
    Form,
    /// What is salvaged: the volume, or the text of what is lost.
    Salvaged,
    /// The landmarks of a generated array.
    Marks,
    /// A parameter set.
    Set,
    /// The parameter set of a mirror.
    Mirror,
    /// Layouts of copies.
    Layouts,
    /// Whether each image has an offset of its own.
    Mode,
    /// The bytes of a block, 512 or 4,096.
    Logical,
}

static SURVEY_OPERANDS: [Name; MOST_OPERANDS] = [
    Name::Levels,
    Name::Members,
    Name::Patterns,
    Name::Delays,
    Name::Syndromes,
    Name::Chunks,
    Name::Offsets,
    Name::Origins,
    Name::Missing,
    Name::Foreign,
    Name::Badrows,
    Name::Misfits,
    Name::Least,
    Name::Window,
    Name::End,
    Name::Kinds,
    Name::Dropped,
    Name::Mode,
    Name::Logical,
];

static LIST_OPERANDS: [Name; 5] = [Name::From, Name::Size, Name::Span, Name::Pages, Name::Form];

static CHECK_OPERANDS: [Name; 1] = [Name::Set];

static MAP_OPERANDS: [Name; 3] = [Name::Set, Name::Sector, Name::End];

static WRITE_OPERANDS: [Name; 2] = [Name::Set, Name::End];

static REBUILD_OPERANDS: [Name; 3] = [Name::Set, Name::Slot, Name::End];

static SAMPLE_OPERANDS: [Name; 4] = [Name::Number, Name::Set, Name::Rows, Name::Marks];

static CLASSES_OPERANDS: [Name; 2] = [Name::Images, Name::End];

static MIRRORS_OPERANDS: [Name; 12] = [
    Name::Layouts,
    Name::Members,
    Name::Chunks,
    Name::Offsets,
    Name::Missing,
    Name::Foreign,
    Name::Badrows,
    Name::Window,
    Name::End,
    Name::From,
    Name::Size,
    Name::Span,
];

static MIRROR_WRITE_OPERANDS: [Name; 2] = [Name::Set, Name::End];

static SALVAGE_OPERANDS: [Name; 3] = [Name::Set, Name::Form, Name::End];

static RELATIONS_OPERANDS: [Name; 5] = [
    Name::From,
    Name::End,
    Name::Step,
    Name::Offsets,
    Name::Form,
];

impl Verb {
    /// The names of the operands that the command takes.
    pub fn operands(&self) -> &'static [Name]
        ensures { result.now ≡ operands_of self.now }
    {
        match self {
            Verb::Survey => &SURVEY_OPERANDS,
            Verb::List => &LIST_OPERANDS,
            Verb::Check => &CHECK_OPERANDS,
            Verb::Map => &MAP_OPERANDS,
            Verb::Write => &WRITE_OPERANDS,
            Verb::Rebuild => &REBUILD_OPERANDS,
            Verb::Sample => &SAMPLE_OPERANDS,
            Verb::Classes => &CLASSES_OPERANDS,
            Verb::Mirrors => &MIRRORS_OPERANDS,
            Verb::MirrorWrite => &MIRROR_WRITE_OPERANDS,
            Verb::Salvage => &SALVAGE_OPERANDS,
            Verb::Relations => &RELATIONS_OPERANDS,
        }
    }

    /// The largest value of the command's `missing`.
    fn most_missing(&self) -> u64
        ensures { result ≡ most_missing_of self.now }
    {
        match self {
            Verb::Mirrors => MOST_MISSING_OF_MIRRORS,
            _ => MOST_MISSING as u64,
        }
    }

    /// The largest value of the command's `from`: a rank, or a row, which lies where a sector may.
    fn most_from(&self) -> u64
        ensures { result ≡ most_from_of self.now }
    {
        match self {
            Verb::Relations => SECTORS_END - 1,
            _ => u64::MAX,
        }
    }

    /// What the command's `offsets` are: places to try, or one for each image.
    fn offsets_kind(&self) -> ValueKind
        ensures { result ≡ offsets_kind_of self.now }
    {
        match self {
            Verb::Relations => ValueKind::Places,
            _ => ValueKind::Sectors,
        }
    }

    /// What the command's `set` is: a set, or the set of a mirror.
    fn set_kind(&self) -> ValueKind
        ensures { result ≡ set_kind_of self.now }
    {
        match self {
            Verb::MirrorWrite => ValueKind::Mirror,
            _ => ValueKind::Set,
        }
    }

    /// What the command's `form` is: how a listing is written, or what is salvaged.
    fn form_kind(&self) -> ValueKind
        ensures { result ≡ form_kind_of self.now }
    {
        match self {
            Verb::Salvage => ValueKind::Salvaged,
            _ => ValueKind::Form,
        }
    }

    /// Whether names of images may follow the `--` of the command.
    pub fn takes_names(&self) -> bool
        ensures { result ≡ verb_takes_names self.now }
    {
        !matches!(self, Verb::Sample | Verb::Classes)
    }
}

impl Name {
    /// How the name is spelled.
    pub fn text(&self) -> &'static str
        ensures { result.now ≡ name_text self.now }
    {
        match self {
            Name::Levels => "levels",
            Name::Members => "members",
            Name::Patterns => "patterns",
            Name::Delays => "delays",
            Name::Syndromes => "syndromes",
            Name::Chunks => "chunks",
            Name::Offsets => "offsets",
            Name::Origins => "origins",
            Name::Missing => "missing",
            Name::Foreign => "foreign",
            Name::Badrows => "badrows",
            Name::Misfits => "misfits",
            Name::Least => "least",
            Name::Window => "window",
            Name::End => "end",
            Name::Kinds => "kinds",
            Name::Dropped => "drop",
            Name::From => "from",
            Name::Size => "size",
            Name::Span => "span",
            Name::Pages => "pages",
            Name::Form => "form",
            Name::Set => "set",
            Name::Sector => "sector",
            Name::Slot => "slot",
            Name::Number => "number",
            Name::Rows => "rows",
            Name::Marks => "marks",
            Name::Images => "images",
            Name::Mode => "mode",
            Name::Logical => "logical",
            Name::Step => "step",
            Name::Layouts => "layouts",
        }
    }

    /// What values the operand takes, as one of this command.
    pub fn kind(&self, verb: Verb) -> ValueKind
        ensures { result ≡ kind_of verb self.now }
    {
        match self {
            Name::Levels => ValueKind::Levels,
            Name::Members => ValueKind::Members,
            Name::Patterns => ValueKind::Patterns,
            Name::Delays => ValueKind::Delays,
            Name::Syndromes => ValueKind::Syndromes,
            Name::Chunks => ValueKind::Chunks,
            Name::Offsets => verb.offsets_kind(),
            Name::Origins => ValueKind::Sectors,
            Name::Missing => number(0, verb.most_missing()),
            Name::Foreign => number(0, MOST as u64),
            Name::Badrows | Name::Misfits | Name::Least | Name::End => number(0, SECTORS_END - 1),
            Name::Window | Name::Step => number(1, SECTORS_END - 1),
            Name::Kinds => ValueKind::Landmarks,
            Name::Dropped => ValueKind::Drops,
            Name::From => number(0, verb.most_from()),
            Name::Sector | Name::Number => number(0, u64::MAX),
            Name::Size => number(1, LARGEST_PAGE),
            Name::Span => number(1, u64::MAX),
            Name::Pages => number(1, MOST_PAGES),
            Name::Form => verb.form_kind(),
            Name::Set => verb.set_kind(),
            Name::Slot => number(0, MOST as u64 - 1),
            Name::Rows => number(1, MOST_ROWS),
            Name::Marks => ValueKind::Marks,
            Name::Images => number(1, MOST as u64),
            Name::Mode => ValueKind::Mode,
            Name::Logical => ValueKind::Logical,
            Name::Layouts => ValueKind::Layouts,
        }
    }
}

/// Numbers between these two, both included.
fn number(least: u64, most: u64) -> ValueKind
    ensures { result ≡ ValueKind.Number least most }
{
    ValueKind::Number { least, most }
}
