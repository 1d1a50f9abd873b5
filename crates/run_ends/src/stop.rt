//! Why a run ends without its answer.
ghost use Rattle.std.specs.Prelude.{◌≡◌, ◌≤◌, ◌+◌, ◌++◌, codes, decimal, length};
ghost use Rattle.run_ends.specs.Stops.{kind_text as kind_text_of, near_rule_of, near_value_of, note_of, refusal_notice, rule_of, status_of, value_of};
ghost use Rattle.run_ends.specs.declared.stop.Stop.TheVariants.{OutOfMemory};

use crate::agreement::{Disagreement, Kind};
use arrayvec::ArrayString;
use itoa::Buffer;
use near_mirror::NearRule;
use outside::Memory;
use raid_params::{GeoFault, Placed};

/// A rank asked for, which is past the total.
#[derive(Clone, Copy)]
pub struct RankFault {
    /// The rank that was asked for.
    pub from: u64,
    /// How many ranks there are.
    pub total: u64,
}

/// A sector asked for, which is past the end of the volume.
#[derive(Clone, Copy)]
pub struct SectorFault {
    /// The sector that was asked for.
    pub sector: u64,
    /// The sectors of the volume.
    pub size: u64,
}

/// What is refused. A run is refused before anything is read of the images or put.
#[derive(Clone, Copy)]
pub enum Refusal {
    /// The word of this number, counted from 1: the first with which no command line goes on, or the one after
    /// the last.
    Word(u64),
    /// The line of the plan of this number, counted from 1: the first with which no plan goes on.
    PlanLine(u64),
    /// The source of the plan had more bytes left than a plan may have.
    PlanIsLong,
    /// The line of the list of sets of this number, counted from 1: the first with which no list of sets goes on.
    SetLine(u64),
    /// The source of the list of sets had more bytes left than such a list may have.
    SetsAreLong,
    /// The line of the rescue text of this number, counted from 1: the first with which no rescue text goes on.
    RescueLine(u64),
    /// The source of the rescue text had more bytes left than such a text may have.
    RescueIsLong,
    /// The images disagree with the plan, or with what the command takes.
    Images(Disagreement),
    /// The product has more sets than ranks.
    Many,
    /// The first rank asked for is past the total.
    Cursor(RankFault),
    /// The set breaks this rule.
    Set(GeoFault),
    /// The set has this many offsets, which are not one for each image, or an image stands in no slot.
    Bases(u8),
    /// The set of a mirror breaks this rule.
    Near(NearRule),
    /// The slot is none of the set's, or it holds an image.
    Slot(u8),
    /// The members of a generated array have this many sectors together, which are too many.
    ArraySectors(u64),
    /// The volume of a generated array has this many sectors, which are too few for an XFS.
    VolumeSectors(u64),
    /// The sector asked for is past the end of the volume.
    Sector(SectorFault),
}

/// Why a run ends without its answer.
#[derive(Clone, Copy)]
pub enum Stop {
    /// What was asked for is refused.
    Refused(Refusal),
    /// The images failed.
    ImageFault,
    /// The source failed.
    SourceFault,
    /// The output failed.
    OutFault,
    /// Out of memory.
    OutOfMemory,
}

/// What a stop says.
#[derive(Clone, Copy)]
pub struct Notice {
    /// The status that the program ends with.
    pub status: u8,
    /// The line for the notes, with its line feed.
    pub line: ArrayString<LINE>,
}

/// Room for the longest line, which holds three numbers.
const LINE: usize = 128;

impl From<Memory> for Stop {
    ghost from_gives = { λ _ stop. stop ≡ OutOfMemory };

    fn from(_: Memory) -> Stop {
        Stop::OutOfMemory
    }
}

impl Stop {
    /// The status that the program ends with, and the line for the notes.
    pub fn notice(&self) -> Notice
        ensures status { result.status ≡ status_of self.now }
        ensures line { result.line.bytes ≡ note_of self.now }
    {
        match self {
            Stop::Refused(refusal) => refusal.notice(),
            Stop::ImageFault => says(10, text("reraid: image read fault\n")),
            Stop::SourceFault => says(11, text("reraid: plan read fault\n")),
            Stop::OutFault => says(12, text("reraid: output fault\n")),
            Stop::OutOfMemory => says(20, text("reraid: out of memory\n")),
        }
    }
}

impl Refusal {
    /// The status of each refusal, and its line.
    fn notice(&self) -> Notice
        ensures status { result.status ≡ (refusal_notice self.now).0 }
        ensures line { result.line.bytes ≡ (refusal_notice self.now).1 }
    {
        match self {
            Refusal::Word(number) => says(1, refused_line("reraid: word ", *number)),
            Refusal::PlanLine(number) => says(2, refused_line("reraid: plan line ", *number)),
            Refusal::PlanIsLong => says(3, text("reraid: plan is longer than 4194304 bytes\n")),
            Refusal::SetLine(number) => says(13, refused_line("reraid: set line ", *number)),
            Refusal::SetsAreLong => says(
                3,
                text("reraid: set list is longer than 4194304 bytes\n"),
            ),
            Refusal::RescueLine(number) => says(9, refused_line("reraid: rescue line ", *number)),
            Refusal::RescueIsLong => says(
                3,
                text("reraid: rescue text is longer than 4194304 bytes\n"),
            ),
            Refusal::Images(fault) => says(4, images_line(fault)),
            Refusal::Many => says(
                5,
                text("reraid: the product has more than 18446744073709551615 sets\n"),
            ),
            Refusal::Cursor(fault) => says(6, cursor_line(fault)),
            Refusal::Set(fault) => says(7, rule_line(rule(fault), value(fault))),
            Refusal::Near(fault) => says(7, rule_line(near_rule(fault), near_value(fault))),
            Refusal::Slot(slot) => says(7, rule_line(9, *slot as u64)),
            Refusal::ArraySectors(sectors) => says(7, rule_line(10, *sectors)),
            Refusal::VolumeSectors(sectors) => says(7, rule_line(11, *sectors)),
            Refusal::Bases(count) => says(7, rule_line(12, *count as u64)),
            Refusal::Sector(fault) => says(8, sector_line(fault)),
        }
    }
}

/// A status with its line.
fn says(status: u8, line: ArrayString<LINE>) -> Notice
    ensures { (result.status ≡ status) × (result.line.bytes ≡ line.bytes) }
{
    Notice { status, line }
}

/// A line of a fixed text, which is shorter than the room.
fn text(line: &str) -> ArrayString<LINE>
    requires { length line.now ≤ 128 }
    ensures { result.bytes ≡ line.now }
{
    let mut room = ArrayString::new();
    room.push_str(line);
    room
}

/// The line that says from where on words, a plan, a list of sets or a rescue text are not understood.
fn refused_line(what: &str, number: u64) -> ArrayString<LINE>
    requires { length what.now ≤ 20 }
    ensures { result.bytes ≡ what.now ++ decimal number ++ codes " is not understood\n" }
{
    let mut line = text(what);
    push_number(&mut line, number);
    line.push_str(" is not understood\n");
    line
}

/// The line that says how the images disagree.
fn images_line(fault: &Disagreement) -> ArrayString<LINE>
    ensures { result.bytes ≡ (refusal_notice (Refusal.Images fault.now)).1 }
{
    let mut line = kind_text(fault.kind);
    line.push_str(" given ");
    push_number(&mut line, fault.given);
    line.push_str(" planned ");
    push_number(&mut line, fault.planned);
    line.push_str("\n");
    line
}

/// The beginning of the line, up to what disagrees.
fn kind_text(kind: Kind) -> ArrayString<LINE>
    ensures text { result.bytes ≡ codes "reraid: images: " ++ kind_text_of kind }
    ensures short { length result.bytes ≤ 43 }
{
    match kind {
        Kind::Count => text("reraid: images: count"),
        Kind::Length(image) => numbered("reraid: images: length ", image),
        Kind::Long(image) => numbered("reraid: images: long ", image),
        Kind::End => text("reraid: images: end"),
        Kind::Offsets => text("reraid: images: offsets"),
        Kind::Rows => text("reraid: images: rows"),
    }
}

/// The beginning of the line for an image.
fn numbered(what: &str, image: u8) -> ArrayString<LINE>
    requires { length what.now ≤ 23 }
    ensures text { result.bytes ≡ what.now ++ decimal image }
    ensures short { length result.bytes ≤ 43 }
{
    let mut line = text(what);
    push_number(&mut line, image as u64);
    line
}

/// The line that says how far the cursor is past.
fn cursor_line(fault: &RankFault) -> ArrayString<LINE>
    ensures { result.bytes ≡ (refusal_notice (Refusal.Cursor fault.now)).1 }
{
    let mut line = text("reraid: cursor ");
    push_number(&mut line, fault.from);
    line.push_str(" is past ");
    push_number(&mut line, fault.total);
    line.push_str("\n");
    line
}

/// The line of a broken rule.
fn rule_line(rule: u8, value: u64) -> ArrayString<LINE>
    ensures { result.bytes ≡ codes "reraid: set rule " ++ decimal rule ++ codes " value " ++ decimal value ++ codes "\n" }
{
    let mut line = text("reraid: set rule ");
    push_number(&mut line, rule as u64);
    line.push_str(" value ");
    push_number(&mut line, value);
    line.push_str("\n");
    line
}

/// The line that says how far the sector is past.
fn sector_line(fault: &SectorFault) -> ArrayString<LINE>
    ensures { result.bytes ≡ (refusal_notice (Refusal.Sector fault.now)).1 }
{
    let mut line = text("reraid: sector ");
    push_number(&mut line, fault.sector);
    line.push_str(" of ");
    push_number(&mut line, fault.size);
    line.push_str("\n");
    line
}

/// Appends a number in decimal.
fn push_number(line: &mut ArrayString<LINE>, number: u64)
    requires { length line.old.bytes + 20 ≤ 128 }
    ensures bytes { line.new.bytes ≡ line.old.bytes ++ decimal number }
    ensures short { length line.new.bytes ≤ length line.old.bytes + 20 }
{
    let mut buffer = Buffer::new();
    line.push_str(buffer.format(number));
}

/// The number of a broken rule.
fn rule(fault: &GeoFault) -> u8
    ensures { result ≡ rule_of fault.now }
{
    match fault {
        GeoFault::Members(_) => 1,
        GeoFault::Pattern(_) => 2,
        GeoFault::Syndrome(_) => 3,
        GeoFault::Chunk(_) => 4,
        GeoFault::Image(_) => 5,
        GeoFault::Repeat(_) => 6,
        GeoFault::Missing(_) => 7,
        GeoFault::NoRow(_) => 8,
        GeoFault::Delay(_) => 13,
    }
}

/// The value that breaks a rule; a pattern and an order of Q by their places, counted from 0.
fn value(fault: &GeoFault) -> u64
    ensures { result ≡ value_of fault.now }
{
    match fault {
        GeoFault::Members(number)
        | GeoFault::Image(number)
        | GeoFault::Repeat(number)
        | GeoFault::Missing(number) => *number as u64,
        GeoFault::Pattern(pattern) => pattern.place(),
        GeoFault::Syndrome(syndrome) => syndrome.place(),
        GeoFault::Chunk(number) | GeoFault::NoRow(number) | GeoFault::Delay(number) => *number,
    }
}

/// The number of a broken rule of mirrors, in the order of these rules.
fn near_rule(fault: &NearRule) -> u8
    ensures { result ≡ near_rule_of fault.now }
{
    match fault {
        NearRule::Members(_) => 21,
        NearRule::Chunk(_) => 22,
        NearRule::Image(_) => 23,
        NearRule::Repeat(_) => 24,
        NearRule::Missing(_) | NearRule::NoCopy(_) => 25,
        NearRule::NoRow(_) => 26,
    }
}

/// The value that breaks a rule of mirrors.
fn near_value(fault: &NearRule) -> u64
    ensures { result ≡ near_value_of fault.now }
{
    match fault {
        NearRule::Members(number)
        | NearRule::Image(number)
        | NearRule::Repeat(number)
        | NearRule::Missing(number) => *number as u64,
        NearRule::Chunk(number) | NearRule::NoRow(number) | NearRule::NoCopy(number) => *number,
    }
}
