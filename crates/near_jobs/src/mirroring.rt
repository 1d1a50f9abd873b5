//! The command `mirrors`.
ghost use Rattle.std.specs.Prelude.{◌≡◌, ◌≤◌, ◌<◌, ◌^◌, ◌++◌, All, IfErr, IfOk, IfSome, None, OnOk, codes, length, min};
ghost use Rattle.std.specs.List.{flat_map};
ghost use Rattle.outside.specs.Attached.{told_all};
ghost use Rattle.outside.specs.Seen.{OnlyReads};
ghost use Rattle.outside.specs.Streams.{Stream};
ghost use Rattle.near_mirror.specs.Words.{near_line as near_line_of};
ghost use Rattle.near_search.specs.Asks.{HasImages, IsNearAsk};
ghost use Rattle.run_ends.specs.Jobs.{Answers, Does, Orders, Refuses, around, is_cut, named, stream};
ghost use Rattle.run_ends.specs.Printing.{share_line};
ghost use Rattle.near_jobs.specs.Mirroring.{AreMirrorWords, EndsMirrors, ask_of as ask_of_words, mirrors_job, mirrors_text, page_reads, product_refusal};

use arrayvec::ArrayVec;
use asked_values::{members_for, window_for};
use near_mirror::{CopyLayout, near_line};
use near_search::{MOST_LAYOUTS, NearAsk, NearFault, NearLine, NearPage, near_page};
use outside::{Images, MOST_ATTACHED, Memory, Sink};
use raid_params::{MOST, MOST_CHUNKS, MOST_LESS_ONE, MOST_OFFSETS};
use run_ends::{RankFault, Refusal, Stop, add_share, end_of, limits_fault, print};
use std::alloc::Global;
use value_text::Text;

/// What the words of `mirrors` ask.
#[derive(Drop)]
pub struct MirrorWords {
    /// The layouts to try.
    pub layouts: ArrayVec<CopyLayout, MOST_LAYOUTS>,
    /// The numbers of members to try, or none for as many as there are images.
    pub members: ArrayVec<u8, MOST_LESS_ONE>,
    /// The chunks to try, in sectors.
    pub chunks: ArrayVec<u64, MOST_CHUNKS>,
    /// The image sectors to try at which the data of each member may begin.
    pub offsets: ArrayVec<u64, MOST_OFFSETS>,
    /// The most empty slots.
    pub missing: u8,
    /// The most images that stand in no slot.
    pub foreign: u8,
    /// The most tested sectors that may be torn, over each two of their copies.
    pub badrows: u64,
    /// The most member sectors of each slot that are tested, or None for all.
    pub window: Option<u64>,
    /// The image sector at which the members end, or None for the shortest image's end.
    pub end: Option<u64>,
    /// The first rank.
    pub from: u64,
    /// The most lines.
    pub size: u64,
    /// The most ranks.
    pub span: u64,
}

/// Prints a page of the mirrors that pass. The text is made before any of it is put, so only a fault of the output leaves a part
/// of it. `names` is the number of images.
#[inline(never)]
pub fn mirrors<I: Images, K: Sink>(
    alloc: Global,
    images: &mut I,
    names: usize,
    asked: MirrorWords,
    out: &mut K,
) -> Result<(), Stop>
    requires attached { length (I.seen images.old).attached ≡ min names MOST_ATTACHED }
    requires small { All (λ image. image.sectors < 2 ^ 55) (I.seen images.old).attached }
    requires asked { AreMirrorWords asked }
    ensures does { (source : Stream) → Does (mirrors_job asked) (named names (I.seen images.old).attached)
        (around (I.seen images.old) source) (around (I.seen images.new) source)
        (stream (K.gained out.old) (K.faults out.old)) (stream (K.gained out.new) (K.faults out.new)) result }
    ensures kept { (I.seen images.new).attached ≡ (I.seen images.old).attached }
{
    print(out, answer(alloc, images, names, asked))
}

/// The text of `mirrors`, or why there is none.
fn answer<I: Images>(
    alloc: Global,
    images: &mut I,
    names: usize,
    asked: MirrorWords,
) -> Result<Text, Stop>
    requires attached { length (I.seen images.old).attached ≡ min names MOST_ATTACHED }
    requires small { All (λ image. image.sectors < 2 ^ 55) (I.seen images.old).attached }
    requires asked { AreMirrorWords asked }
    ensures answers { (source : Stream) → Answers (mirrors_job asked) (named names (I.seen images.old).attached)
        (around (I.seen images.old) source) (around (I.seen images.new) source) result }
    ensures kept { (I.seen images.new).attached ≡ (I.seen images.old).attached }
{
    if let Some(fault) = limits_fault(images, names, asked.end) {
        return Err(Stop::Refused(Refusal::Images(fault)));
    }
    let end = end_of(images, names, asked.end);
    let (from, size, span) = (asked.from, asked.size, asked.span);
    let ask = ask_of(asked, names, end);
    page_lines(alloc, images, &ask, from, size, span)
}

/// The text of a page, or why there is none.
fn page_lines<I: Images>(
    alloc: Global,
    images: &mut I,
    ask: &NearAsk,
    from: u64,
    size: u64,
    span: u64,
) -> Result<Text, Stop>
    requires ask { IsNearAsk ask.now }
    requires images { HasImages ask.now (I.seen images.old).attached }
    requires size { 1 ≤ size }
    ensures text { IfOk result (λ text. IfSome (told_all (I.seen images.old).attached) (λ bytes. text ≡ mirrors_text bytes (length (I.seen images.old).attached) ask.now from size span)) }
    ensures refuses { Refuses (product_refusal (length (I.seen images.old).attached) ask.now from) result }
    ensures order { Orders (product_refusal (length (I.seen images.old).attached) ask.now from) (I.seen images.old).sectors_read (I.seen images.new).sectors_read None None result }
    ensures early { IfErr result (EndsMirrors (I.seen images.old) (I.seen images.new)) }
    ensures reads { OnlyReads (I.seen images.old) (I.seen images.new)
        (page_reads (told_all (I.seen images.old).attached) (length (I.seen images.old).attached) ask.now from size span (is_cut result)) }
    ensures quiet { OnOk result ((I.seen images.new).faults ≡ (I.seen images.old).faults) }
{
    match near_page(alloc, images, ask, from, size, span) {
        Ok(page) => Ok(page_text(alloc, &page)?),
        Err(NearFault::Many) => Err(Stop::Refused(Refusal::Many)),
        Err(NearFault::Cursor { from, total }) => Err(Stop::Refused(Refusal::Cursor(RankFault {
            from,
            total,
        }))),
        Err(NearFault::ReadFault) => Err(Stop::ImageFault),
        Err(NearFault::Memory) => Err(Stop::OutOfMemory),
    }
}

/// The lines of a page, and where the next one begins.
fn page_text(alloc: Global, page: &NearPage) -> Result<Text, Memory>
    ensures { IfOk result (λ text. text ≡ flat_map (λ line. near_line_of line.rank line.set) page.now.lines ++ share_line (codes "next ") page.now.next page.now.total) }
{
    let mut text = Text::new(alloc);
    add_lines(&mut text, alloc, page.lines.as_slice())?;
    add_share(&mut text, b"next ", page.next, page.total)?;
    Ok(text)
}

/// Appends lines.
fn add_lines(text: &mut Text, alloc: Global, lines: &[NearLine]) -> Result<(), Memory>
    ensures { OnOk result (text.new ≡ text.old ++ flat_map (λ line. near_line_of line.rank line.set) lines.now) }
{
    for line in lines {
        let own = near_line(alloc, line.rank, &line.set)?;
        text.extend_from_slice(own.as_slice())?;
    }
    Ok(())
}

/// What the words ask of a search over `names` images, whose members end before the image sector `end`.
fn ask_of(asked: MirrorWords, names: usize, end: u64) -> NearAsk
    requires names { names ≤ MOST }
    ensures { result ≡ ask_of_words asked names end }
{
    NearAsk {
        layouts: asked.layouts,
        members: members_for(asked.members.as_slice(), names),
        chunks: asked.chunks,
        offsets: asked.offsets,
        missing: asked.missing,
        foreign: asked.foreign,
        badrows: asked.badrows,
        window: window_for(asked.window, end),
        end,
    }
}
