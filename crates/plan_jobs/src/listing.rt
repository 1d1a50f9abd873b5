//! The command `list`.
ghost use Rattle.std.specs.Prelude.{◌≡◌, ◌≤◌, ◌++◌, IfOk, OnOk, length, min, ℕ};
ghost use Rattle.std.specs.List.{flat_map};
ghost use Rattle.search_plan.specs.Plans.{IsPlan, AgreeWith};
ghost use Rattle.run_ends.specs.Jobs.{Does, around, named, stream};
ghost use Rattle.plan_jobs.specs.Faults.{stop_of_page};
ghost use Rattle.plan_jobs.specs.Listing.{found_text, line_in, list_job, list_over, next_in};
ghost use Rattle.plan_jobs.specs.Plans.{AnswersOver};
ghost use Rattle.wide_product.specs.Sets.{based};

use crate::preparing::prepare;
use command_words::Form;
use gates::Gate;
use outside::{Images, MOST_ATTACHED, Memory, Sink, Source};
use page_engine::{Line, ListPage, PageFault, pages};
use plan_text::{Text, json_line, json_next};
use run_ends::{RankFault, Refusal, Stop, add_share, print};
use search_plan::Plan;
use std::alloc::Global;
use std::thread::Threads;
use value_text::set_line;

/// What a listing is asked for.
#[derive(Clone, Copy)]
pub struct Listing {
    /// The first rank.
    pub from: u64,
    /// The most lines of a page, from 1 on.
    pub size: u64,
    /// The most ranks that a page goes through.
    pub span: u64,
    /// The most pages, from 1 on.
    pub pages: u64,
    /// How they are written.
    pub form: Form,
}

/// What a listing is made with.
#[derive(Drop)]
struct Tools<'a, R, G> {
    /// That which starts threads.
    rt: &'a R,
    /// That which gives memory.
    alloc: Global,
    /// What each piece of a scan passes.
    gate: &'a G,
}

/// Prints pages of the sets of a plan that pass. The text is made before any of it is put, so only a fault of the
/// output leaves a part of it. The source holds the plan's text; `names` is the number of images. Pieces of a scan
/// may run side by side: each passes the gate.
#[inline(never)]
pub fn list<R: Threads + Sync, S: Source, I: Images, K: Sink, G: Gate + Sync>(
    rt: &R,
    alloc: Global,
    source: &mut S,
    images: &mut I,
    names: usize,
    asked: &Listing,
    out: &mut K,
    gate: &G,
) -> Result<(), Stop>
    requires attached { length (I.seen images.old).attached ≡ min names MOST_ATTACHED }
    requires size { 1 ≤ asked.now.size }
    requires pages { 1 ≤ asked.now.pages }
    ensures does { Does (list_job asked.now) (named names (I.seen images.old).attached)
        (around (I.seen images.old) (stream (S.left source.old) (S.faults source.old)))
        (around (I.seen images.new) (stream (S.left source.new) (S.faults source.new)))
        (stream (K.gained out.old) (K.faults out.old)) (stream (K.gained out.new) (K.faults out.new)) result }
    ensures kept { (I.seen images.new).attached ≡ (I.seen images.old).attached }
{
    match prepare(alloc, source, images, names) {
        Ok(plan) => {
            let tools = Tools { rt, alloc, gate };
            print(out, text_over(&tools, images, &plan, asked))
        }
        Err(stop) => Err(stop),
    }
}

/// The text of `list` over a plan with which the images agree, or why there is none.
fn text_over<R: Threads + Sync, I: Images, G: Gate + Sync>(
    tools: &Tools<R, G>,
    images: &mut I,
    plan: &Plan,
    asked: &Listing,
) -> Result<Text, Stop>
    requires plan { IsPlan plan.now }
    requires lengths { AgreeWith plan.now (I.seen images.old).attached }
    requires size { 1 ≤ asked.now.size }
    requires pages { 1 ≤ asked.now.pages }
    ensures { (names : ℕ) → AnswersOver (list_over asked.now) names plan.now (I.seen images.old) (I.seen images.new) result }
{
    let Listing {
        from,
        size,
        span,
        pages: count,
        form,
    } = *asked;
    match pages(
        tools.rt,
        tools.alloc,
        images,
        plan,
        from,
        size,
        span,
        count,
        tools.gate,
    ) {
        Ok(found) => match pages_text(tools.alloc, form, found.as_slice()) {
            Ok(text) => Ok(text),
            Err(_) => Err(Stop::OutOfMemory),
        },
        Err(fault) => Err(stop_of(fault)),
    }
}

/// Why a listing ends whose pages could not be made.
fn stop_of(fault: PageFault) -> Stop
    ensures { result ≡ stop_of_page fault }
{
    match fault {
        PageFault::Many => Stop::Refused(Refusal::Many),
        PageFault::Cursor(fault) => Stop::Refused(Refusal::Cursor(RankFault {
            from: fault.from,
            total: fault.total,
        })),
        PageFault::ReadFault => Stop::ImageFault,
        PageFault::Memory => Stop::OutOfMemory,
    }
}

/// The bytes of pages.
fn pages_text(alloc: Global, form: Form, found: &[ListPage]) -> Result<Text, Memory>
    ensures { IfOk result (λ text. text ≡ flat_map (found_text form) found.now) }
{
    let mut text = Text::new(alloc);
    for page in found {
        add_page(alloc, &mut text, form, page)?;
    }
    Ok(text)
}

/// Appends a page: its lines, then where the next one begins.
#[tactic(auto, unfolding(crate::specs::Listing::found_text))]
fn add_page(alloc: Global, text: &mut Text, form: Form, page: &ListPage) -> Result<(), Memory>
    ensures { OnOk result (text.new ≡ text.old ++ found_text form page.now) }
{
    add_lines(alloc, text, form, page.lines.as_slice())?;
    add_next(alloc, text, form, page.next, page.total)
}

/// Appends the lines of a page.
fn add_lines(alloc: Global, text: &mut Text, form: Form, lines: &[Line]) -> Result<(), Memory>
    ensures { OnOk result (text.new ≡ text.old ++ flat_map (λ held. line_in form held.rank (based held.geo)) lines.now) }
{
    for held in lines {
        let line = set_text(alloc, form, held)?;
        text.extend_from_slice(line.as_slice())?;
    }
    Ok(())
}

/// The line of a set and its rank.
#[tactic(auto, using(crate::proofs::Listed::object_is))]
fn set_text(alloc: Global, form: Form, held: &Line) -> Result<Text, Memory>
    ensures { IfOk result (λ text. text ≡ line_in form held.now.rank (based held.now.geo)) }
{
    match form {
        Form::Text => set_line(alloc, held.rank, &held.geo),
        Form::Json => json_line(alloc, held.rank, &held.geo),
    }
}

/// Appends the line of where the next page begins, of `total` ranks.
fn add_next(alloc: Global, text: &mut Text, form: Form, next: u64, total: u64) -> Result<(), Memory>
    ensures { OnOk result (text.new ≡ text.old ++ next_in form next total) }
{
    match form {
        Form::Text => add_share(text, b"next ", next, total),
        Form::Json => {
            let line = json_next(alloc, next, total)?;
            text.extend_from_slice(line.as_slice())
        }
    }
}
