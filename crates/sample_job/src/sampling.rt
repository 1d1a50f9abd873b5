//! The command `sample`.
ghost use Rattle.std.specs.Prelude.{◌≡◌, ◌<◌, ◌≤◌, ◌*◌, ◌-◌, ◌^◌, ◌++◌, false, All, IfErr, IfOk, IfSome, IsTrue, MatchResult, None, OnOk, Some, sum_by, ℕ, [], ◌∷◌, decimal, length, map, nat_eq};
ghost use Rattle.std.specs.List.{list_any};
ghost use Rattle.outside.specs.Attached.{told_all};
ghost use Rattle.image_source.specs.Memory.{number_of};
ghost use Rattle.member_regions.specs.Members.{held as held_in};
ghost use Rattle.value_text.specs.SetText.{HasWord};
ghost use Rattle.raid_params.specs.Size.{volume_sectors as volume_sectors_of};
ghost use Rattle.raid_params.specs.Validity.{early_fault, first_fault};
ghost use Rattle.raid_params.specs.declared.limits.TheConstants.{MOST};
ghost use Rattle.search_plan.specs.Plans.{IsPlan, AgreeWith};
ghost use Rattle.plan_sets.specs.Sets.{rank_of, total_of};
ghost use Rattle.common_pages.specs.Pages.{IsPageOf};
ghost use Rattle.survey_engine.specs.Surveys.{IsSurveyable};
ghost use Rattle.survey_job.specs.Surveying.{survey_plan};
ghost use Rattle.outside.specs.Seen.{Seen};
ghost use Rattle.outside.specs.Streams.{Stream};
ghost use Rattle.run_ends.specs.Jobs.{Does, Named, Refuses, around, stream};
ghost use Rattle.run_ends.specs.Stops.{IsEarly, delay_refusal};
ghost use Rattle.sample_job.specs.Sampling.{many_refusal, array_refusals, found_line, found_text as found_text_of, is_among, number_line, sample_ask, sample_job, sample_output, sample_plan, sample_refusal, sampled_images};
ghost use Rattle.sample_arrays.specs.Arrays.{end_of, sampled, IsFile};
ghost use Rattle.sample_job.specs.Own.{seen_of_own};

use crate::own::OwnImages;
use address_map::volume_sectors;
use arrayvec::ArrayVec;
use command_words::{SurveyWords, plain_survey};
use common_pages::{Line, ListPage, PageFault, page};
use gates::Gate;
use image_source::MemImages;
use itoa::Buffer;
use landmark_rules::Group;
use outside::{Images, MOST_ATTACHED, Memory, Sink};
use plan_text::{Text, add_number};
use raid_params::{Bounds, GeoFault, Geometry, Head, Wide};
use run_ends::{Refusal, Stop, add_share, print};
use sample_arrays::{LEAST_MARKED, MOST_SAMPLED, count_held};
use search_plan::Plan;
use set_product::product_rank;
use std::alloc::Global;
use std::thread::Threads;
use survey_engine::{Ask, SurveyFault};
use survey_job::ask_of;

/// The most sets of the first page.
const FIRST_PAGE: u64 = 1000;

/// What the survey and the page are made with.
#[derive(Drop)]
struct Tools<'a, R, G> {
    /// That which starts threads.
    rt: &'a R,
    /// That which gives memory.
    alloc: Global,
    /// What each piece of a scan passes.
    gate: &'a G,
}

/// Prints what a survey and the first page of a listing find of an array that is generated. The text is made before any
/// of it is put, so only a fault of the output leaves a part of it. `number` is that from which the array's bytes are
/// made, `rows` its rows of chunks; `xfs` says whether its volume gets the landmarks of an XFS file system. Pieces of a
/// scan of the listing may run side by side: each passes the gate.
#[inline(never)]
pub fn sample<R: Threads + Sync, K: Sink, G: Gate + Sync>(
    rt: &R,
    alloc: Global,
    number: u64,
    set: &Wide,
    rows: u64,
    xfs: bool,
    out: &mut K,
    gate: &G,
) -> Result<(), Stop>
    requires set { HasWord set.now }
    requires some { 1 ≤ rows }
    requires most { rows ≤ 65536 }
    ensures { (given : Named) (images : Seen) (source : Stream) → Does (sample_job number set.now rows xfs) given (around images source) (around images source)
        (stream (K.gained out.old) (K.faults out.old)) (stream (K.gained out.new) (K.faults out.new)) result }
{
    let tools = Tools { rt, alloc, gate };
    print(out, answer(&tools, number, set, rows, xfs))
}

/// The text of `sample`, or why there is none.
fn answer<R: Threads + Sync, G: Gate + Sync>(
    tools: &Tools<R, G>,
    number: u64,
    set: &Wide,
    rows: u64,
    xfs: bool,
) -> Result<Text, Stop>
    requires set { HasWord set.now }
    requires some { 1 ≤ rows }
    requires most { rows ≤ 65536 }
    ensures text { IfOk result (λ text. text ≡ sample_output number set.now.geo rows xfs) }
    ensures refuses { Refuses (sample_refusal number set.now rows xfs) result }
    ensures early { IfErr result IsEarly }
{
    match array_end(set, rows, xfs) {
        Ok(end) => array_text(tools, number, &set.geo, rows, xfs, end),
        Err(refusal) => Err(Stop::Refused(refusal)),
    }
}

/// The image sector after the last one of the members, where the array may be made.
#[tactic(auto, using(crate::proofs::Refusals::set_refused, crate::proofs::Refusals::array_refused, crate::proofs::Refusals::volume_refused, crate::proofs::Refusals::bases_refused, crate::proofs::Refusals::delay_refused, crate::proofs::Refusals::array_allowed, crate::proofs::Refusals::near_offset, crate::proofs::Refusals::once_near, crate::proofs::Refusals::all_kept))]
fn array_end(set: &Wide, rows: u64, xfs: bool) -> Result<u64, Refusal>
    requires set { HasWord set.now }
    requires most { rows ≤ 65536 }
    ensures end { IfOk result (λ end. end ≡ end_of set.now.geo.head rows) }
    ensures ruled { OnOk result (first_fault set.now.geo (held_in set.now.geo.slots.items) (end_of set.now.geo.head rows) ≡ None) }
    ensures size { OnOk result (set.now.geo.head.members * end_of set.now.geo.head rows ≤ MOST_SAMPLED) }
    ensures marked { OnOk result (IsTrue xfs → LEAST_MARKED ≤ volume_sectors_of set.now.geo.head (end_of set.now.geo.head rows)) }
    ensures allowed { OnOk result (array_refusals set.now rows xfs ≡ None) }
    ensures refused { IfErr result (λ refusal. array_refusals set.now rows xfs ≡ Some refusal) }
{
    let end = set.geo.head.offset + rows * set.geo.head.chunk;
    if let Err(fault) = set.geo.validate_early(count_held(&set.geo.slots), end) {
        return Err(Refusal::Set(fault));
    }
    let sectors = set.geo.head.members as u64 * end;
    if sectors > MOST_SAMPLED {
        return Err(Refusal::ArraySectors(sectors));
    }
    let volume = volume_of(&set.geo, end);
    if xfs && volume < LEAST_MARKED {
        return Err(Refusal::VolumeSectors(volume));
    }
    if !set.bases.is_empty() {
        return Err(Refusal::Bases(set.bases.len() as u8));
    }
    match delay_kept(&set.geo.head) {
        Ok(()) => Ok(end),
        Err(refusal) => Err(refusal),
    }
}

/// The sectors of the volume of a set that breaks no rule but maybe that on its delay, on which they do not depend.
#[tactic(auto, using(crate::proofs::Refusals::once_valid))]
fn volume_of(set: &Geometry, end: u64) -> u64
    requires kept { early_fault set.now (held_in set.now.slots.items) end ≡ None }
    requires end { end < 2 ^ 55 }
    ensures { result ≡ volume_sectors_of set.now.head end }
{
    let head = Head {
        delay: 1,
        ..set.head
    };
    volume_sectors(&head, end)
}

/// The refusal of a delay that does not suit the pattern.
fn delay_kept(head: &Head) -> Result<(), Refusal>
    ensures { MatchResult result (λ _. delay_refusal head.now ≡ None) (λ refusal. delay_refusal head.now ≡ Some refusal) }
{
    if head.pattern.has_delay(head.delay) {
        Ok(())
    } else {
        Err(Refusal::Set(GeoFault::Delay(head.delay)))
    }
}

/// The text of `sample` of an array that may be made, or why there is none.
fn array_text<R: Threads + Sync, G: Gate + Sync>(
    tools: &Tools<R, G>,
    number: u64,
    set: &Geometry,
    rows: u64,
    xfs: bool,
    end: u64,
) -> Result<Text, Stop>
    requires end { end ≡ end_of set.now.head rows }
    requires ruled { first_fault set.now (held_in set.now.slots.items) (end_of set.now.head rows) ≡ None }
    requires size { set.now.head.members * end_of set.now.head rows ≤ MOST_SAMPLED }
    requires marked { IsTrue xfs → LEAST_MARKED ≤ volume_sectors_of set.now.head (end_of set.now.head rows) }
    ensures text { IfOk result (λ text. text ≡ sample_output number set.now rows xfs) }
    ensures refuses { Refuses (many_refusal (sample_plan number set.now rows xfs)) result }
    ensures early { IfErr result IsEarly }
{
    let mut images = array_images(tools.alloc, number, set, rows, xfs)?;
    let plan = plan_of(tools.alloc, &mut images, &ask_for(set, end))?;
    match first_page(tools, &mut images, &plan) {
        Ok(page) => Ok(lines(tools.alloc, set, end, &plan, &page)?),
        Err(stop) => Err(stop),
    }
}

/// The images of the array, attached in their order.
#[tactic(auto, using(raid_params::proofs::Ruled::ruled_shape, sample_arrays::proofs::Sampled::few_slots))]
fn array_images(
    alloc: Global,
    number: u64,
    set: &Geometry,
    rows: u64,
    xfs: bool,
) -> Result<OwnImages, Memory>
    requires ruled { first_fault set.now (held_in set.now.slots.items) (end_of set.now.head rows) ≡ None }
    requires size { set.now.head.members * end_of set.now.head rows ≤ MOST_SAMPLED }
    requires marked { IsTrue xfs → LEAST_MARKED ≤ volume_sectors_of set.now.head (end_of set.now.head rows) }
    ensures images { IfOk result (λ own. (seen_of_own own).attached ≡ sampled_images number set.now rows xfs) }
    ensures long { OnOk result (All (IsFile (end_of set.now.head rows)) (sampled number set.now rows xfs)) }
{
    let mut images = sample_arrays::sample(alloc, number, set, rows, xfs)?;
    for image in 0..count_held(&set.slots) {
        attach(&mut images, image);
    }
    Ok(OwnImages::of(images))
}

/// Attaches the image whose name is its number.
fn attach(images: &mut MemImages, number: u8)
    requires failing { images.old.failing ≡ [] }
    requires there { number_of images.old.files (decimal number) ≡ Some number }
    requires room { length images.old.attached < MOST_ATTACHED }
    ensures files { images.new.files ≡ images.old.files }
    ensures failing { images.new.failing ≡ [] }
    ensures attached { images.new.attached ≡ images.old.attached ++ number ∷ [] }
{
    let mut buffer = Buffer::new();
    images.attach(buffer.format(number)).unwrap();
}

/// What the survey is asked for: all that `survey` asks for without operands, but for the level, the delay and the numbers of
/// members and of missing ones, which are the set's.
#[tactic(auto, using(crate::proofs::Asked::all_places), unfolding(crate::specs::Sampling::sample_ask))]
fn ask_for(set: &Geometry, end: u64) -> Ask
    requires few { length set.now.slots.items ≤ MOST }
    ensures { result ≡ sample_ask set.now end }
{
    let plain = plain_survey();
    let mut levels = ArrayVec::new();
    levels.push(set.head.level);
    let mut members = ArrayVec::new();
    members.push(set.head.members);
    let mut delays = ArrayVec::new();
    delays.push(set.head.delay);
    let images = count_held(&set.slots);
    let bounds = Bounds {
        levels,
        members,
        delays,
        missing: set.slots.len() as u8 - images,
        ..plain.bounds
    };
    ask_of(SurveyWords { bounds, ..plain }, images as usize, end)
}

/// The plan of a survey of the images, which fails only out of memory.
fn plan_of(alloc: Global, images: &mut OwnImages, ask: &Ask) -> Result<Plan, Memory>
    requires { IsSurveyable ask.now (seen_of_own images.old).attached }
    ensures plan { IfOk result IsPlan }
    ensures made { IfOk result (λ plan. IfSome (told_all (seen_of_own images.old).attached) (λ bytes. plan ≡ survey_plan ask.now (seen_of_own images.old).attached bytes)) }
    ensures lengths { IfOk result (λ plan. AgreeWith plan (seen_of_own images.old).attached) }
    ensures kept { (seen_of_own images.new).attached ≡ (seen_of_own images.old).attached }
{
    match survey_engine::survey(alloc, images, ask) {
        Ok(plan) => Ok(plan),
        Err(SurveyFault::Memory) => Err(Memory),
        Err(SurveyFault::ReadFault) => unreachable!(),
    }
}

/// The first page of the sets of a plan that pass, or why there is none.
#[tactic(auto, using(wide_product::proofs::Products::common_total))]
fn first_page<R: Threads + Sync, G: Gate + Sync>(
    tools: &Tools<R, G>,
    images: &mut OwnImages,
    plan: &Plan,
) -> Result<ListPage, Stop>
    requires plan { IsPlan plan.now }
    requires common { plan.now.each ≡ false }
    requires lengths { AgreeWith plan.now (seen_of_own images.old).attached }
    ensures page { IfOk result (λ page. IfSome (told_all (seen_of_own images.old).attached) (λ bytes. IsPageOf bytes plan.now 0 FIRST_PAGE (2 ^ 64 - 1) page)) }
    ensures total { IfOk result (λ page. page.total ≡ total_of plan.now) }
    ensures refuses { Refuses (many_refusal plan.now) result }
    ensures early { IfErr result IsEarly }
{
    let (rt, alloc, gate) = (tools.rt, tools.alloc, tools.gate);
    match page(rt, alloc, images, plan, 0, FIRST_PAGE, u64::MAX, gate) {
        Ok(found) => Ok(found),
        Err(PageFault::Many) => Err(Stop::Refused(Refusal::Many)),
        Err(PageFault::Memory) => Err(Stop::OutOfMemory),
        Err(PageFault::Cursor(_) | PageFault::ReadFault) => unreachable!(),
    }
}

/// The six lines.
#[tactic(auto, using(crate::proofs::Sampled::few_ranks), unfolding(crate::specs::Sampling::found_text))]
fn lines(
    alloc: Global,
    set: &Geometry,
    end: u64,
    plan: &Plan,
    page: &ListPage,
) -> Result<Text, Memory>
    requires plan { IsPlan plan.now }
    requires few { length set.now.slots.items ≤ MOST }
    requires allowed { many_refusal plan.now ≡ None }
    ensures { IfOk result (λ text. text ≡ found_text_of set.now end plan.now page.now) }
{
    let mut text = Text::new(alloc);
    add_line(&mut text, b"images ", u64::from(count_held(&set.slots)))?;
    add_line(&mut text, b"sectors ", end)?;
    add_line(&mut text, b"marks ", count_marks(plan.groups.as_slice())?)?;
    add_line(&mut text, b"total ", page.total)?;
    text.extend_from_slice(found_text(is_on(plan, set, page)))?;
    add_share(&mut text, b"next ", page.next, page.total)?;
    Ok(text)
}

/// Appends a line of a name, which ends with a space, and a number.
#[tactic(auto, unfolding(crate::specs::Sampling::number_line))]
fn add_line(text: &mut Text, name: &[u8], number: u64) -> Result<(), Memory>
    ensures { OnOk result (text.new ≡ text.old ++ number_line name.now number) }
{
    text.extend_from_slice(name)?;
    add_number(text, number)?;
    text.extend_from_slice(b"\n")
}

/// How many marks some groups have. More than a number of 64 bits tells are more than memory holds.
fn count_marks(groups: &[Group]) -> Result<u64, Memory>
    ensures { IfOk result (λ marks. marks ≡ sum_by (λ group. length group.marks) groups.now) }
{
    let mut marks = 0u64;
    for group in groups {
        let more = group.marks.as_slice().len() as u64;
        marks = marks.checked_add(more).ok_or(Memory)?;
    }
    Ok(marks)
}

/// Whether the set is on a page.
fn is_on(plan: &Plan, set: &Geometry, page: &ListPage) -> bool
    requires plan { IsPlan plan.now }
    requires total { total_of plan.now < 2 ^ 64 }
    ensures { result ≡ is_among plan.now set.now (map (λ held. held.rank) page.now.lines) }
{
    match product_rank(plan, set) {
        Some(rank) => has_rank(page.lines.as_slice(), rank),
        None => false,
    }
}

/// Whether one of the lines has this rank.
fn has_rank(lines: &[Line], rank: u64) -> bool
    ensures { result ≡ list_any (λ held. nat_eq held.rank rank) lines.now }
{
    lines.iter().any(|held| held.rank == rank)
}

/// The line that says whether the set is found.
#[tactic(auto, unfolding(crate::specs::Sampling::found_line))]
fn found_text(found: bool) -> &'static [u8]
    ensures { result.now ≡ found_line found }
{
    if found { b"found yes\n" } else { b"found no\n" }
}
