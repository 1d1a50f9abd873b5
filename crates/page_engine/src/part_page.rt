//! Pages of one part.
ghost use Rattle.std.specs.Prelude.{◌≡◌, ◌+◌, ◌-◌, ◌<◌, ◌≤◌, ◌^◌, false, true, All, IfErr, IfOk, List, length, map};
ghost use Rattle.outside.specs.Attached.{told_all};
ghost use Rattle.outside.specs.Seen.{Image, OnlyReads};
ghost use Rattle.image_padding.specs.Padded.{padded_images};
ghost use Rattle.common_pages.specs.Pages.{EndsOrFull, IsPageFrom, page_reads, tested_to};
ghost use Rattle.search_terms.specs.Page.{stop_of};
ghost use Rattle.search_plan.specs.Plans.{AgreeWith, IsPlan};
ghost use Rattle.wide_product.specs.Parts.{IsPartOf};
ghost use Rattle.wide_product.specs.Sets.{wide_total};
ghost use Rattle.raid_params.specs.Bases.{greatest_base};
ghost use Rattle.common_pages.specs.declared.page_parts.PageFault.TheVariants.{Memory as OutOfMemory};
ghost use Rattle.wide_product.specs.PaddedParts.{IsPaddedPart};
ghost use Rattle.page_engine.specs.Lines.{AddsPadded};
ghost use Rattle.page_engine.specs.Parts.{EndsPart, GathersPart, reached};
ghost use Rattle.page_engine.specs.Reads.{based_reads};

use crate::lines::add_lines;
use crate::marked::is_ruled_out;
use common_pages::{ListPage, PageFault, page};
use head_walk::{Lines, Paging};
use outside::Images;
use padded_images::{BASES_END, Padded};
use raid_params::MOST;
use row_scan::Gate;
use search_plan::Plan;
use std::alloc::Global;
use std::thread::Threads;
use wide_product::{PaddedPart, Part};

/// A page of a plan over padded images.
pub(crate) fn padded_page<R: Threads + Sync, I: Images, G: Gate + Sync>(
    rt: &R,
    alloc: Global,
    images: &mut I,
    plan: &Plan,
    bases: &[u64],
    from: u64,
    size: u64,
    span: u64,
    gate: &G,
) -> Result<ListPage, PageFault>
    requires plan { IsPlan plan.now }
    requires common { plan.now.each ≡ false }
    requires lengths { AgreeWith plan.now (padded_images bases.now (I.seen images.old).attached) }
    requires few { wide_total plan.now < 2 ^ 64 }
    requires from { from ≤ wide_total plan.now }
    requires size { 1 ≤ size }
    requires some { 0 < length bases.now }
    requires most { length bases.now ≤ MOST }
    requires each { length bases.now ≡ length (I.seen images.old).attached }
    requires near { All (λ base. base < BASES_END) bases.now }
    requires short { All (λ image. image.sectors < BASES_END) (I.seen images.old).attached }
    ensures page { IfOk result (IsPageFrom (told_all (padded_images bases.now (I.seen images.old).attached)) plan.now from size span) }
    ensures ended { IfOk result (λ p. EndsOrFull size from (stop_of (wide_total plan.now) from span) (length p.lines) p.next) }
    ensures quiet { IfOk result (λ made. (I.seen images.new).faults ≡ (I.seen images.old).faults) }
    ensures ends { IfErr result (EndsPart (I.seen images.old) (I.seen images.new)) }
    ensures reads { OnlyReads (I.seen images.old) (I.seen images.new)
        (page_reads (told_all (padded_images bases.now (I.seen images.old).attached)) plan.now from (tested_to (stop_of (wide_total plan.now) from span) result)) }
{
    let mut padded = Padded::new(images, bases);
    page(rt, alloc, &mut padded, plan, from, size, span, gate)
}

/// Appends the sets that pass of a part's ranks from `from` up to `stop`, until the page is full; gives the rank at which the
/// next page begins, or `stop`. Where the marks leave no set of them nothing is read.
pub(crate) fn gather_part<R: Threads + Sync, I: Images, G: Gate + Sync>(
    paging: &Paging<R, G>,
    images: &mut I,
    part: &Part,
    from: u64,
    stop: u64,
    lines: &mut Lines,
) -> Result<u64, PageFault>
    requires plan { IsPlan paging.now.plan.now }
    requires own { paging.now.plan.now.each ≡ true }
    requires few { wide_total paging.now.plan.now < 2 ^ 64 }
    requires lengths { AgreeWith paging.now.plan.now (I.seen images.old).attached }
    requires part { IsPartOf paging.now.plan.now part.now }
    requires from { part.now.first ≤ from }
    requires range { from < stop }
    requires stop { stop ≤ part.now.first + part.now.count }
    requires room { length lines.old < paging.now.size }
    ensures gathers { IfOk result (GathersPart (told_all (I.seen images.old).attached) paging.now.plan.now paging.now.size from stop lines.old lines.new) }
    ensures quiet { IfOk result (λ made. (I.seen images.new).faults ≡ (I.seen images.old).faults) }
    ensures ends { IfErr result (EndsPart (I.seen images.old) (I.seen images.new)) }
    ensures reads { OnlyReads (I.seen images.old) (I.seen images.new)
        (based_reads (told_all (I.seen images.old).attached) paging.now.plan.now from (reached stop result)) }
{
    let padded = padded_of(paging.alloc, paging.plan, part)?;
    if is_ruled_out(paging.alloc, paging.plan, part, &padded, from, stop)? {
        return Ok(stop);
    }
    let missing = paging.size - lines.as_slice().len() as u64;
    let found = padded_page(
        paging.rt,
        paging.alloc,
        images,
        &padded.plan,
        &part.bases,
        padded.first + (from - part.first),
        missing,
        stop - from,
        paging.gate,
    )?;
    add_found(part, padded.first, &found, lines)?;
    Ok(part.first + (found.next - padded.first))
}

/// The sets of a part, over the images once they are padded by its bases.
fn padded_of(alloc: Global, plan: &Plan, part: &Part) -> Result<PaddedPart, PageFault>
    requires plan { IsPlan plan.now }
    requires each { plan.now.each ≡ true }
    requires few { wide_total plan.now < 2 ^ 64 }
    requires part { IsPartOf plan.now part.now }
    requires some { 0 < part.now.count }
    ensures padded { IfOk result (IsPaddedPart plan.now part.now) }
    ensures memory { IfErr result (λ fault. fault ≡ OutOfMemory) }
{
    match PaddedPart::of(alloc, plan, part) {
        Ok(padded) => Ok(padded),
        Err(_) => Err(PageFault::Memory),
    }
}

/// Appends the lines of a part for those of a page of its plan, where the part's first set has the rank `first`.
fn add_found(part: &Part, first: u64, found: &ListPage, lines: &mut Lines) -> Result<(), PageFault>
    requires fits { part.now.first + part.now.count < 2 ^ 64 }
    requires offset { part.now.head.offset ≡ greatest_base part.now.bases.items }
    ensures adds { IfOk result (λ _. AddsPadded part.now first found.now.lines lines.old lines.new) }
    ensures memory { IfErr result (λ fault. fault ≡ OutOfMemory) }
{
    match add_lines(part, first, found.lines.as_slice(), lines) {
        Ok(()) => Ok(()),
        Err(_) => Err(PageFault::Memory),
    }
}
