//! Sections as they are read.
ghost use Rattle.std.specs.Prelude.{◌≡◌, ◌∷◌, ◌++◌, [], OnOk, IfOk, Some, option_map};
ghost use Rattle.rescue_text.specs.RescueText.{IsAdded, after_line, after_map, after_block, drafted, goes_on, is_next, no_sections, rises, with_open};

use crate::block::{Block, read_block};
use crate::fault::RescueFault;
use crate::marker::{is_skipped_line, read_map};
use crate::section::Section;
use outside::{ListOf, Memory};
use std::alloc::Global;

/// Sections as they are read, the last of them still open.
#[derive(Drop)]
pub struct Draft {
    /// The sections that are closed.
    pub closed: ListOf<Section>,
    /// The section that was begun last, whose blocks are being read.
    pub last: Option<Section>,
    /// Whether the status line of the open section is still to come.
    pub awaits_status: bool,
}

/// No sections.
pub(crate) fn new_draft(alloc: Global) -> Draft
    ensures { result ≡ no_sections }
{
    Draft {
        closed: ListOf::new(alloc),
        last: None,
        awaits_status: false,
    }
}

/// Adds what a line says, the line of this number, or refuses it.
pub(crate) fn add_line(
    draft: &mut Draft,
    alloc: Global,
    images: u8,
    line: &[u8],
    number: u64,
) -> Result<(), RescueFault>
    ensures { IsAdded (after_line images draft.old line.now) number draft.new result }
{
    if is_skipped_line(line) {
        return Ok(());
    }
    if draft.awaits_status {
        draft.awaits_status = false;
        return Ok(());
    }
    match read_map(line, images) {
        Some(image) => begin(draft, alloc, image, number),
        None => add_block(draft, read_block(line), number),
    }
}

/// Begins the section of an image, where it comes after the others.
fn begin(draft: &mut Draft, alloc: Global, image: u8, number: u64) -> Result<(), RescueFault>
    ensures { IsAdded (after_map draft.old image) number draft.new result }
{
    if !comes_after(&draft.last, image) {
        return Err(RescueFault::Line(number));
    }
    let section = Section {
        image,
        blocks: ListOf::new(alloc),
    };
    let last = draft.last.replace(section);
    close(&mut draft.closed, last)?;
    draft.awaits_status = true;
    Ok(())
}

/// Whether an image comes after that of the open section.
fn comes_after(last: &Option<Section>, image: u8) -> bool
    ensures { result ≡ rises last.now image }
{
    match last {
        None => true,
        Some(section) => section.image < image,
    }
}

/// Appends a section, where there is one.
fn close(sections: &mut ListOf<Section>, last: Option<Section>) -> Result<(), Memory>
    ensures { OnOk result (sections.new ≡ with_open sections.old last) }
{
    match last {
        None => Ok(()),
        Some(section) => sections.push(section),
    }
}

/// Adds a block to the open section, where there is one that it goes on.
fn add_block(draft: &mut Draft, told: Option<Block>, number: u64) -> Result<(), RescueFault>
    ensures { IsAdded (after_block draft.old told) number draft.new result }
{
    let Some(block) = told else {
        return Err(RescueFault::Line(number));
    };
    if !may_add(&draft.last, &block) {
        return Err(RescueFault::Line(number));
    }
    if let Some(section) = &mut draft.last {
        section.blocks.push(block)?;
    }
    Ok(())
}

/// Whether there is a section open, and a block may be its next one.
fn may_add(last: &Option<Section>, block: &Block) -> bool
    ensures { result ≡ is_next last.now block.now }
{
    match last {
        None => false,
        Some(section) => follows(section.blocks.as_slice(), block),
    }
}

/// Whether a block begins where the last of others ends.
fn follows(blocks: &[Block], next: &Block) -> bool
    ensures { result ≡ goes_on blocks.now next.now }
{
    match blocks.last() {
        None => true,
        Some(last) => last.end == next.start,
    }
}

/// The sections of a draft.
pub(crate) fn finish(draft: Draft) -> Result<ListOf<Section>, Memory>
    ensures { IfOk result (λ sections. sections ≡ drafted draft) }
{
    let mut sections = draft.closed;
    close(&mut sections, draft.last)?;
    Ok(sections)
}
