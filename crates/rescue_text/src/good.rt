//! Which bytes of an image were read.
ghost use Rattle.std.specs.Prelude.{◌≡◌, ◌<◌, ◌+◌, ◌*◌, ◌↔◌, IsTrue, MatchOption};
ghost use Rattle.std.specs.declared.option.Option.TheVariants.{None, Some};
ghost use Rattle.rescue_text.specs.Good.{AreGood, AreRead, AreSections, AreSideBySide, IsGood, begins, covers, is_finished as finished, section_of};

use crate::block::{Block, Status};
use crate::section::Section;
use outside::SECTOR;

/// The bytes of a sector.
const SECTOR_BYTES: u128 = SECTOR as u128;

/// Whether a sector is good: its image has no section, or each of its bytes lies in a block of status `+`.
pub(crate) fn is_good_sector(sections: &[Section], image: u8, sector: u64) -> bool
    requires { AreSections sections.now }
    ensures { IsTrue result ↔ IsGood sections.now image sector }
{
    match find_section(sections, image) {
        None => true,
        Some(section) => is_sector_read(section.blocks.as_slice(), sector),
    }
}

/// Whether `count` sectors from number `first` on are good, of which there is one at least.
pub(crate) fn are_good_sectors(sections: &[Section], image: u8, first: u64, count: u64) -> bool
    requires sections { AreSections sections.now }
    requires some { 0 < count }
    ensures { IsTrue result ↔ AreGood sections.now image first count }
{
    match find_section(sections, image) {
        None => true,
        Some(section) => are_sectors_read(section.blocks.as_slice(), first, count),
    }
}

/// Whether each byte of these sectors lies in a block of status `+`.
fn are_sectors_read(blocks: &[Block], first: u64, count: u64) -> bool
    requires blocks { AreSideBySide blocks.now }
    requires some { 0 < count }
    ensures { IsTrue result ↔ AreRead blocks.now (first * 512) ((first + count) * 512) }
{
    let first = u128::from(first);
    let end = first + u128::from(count);
    are_read(blocks, first * SECTOR_BYTES, end * SECTOR_BYTES)
}

/// Whether each byte of a sector lies in a block of status `+`.
fn is_sector_read(blocks: &[Block], sector: u64) -> bool
    requires { AreSideBySide blocks.now }
    ensures { IsTrue result ↔ AreRead blocks.now (sector * 512) (sector * 512 + 512) }
{
    let from = u128::from(sector) * SECTOR_BYTES;
    are_read(blocks, from, from + SECTOR_BYTES)
}

/// Whether each byte from one to before another lies in a block of status `+`. Blocks that end before are passed over by
/// bisection.
fn are_read(blocks: &[Block], from: u128, to: u128) -> bool
    requires blocks { AreSideBySide blocks.now }
    requires some { from < to }
    ensures { IsTrue result ↔ AreRead blocks.now from to }
{
    let first = blocks.partition_point(|block| u128::from(block.end) <= from);
    let rest = &blocks[first..];
    begins_by(rest, from) && reaches(rest, to)
}

/// Whether there is a first block, and it begins at this byte or before.
fn begins_by(blocks: &[Block], from: u128) -> bool
    ensures { result ≡ begins blocks.now from }
{
    match blocks {
        [] => false,
        [first, ..] => u128::from(first.start) <= from,
    }
}

/// Whether the first blocks have status `+`, up to one that ends at this byte or after.
fn reaches(blocks: &[Block], to: u128) -> bool
    ensures { result ≡ covers blocks.now to }
{
    for block in blocks {
        if !is_finished(block.status) {
            return false;
        }
        if to <= u128::from(block.end) {
            return true;
        }
    }
    false
}

/// Whether this is status `+`.
fn is_finished(status: Status) -> bool
    ensures { result ≡ finished status }
{
    matches!(status, Status::Finished)
}

/// The section of an image.
fn find_section(sections: &[Section], image: u8) -> Option<&Section>
    ensures { MatchOption result (section_of sections.entry.now image ≡ None) (λ section. section_of sections.entry.now image ≡ Some section.now) }
{
    for section in sections {
        if section.image == image {
            return Some(section);
        }
    }
    None
}
