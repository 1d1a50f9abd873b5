//! The rescue text of images.
ghost use Rattle.std.specs.Prelude.{◌<◌, ◌↔◌, IsTrue};
ghost use Rattle.rescue_text.specs.Good.{AreGood, IsGood};
ghost use Rattle.rescue_text.specs.RescueText.{IsReading, rescue_sections};

use crate::draft::{add_line, finish, new_draft};
use crate::fault::RescueFault;
use crate::good::{are_good_sectors, is_good_sector};
use crate::section::Section;
use outside::ListOf;
use std::alloc::Global;
use std::marker::Model;
use value_text::cut;

/// What was read of images. Contracts see it as sections in the order of their images; an image may have none.
#[derive(Debug, Drop)]
pub struct Rescue {
    sections: ListOf<Section>,
}

impl Model for Rescue {
    ghost use Rattle.std.specs.Prelude.{List};
    ghost use Rattle.rescue_text.specs.declared.section.Section.{Section};
    ghost use Rattle.rescue_text.specs.Good.{AreSections};

    ghost Value = { List Section };

    ghost view = { λ r. r.sections };

    ghost invariant = { λ r. AreSections r.sections };
}

impl Rescue {
    /// Whether a sector of 512 bytes of an image is good: the text has no section of the image, or each byte of the sector
    /// lies in a block of status `+`.
    pub fn is_good(&self, image: u8, sector: u64) -> bool
        ensures { IsTrue result ↔ IsGood self.now image sector }
    {
        is_good_sector(self.sections.as_slice(), image, sector)
    }

    /// Whether `count` sectors of an image from number `first` on are good, of which there is one at least.
    pub fn are_good(&self, image: u8, first: u64, count: u64) -> bool
        requires some { 0 < count }
        ensures { IsTrue result ↔ AreGood self.now image first count }
    {
        are_good_sectors(self.sections.as_slice(), image, first, count)
    }
}

/// Reads the rescue text of so many images.
///
/// Empty lines and lines that begin with `#` are skipped. A line `map I` begins the section of image I, below `images` and
/// above the image of the section before. The next line is the status line of the map file, which is not looked at; each
/// later one is a block, from the end of the block before it. A line ends at a line feed, or at the end of the text.
///
/// `Line` has the number of the first line that is none of these.
pub fn read_rescue(alloc: Global, text: &[u8], images: u8) -> Result<Rescue, RescueFault>
    ensures { IsReading (rescue_sections images text.now) result }
{
    let mut draft = new_draft(alloc);
    let mut rest = text;
    let mut taken = 0;
    while let Some((line, more)) = cut(rest, b'\n') {
        taken += 1;
        add_line(&mut draft, alloc, images, line, taken)?;
        rest = more;
    }
    add_line(&mut draft, alloc, images, rest, taken + 1)?;
    Ok(Rescue {
        sections: finish(draft)?,
    })
}
