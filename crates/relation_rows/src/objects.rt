//! Images in memory, as the tests of the command have them.
ghost use Rattle.std.specs.Prelude.{◌∷◌, []};
ghost use Rattle.image_source.specs.Bytes.{files_tell};
ghost use Rattle.image_source.specs.Files.{seen_of_files};

use crate::sectors::{Terms, row_of};
use image_source::MemImages;
use outside::{Failed, Images};
use std::alloc::Global;
use std::test::Fail;
use test_objects::join;

/// The sectors of an image that has a row more than are looked at.
const TALL: u64 = 1_048_577;

/// Two images of so many sectors, of which none can be read. No other can be attached.
#[derive(Drop)]
pub struct Tall {
    faults: u64,
}

impl Tall {
    /// The two images.
    pub fn new() -> Tall {
        Tall { faults: 0 }
    }
}

impl Images for Tall {
    ghost seen = { λ tall. seen_of_files (record { lengths = 1048577 ∷ 1048577 ∷ []; faults = tall.faults; sectors_read = 0 }) };

    ghost tells_bytes = { λ tall. files_tell (record { lengths = 1048577 ∷ 1048577 ∷ []; faults = tall.faults; sectors_read = 0 }) };

    fn attach(&mut self, _: &str) -> Result<u64, Failed> {
        self.faults = self.faults.saturating_add(1);
        Err(Failed)
    }

    fn read(&mut self, _: u32, _: u64, _: &mut [u8]) -> Result<(), Failed> {
        self.faults = self.faults.saturating_add(1);
        Err(Failed)
    }

    fn length(&self, image: u32) -> Option<u64> {
        if image < 2 { Some(TALL) } else { None }
    }
}

/// Images of these sectors, each under a name of its own, attached in this order.
pub fn images_of(alloc: Global, each: &[&[Terms]]) -> Result<MemImages, Fail> {
    let mut images = MemImages::new(alloc)?;
    for (number, sectors) in each.iter().enumerate() {
        let name = format!(in alloc; "image {number}")?;
        let bytes = row_of(alloc, sectors)?;
        join(&mut images, name.as_str(), &bytes)?;
    }
    Ok(images)
}
