//! Images of which some sectors cannot be read.
ghost use Rattle.std.specs.Prelude.{◌≡◌};
ghost use Rattle.image_source.specs.Bytes.{shelf_tells};
ghost use Rattle.image_source.specs.Memory.{seen_of};

use image_source::MemImages;
use outside::{Failed, Images, SECTOR};

/// Images in memory of which some sectors cannot be read: a reading that asks for one of them, alone or among others, fails.
#[derive(Drop)]
pub struct Holed<'a> {
    images: MemImages,
    /// The number of an image, and a sector of it that cannot be read.
    holes: &'a [(u32, u64)],
    calls: u64,
}

impl<'a> Holed<'a> {
    /// The images, of which nothing was asked for yet and none is attached.
    pub fn new(images: MemImages, holes: &'a [(u32, u64)]) -> Holed<'a>
        ensures { ⟦<Holed<'a> as Images>⟧.seen result ≡ seen_of images }
    {
        Holed {
            images,
            holes,
            calls: 0,
        }
    }
}

impl<'a> Images for Holed<'a> {
    ghost seen = { λ holed. seen_of holed.images };

    ghost tells_bytes = { λ holed. shelf_tells holed.images };

    fn attach(&mut self, name: &str) -> Result<u64, Failed> {
        self.calls = self.calls.saturating_add(1);
        self.images.attach(name)
    }

    fn read(&mut self, image: u32, sector: u64, to: &mut [u8]) -> Result<(), Failed> {
        self.calls = self.calls.saturating_add(1);
        if asks_for_one(self.holes, image, sector, to.len()) {
            let _ = self.images.fail_call(self.calls);
        }
        self.images.read(image, sector, to)
    }

    fn length(&self, image: u32) -> Option<u64> {
        self.images.length(image)
    }
}

/// Whether one of these lies among the sectors of an image from one on, as many as fill `bytes` bytes.
fn asks_for_one(holes: &[(u32, u64)], image: u32, sector: u64, bytes: usize) -> bool {
    let sectors = (bytes / SECTOR) as u64;
    holes.iter().any(|hole| hole.0 == image && hole.1 >= sector && hole.1 - sector < sectors)
}
