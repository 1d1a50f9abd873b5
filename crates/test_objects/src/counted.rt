//! Images that count what is read of them.
ghost use Rattle.std.specs.Prelude.{◌≡◌};
ghost use Rattle.image_source.specs.Bytes.{shelf_tells};
ghost use Rattle.image_source.specs.Memory.{seen_of};

use image_source::MemImages;
use outside::{Failed, Images, SECTOR};

/// How many images are counted, from image 0 on.
const COUNTED: usize = 4;

/// Images in memory, with the sectors that were asked for of each of the first four.
#[derive(Drop)]
pub struct Counted {
    images: MemImages,
    reads: [u64; COUNTED],
}

impl Counted {
    /// The images, of which nothing was asked for yet.
    pub fn new(images: MemImages) -> Counted
        ensures { ⟦<Counted as Images>⟧.seen result ≡ seen_of images }
    {
        Counted {
            images,
            reads: [0; COUNTED],
        }
    }

    /// How many sectors were asked for of each of the first four images, also by readings that failed.
    pub fn reads(&self) -> [u64; COUNTED]
        ensures { result ≡ self.now.reads }
    {
        self.reads
    }
}

impl Images for Counted {
    ghost seen = { λ counted. seen_of counted.images };

    ghost tells_bytes = { λ counted. shelf_tells counted.images };

    fn attach(&mut self, name: &str) -> Result<u64, Failed> {
        self.images.attach(name)
    }

    fn read(&mut self, image: u32, sector: u64, to: &mut [u8]) -> Result<(), Failed> {
        let sectors = (to.len() / SECTOR) as u64;
        if (image as usize) < self.reads.len() {
            let count = self.reads[image as usize];
            self.reads[image as usize] = count.saturating_add(sectors);
        }
        self.images.read(image, sector, to)
    }

    fn length(&self, image: u32) -> Option<u64> {
        self.images.length(image)
    }
}
