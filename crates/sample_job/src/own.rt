//! The images of a generated array.
ghost use Rattle.std.specs.Prelude.{◌≡◌, ◌<◌, ◌/◌, [], IsOk, IsTrue, OnOk, length, slice_get};
ghost use Rattle.std.specs.Option.{option_map};
ghost use Rattle.image_source.specs.Bytes.{shelf_tells};
ghost use Rattle.outside.specs.Causes.{HasCause};
ghost use Rattle.outside.specs.Seen.{AreTold, AreWithin, Attaches, OnlyReads};
ghost use Rattle.sample_job.specs.Own.{seen_of_own};

use image_source::MemImages;
use outside::{Failed, Images, MOST_ATTACHED};
use std::marker::Model;

/// Images in memory of which no call is listed to fail: so none does.
#[derive(Drop)]
pub(crate) struct OwnImages {
    images: MemImages,
}

impl Model for OwnImages {
    ghost use Rattle.std.specs.Prelude.{◌≡◌, []};
    ghost use Rattle.image_source.specs.Memory.{Shelf};

    ghost Value = { Shelf };

    ghost view = { λ own. own.images };

    ghost invariant = { λ own. own.images.failing ≡ [] };
}

impl OwnImages {
    /// The images, of which no call may be listed to fail.
    pub(crate) fn of(images: MemImages) -> OwnImages
        requires { images.failing ≡ [] }
        ensures { result ≡ images }
    {
        OwnImages { images }
    }
}

impl Images for OwnImages {
    ghost seen = { seen_of_own };

    ghost tells_bytes = { shelf_tells };

    #[tactic(auto, using(crate::proofs::Owned::attaches))]
    fn attach(&mut self, name: &str) -> Result<u64, Failed>
        requires room { length (seen_of_own self.old).attached < MOST_ATTACHED }
        requires named { IsTrue ((seen_of_own self.old).world.may_attach name.now) }
        ensures attached { Attaches (seen_of_own self.old) (seen_of_own self.new) name.now result }
        ensures cause { HasCause (seen_of_own self.old).faults (seen_of_own self.new).faults result }
    {
        self.images.attach(name)
    }

    fn read(&mut self, image: u32, sector: u64, to: &mut [u8]) -> Result<(), Failed>
        requires { AreWithin (seen_of_own self.old).attached image sector (length to.old) }
        ensures told { OnOk result (AreTold (seen_of_own self.old).attached image sector to.new) }
        ensures reads { OnlyReads (seen_of_own self.old) (seen_of_own self.new) (length to.old / 512) }
        ensures cause { HasCause (seen_of_own self.old).faults (seen_of_own self.new).faults result }
    {
        self.images.read(image, sector, to)
    }

    fn length(&self, image: u32) -> Option<u64>
        ensures { result ≡ option_map (λ a. a.sectors) (slice_get (seen_of_own self.now).attached image) }
    {
        self.images.length(image)
    }
}
