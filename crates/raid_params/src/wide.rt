//! Parameter sets of arrays whose images may hold their data at different sectors.
ghost use Rattle.std.specs.Prelude.{◌≡◌, IsTrue};
ghost use Rattle.raid_params.specs.Bases.{is_offset_of, leaves_out};

use crate::limits::MOST;
use crate::slots::stands_among;
use crate::types::{GeoFault, Geometry};
use arrayvec::ArrayVec;

/// The parameter set of an array whose data may begin at a sector of its own on each image.
///
/// Where there are bases, the offset of the geometry is the greatest of them, so it is a set over images that are
/// padded until all data begin there.
#[derive(Drop)]
pub struct Wide {
    /// The parameters, with the offset that is common to all images, or the greatest base.
    pub geo: Geometry,
    /// The image sectors at which the data begin, one for each image from image 0 on; or none, where the offset
    /// is common to all.
    pub bases: ArrayVec<u64, MOST>,
    ghost is_greatest: { IsTrue (is_offset_of bases.items geo.head.offset) },
}

/// Why a parameter set with bases makes no sense, with the value that breaks the rule.
#[derive(Clone, Copy)]
pub enum WideFault {
    /// A rule of the geometry is broken.
    Geo(GeoFault),
    /// There are bases, this many, and not one for each image, or an image is in no slot.
    Bases(u8),
}

impl Wide {
    ghost use Rattle.std.specs.Prelude.{MatchResult, None, Some};
    ghost use Rattle.raid_params.specs.Wide.{has_bases as has_bases_for, wide_fault};

    /// The first broken rule of the set over `images` images, whose members end before the image sector `end`:
    /// first those of the geometry but for the delay, in their order, then that there are no bases, or one for each
    /// image, with each image in a slot, and then the delay.
    pub fn validate(&self, images: u8, end: u64) -> Result<(), WideFault>
        ensures { MatchResult result (λ _. wide_fault self.now images end ≡ None) (λ fault. wide_fault self.now images end ≡ Some fault) }
    {
        let head = &self.geo.head;
        match self.geo.validate_early(images, end) {
            Err(fault) => Err(WideFault::Geo(fault)),
            Ok(()) if !self.has_bases(images) => Err(WideFault::Bases(self.bases.len() as u8)),
            Ok(()) if !head.pattern.has_delay(head.delay) => {
                Err(WideFault::Geo(GeoFault::Delay(head.delay)))
            }
            Ok(()) => Ok(()),
        }
    }

    /// Whether there are no bases, or one for each image, with each image in a slot.
    fn has_bases(&self, images: u8) -> bool
        ensures { result ≡ has_bases_for images self.now.geo.slots.items self.now.bases.items }
    {
        self.bases.is_empty()
            || self.bases.len() == images as usize && !leaves_out_any(&self.geo.slots, images)
    }
}

/// Whether some image below `images` is in no slot.
fn leaves_out_any(slots: &[Option<u8>], images: u8) -> bool
    ensures { result ≡ leaves_out images slots.now }
{
    (0..images).any(|image| !stands_among(image, slots))
}
