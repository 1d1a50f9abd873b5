//! The exclusive or of the sectors of all images, at the places of a run: P's test of the rows of many sets, made once.
ghost use Rattle.std.specs.Prelude.{ℕ, ◌≡◌, ◌<◌, ◌≤◌, ◌+◌, ◌*◌, bit_xor, length, slice_index, slice_index_or, false, IfSome, IsTrue, List, Option};
ghost use Rattle.std.specs.Bool.{Decides};
ghost use Rattle.raid_terms.specs.Parity.{in_p};
ghost use Rattle.row_parity.specs.Syndromes.{Cancel};
ghost use Rattle.member_regions.specs.Regions.{IsRoomFor, Room};
ghost use Rattle.raid_params.specs.declared.limits.TheConstants.{MOST};
ghost use Rattle.member_regions.specs.declared.regions.TheConstants.{BLOCK};
ghost use Rattle.member_regions.specs.ImageSums.{IsBlankAt};
ghost use Rattle.parity_scan.specs.ImageSums.{AddsAllBut, AreImageSums, slots_column};

use crate::left_out::LeftOut;
use member_regions::{BLOCK, ImageSum, Regions, sum_images};
use raid_params::Cell;

/// What the exclusive or of the sectors of all images is at the first places of a run.
#[derive(Drop)]
pub struct ImageSums {
    /// How many images there are.
    pub images: usize,
    /// At how many places the exclusive or is known.
    pub places: usize,
    /// What the exclusive or is at each of these places.
    pub sums: [ImageSum; BLOCK],
}

impl ImageSums {
    /// The sums of which no place is known.
    pub fn none() -> ImageSums
        ensures sums { (room : Room) → AreImageSums room result }
    {
        ImageSums {
            images: 0,
            places: 0,
            sums: [ImageSum::default(); BLOCK],
        }
    }

    /// The sums at the first `places` places of the regions of the first `images` images.
    pub fn over(regions: &Regions, images: usize, places: usize) -> ImageSums
        requires images { images ≤ MOST }
        requires places { places ≤ BLOCK }
        requires room { IsRoomFor images places regions.now }
        ensures { AreImageSums regions.now result }
    {
        ImageSums {
            images,
            places,
            sums: sum_images(regions, images, places),
        }
    }

    /// Whether all sectors at a place are known to be zeros.
    pub fn is_blank(&self, place: usize) -> bool
        requires { self.now.places ≤ BLOCK }
        ensures { IsTrue result → (room : Room) → AreImageSums room self.now → IsBlankAt room self.now.images place }
    {
        place < self.places && self.sums[place].is_blank
    }

    /// Whether P's equation holds in a row at a place, where it leaves out this image. None where the place is none
    /// of these.
    pub fn p_holds(&self, out: LeftOut, place: usize) -> Option<bool>
        requires { self.now.places ≤ BLOCK }
        ensures there { IfSome result (λ holds. place < self.now.places) }
        ensures holds { (room : Room) (cells : List Cell) (slots : List (Option ℕ)) → AreImageSums room self.now → AddsAllBut cells slots self.now.images out →
            IfSome result (λ holds. Decides holds (Cancel in_p cells (slots_column room slots place))) }
    {
        if self.places <= place {
            return None;
        }
        let sum = &self.sums[place];
        match out {
            LeftOut::Nobody => Some(sum.is_zero),
            LeftOut::One(image) => flag_at(&sum.is_image, image as usize),
        }
    }
}

/// The flag at a place, where there is one.
fn flag_at(flags: &[bool], place: usize) -> Option<bool>
    ensures { IfSome result (λ flag. flag ≡ slice_index_or flags.now place false) }
{
    flags.get(place).copied()
}
