//! The exclusive or of the sectors of all images at a place of their regions.
ghost use Rattle.std.specs.Prelude.{ℕ, ◌≡◌, ◌<◌, ◌≤◌, ◌+◌, ◌*◌, bit_xor, length, slice_index};
ghost use Rattle.std.specs.Bool.{Decides};
ghost use Rattle.std.specs.Simd.Lanes.{zip2};
ghost use Rattle.raid_params.specs.declared.limits.TheConstants.{MOST};
ghost use Rattle.member_regions.specs.ImageSums.{IsBlankAt, IsImageSum, room_byte, sum_byte, SumImages};
ghost use Rattle.member_regions.specs.Regions.{IsRoomFor};
ghost use Rattle.member_regions.specs.declared.regions.TheConstants.{BLOCK};

use crate::regions::{BLOCK, Regions};
use lane_kernels::{first_nonzero, xor_into};
use outside::SECTOR;
use raid_params::MOST;

/// What the exclusive or of the sectors of all images at a place is.
#[derive(Clone, Copy, Default)]
pub struct ImageSum {
    /// The exclusive or is zeros.
    pub is_zero: bool,
    /// All of the sectors are zeros.
    pub is_blank: bool,
    /// The exclusive or is the sector of this image, of the first images alone.
    pub is_image: [bool; MOST],
}

/// What the exclusive or of the sectors of the first `images` images is at each of the first `places` places of their
/// regions. Of other places and images nothing is said.
pub fn sum_images(regions: &Regions, images: usize, places: usize) -> [ImageSum; BLOCK]
    requires images { images ≤ MOST }
    requires places { places ≤ BLOCK }
    requires room { IsRoomFor images places regions.now }
    ensures { SumImages regions.now images places result }
{
    let mut sums = [ImageSum::default(); BLOCK];
    for place in 0..places {
        sums[place] = image_sum(regions, images, place);
    }
    sums
}

/// What the exclusive or of the sectors of the first `images` images is at one place.
fn image_sum(regions: &Regions, images: usize, place: usize) -> ImageSum
    requires images { images ≤ MOST }
    requires room { IsRoomFor images (place + 1) regions.now }
    ensures { IsImageSum regions.now images place result }
{
    let sum = sum_at(regions, images, place);
    let mut is_image = [false; MOST];
    for image in 0..images {
        is_image[image] = are_same(&sum, regions.region(image, place, 1));
    }
    ImageSum {
        is_zero: are_zeros(&sum),
        is_blank: are_blank(regions, images, place),
        is_image,
    }
}

/// The exclusive or of the sectors number `place` of the first `images` regions.
fn sum_at(regions: &Regions, images: usize, place: usize) -> [u8; SECTOR]
    requires room { IsRoomFor images (place + 1) regions.now }
    ensures long { length result ≡ 512 }
    ensures sum { (x : ℕ) → x < 512 → slice_index result x ≡ sum_byte regions.now images place x }
    ensures bytes { (image x : ℕ) → image < images → x < 512 → room_byte regions.now (512 * place + x) image < 256 }
{
    let mut sum = [0u8; SECTOR];
    for image in 0..images {
        add_sector(&mut sum, regions.region(image, place, 1));
    }
    sum
}

/// Adds a sector to a sum.
fn add_sector(sum: &mut [u8], sector: &[u8])
    requires { length sum.old ≡ length sector.now }
    ensures sum { sum.new ≡ zip2 bit_xor sum.old sector.now }
    ensures bytes { (x : ℕ) → slice_index sector.now x < 256 }
{
    xor_into(sum, sector);
}

/// Whether the sectors number `place` of the first `images` regions are zeros.
fn are_blank(regions: &Regions, images: usize, place: usize) -> bool
    requires room { IsRoomFor images (place + 1) regions.now }
    ensures { Decides result (IsBlankAt regions.now images place) }
{
    for image in 0..images {
        if !are_zeros(regions.region(image, place, 1)) {
            return false;
        }
    }
    true
}

/// Whether bytes are zeros.
fn are_zeros(bytes: &[u8]) -> bool
    ensures { Decides result ((x : ℕ) → x < length bytes.now → slice_index bytes.now x ≡ 0) }
{
    first_nonzero(bytes).is_none()
}

/// Whether two lists of bytes are the same.
fn are_same(a: &[u8], b: &[u8]) -> bool
    ensures { Decides result (a.now ≡ b.now) }
{
    a == b
}
