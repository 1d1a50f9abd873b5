//! Sightings: the landmark sectors that a survey takes notice of.
ghost use Rattle.std.specs.Prelude.{◌≡◌, ◌<◌, IfSome, slice_index};
ghost use Rattle.gpt_marks.specs.Header.{IsUnit};
ghost use Rattle.survey_engine.specs.Landmarks.{IsSound};
ghost use Rattle.survey_engine.specs.Sightings.{is_dropped, is_sighting, sighting_in};

use crate::ask::Ask;
use crate::landmark::{Landmark, read_landmark};
use sector_fields::SECTOR;

/// A landmark sector that was found.
#[derive(Clone, Copy)]
pub struct Sighting {
    /// The number of its image.
    pub image: u8,
    /// Its sector of the image.
    pub sector: u64,
    /// What it is.
    pub landmark: Landmark,
}

/// The sighting in a sector of an image of that length, by its bytes.
#[tactic(auto, unfolding(crate::specs::Sightings::sighting_in))]
pub fn sighting_in(
    ask: &Ask,
    length: u64,
    image: u8,
    sector: u64,
    bytes: &[u8; SECTOR],
) -> Option<Sighting>
    requires sector { sector < length }
    requires unit { IsUnit ask.now.unit }
    ensures found { result ≡ sighting_in ask.now length (record { sector = sector; image = image }) bytes.now }
    ensures place { IfSome result (λ s. (s.image ≡ image) × (s.sector ≡ sector)) }
    ensures sound { IfSome result (λ s. IsSound s.landmark) }
{
    match read_landmark(bytes, ask.unit) {
        Some(landmark) if is_sighting(ask, length, image, sector, &landmark) => Some(Sighting {
            image,
            sector,
            landmark,
        }),
        _ => None,
    }
}

/// Whether a landmark is a sighting: it is looked for, and its sector neither lies before the smallest offset,
/// nor is passed over, nor is a header of the image's own partition table.
fn is_sighting(ask: &Ask, length: u64, image: u8, sector: u64, landmark: &Landmark) -> bool
    requires sector { sector < length }
    requires sound { IsSound landmark.now }
    ensures { result ≡ is_sighting ask.now length (record { sector = sector; image = image }) landmark.now }
{
    landmark.is_asked(&ask.kinds)
        && first_sector(ask) <= sector
        && !is_dropped(ask, image, sector)
        && !landmark.is_own(sector, length)
}

/// The first sector that is looked at: the smallest offset, since offsets rise.
pub fn first_sector(ask: &Ask) -> u64
    ensures { result ≡ slice_index ask.now.bounds.offsets.items 0 }
{
    ask.bounds.offsets.first().copied().unwrap_or(0)
}

/// Whether a sector of an image is passed over.
fn is_dropped(ask: &Ask, image: u8, sector: u64) -> bool
    ensures { result ≡ is_dropped ask.now (record { sector = sector; image = image }) }
{
    ask.drops
        .iter()
        .any(|drop| drop.image == image && drop.sector == sector)
}
