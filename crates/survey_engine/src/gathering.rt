//! The sightings of images.
ghost use Rattle.std.specs.Prelude.{◌≡◌, ◌+◌, ◌-◌, ◌*◌, ◌^◌, ◌<◌, ◌≤◌, fold, length, slice_index, All, IfErr, IfOk, OnOk, IfSome};
ghost use Rattle.gpt_marks.specs.Header.{IsUnit};
ghost use Rattle.survey_engine.specs.Sweep.{next_of};
ghost use Rattle.outside.specs.Attached.{told_all};
ghost use Rattle.outside.specs.Seen.{OnlyReads, lengths_of};
ghost use Rattle.survey_engine.specs.Blocks.{found_in_block, found_in_row};
ghost use Rattle.survey_engine.specs.Kept.{kept_with};
ghost use Rattle.survey_engine.specs.Sightings.{is_early, AreBefore, AreSightings};
ghost use Rattle.survey_engine.specs.Surveys.{found_in, EndsSurvey, IsSurveyable};

use crate::ask::Ask;
use crate::count::Counter;
use crate::planning::SurveyFault;
use crate::sighting::{Sighting, first_sector, sighting_in};
use crate::sweep::Sweep;
use outside::{Images, Memory};
use raid_params::MOST;
use std::alloc::Global;

/// The sightings that count among those of the images, in order of sector, then image. No sector below
/// the smallest offset is read, and each sector from there to the end is read once.
pub fn gather<I: Images>(
    alloc: Global,
    images: &mut I,
    ask: &Ask,
    lengths: &[u64],
) -> Result<Vec<Sighting>, SurveyFault>
    requires set { IsSurveyable ask.now (I.seen images.old).attached }
    requires lengths { lengths.now ≡ lengths_of (I.seen images.old).attached }
    ensures told { IfOk result (λ found. IfSome (told_all (I.seen images.old).attached)
        (λ bytes. found.items ≡ found_in ask.now (I.seen images.old).attached bytes)) }
    ensures sightings { IfOk result (λ found. AreSightings lengths.now found.items) }
    ensures reads { OnlyReads (I.seen images.old) (I.seen images.new)
        (length (I.seen images.old).attached * (ask.now.end - slice_index ask.now.bounds.offsets.items 0)) }
    ensures ends { IfErr result (EndsSurvey (I.seen images.old) (I.seen images.new)) }
    ensures stays { OnOk result ((I.seen images.new).faults ≡ (I.seen images.old).faults) }
{
    let first = first_sector(ask).min(ask.end);
    let mut sweep = Sweep::new(alloc, lengths.len(), first, ask.end).map_err(
        |_| SurveyFault::Memory,
    )?;
    let mut counted = Counter::new(alloc);
    while sweep.advance(images).map_err(|_| SurveyFault::ReadFault)? {
        look_at_block(ask, lengths, &sweep, &mut counted).map_err(|_| SurveyFault::Memory)?;
    }
    Ok(counted.into_vec())
}

/// Adds the sightings in the blocks of a sweep.
#[tactic(auto, using(crate::proofs::Rows::rows_none, crate::proofs::Rows::rows_more, crate::proofs::Rows::rows_all))]
fn look_at_block(
    ask: &Ask,
    lengths: &[u64],
    sweep: &Sweep,
    counted: &mut Counter,
) -> Result<(), Memory>
    requires unit { IsUnit ask.now.unit }
    requires images { length sweep.now.blocks ≡ length lengths.now }
    requires few { length lengths.now ≤ MOST }
    requires long { All (λ n. next_of sweep.now ≤ n) lengths.now }
    requires near { next_of sweep.now < 2 ^ 55 }
    requires before { AreBefore lengths.now (sweep.now.first * MOST) counted.old }
    ensures found { OnOk result (counted.new ≡ fold (kept_with is_early) counted.old (found_in_block ask.now lengths.now sweep.now sweep.now.count)) }
    ensures before { OnOk result (AreBefore lengths.now (next_of sweep.now * MOST) counted.new) }
{
    for place in 0..sweep.count() {
        look_at_row(ask, lengths, sweep, place, counted)?;
    }
    Ok(())
}

/// Adds the sightings in one sector of each image.
#[tactic(auto, using(crate::proofs::Rows::row_none, crate::proofs::Rows::row_all))]
fn look_at_row(
    ask: &Ask,
    lengths: &[u64],
    sweep: &Sweep,
    place: usize,
    counted: &mut Counter,
) -> Result<(), Memory>
    requires unit { IsUnit ask.now.unit }
    requires images { length sweep.now.blocks ≡ length lengths.now }
    requires few { length lengths.now ≤ MOST }
    requires place { place < sweep.now.count }
    requires long { All (λ n. next_of sweep.now ≤ n) lengths.now }
    requires near { next_of sweep.now < 2 ^ 55 }
    requires before { AreBefore lengths.now ((sweep.now.first + place) * MOST) counted.old }
    ensures found { OnOk result (counted.new ≡ fold (kept_with is_early) counted.old (found_in_row ask.now lengths.now sweep.now (length lengths.now) place)) }
    ensures before { OnOk result (AreBefore lengths.now ((sweep.now.first + place + 1) * MOST) counted.new) }
{
    let sector = sweep.first() + place as u64;
    for (image, length) in lengths.iter().enumerate() {
        let bytes = sweep.sector(image, place);
        if let Some(sighting) = sighting_in(ask, *length, image as u8, sector, bytes) {
            counted.add(sighting)?;
        }
    }
    Ok(())
}
