//! Counts the marks of a group by image, slot and origin.
ghost use Rattle.std.specs.Prelude.{◌≡◌, ◌+◌, ◌<◌, ◌^◌, ℕ, IsTrue, length, slice_index_or, All};
ghost use Rattle.raid_params.specs.Validity.{is_valid_head};
ghost use Rattle.raid_params.specs.declared.limits.TheConstants.{MOST};
ghost use Rattle.mark_tables.specs.Marks.{fits_at};
ghost use Rattle.mark_tables.specs.declared.counts.SlotCount.{SlotCount};
ghost use Rattle.mark_tables.specs.Tables.{AreMost, CountMarks, IsOriginTable, one_more};

use crate::counts::{ImageCounts, OriginTable, SlotCount};
use landmark_rules::{Mark, fits, sector_in};
use raid_params::{Head, MOST};

/// The table of a group of marks from an origin. Members end before the image sector `end`.
pub fn table_from(head: &Head, end: u64, marks: &[Mark], origin: u64) -> OriginTable
    requires head { IsTrue (is_valid_head head.now) }
    requires end { end < 2 ^ 55 }
    requires few { length marks.now < 2 ^ 16 }
    requires images { All (λ mark. mark.image < MOST) marks.now }
    ensures { IsOriginTable head.now end marks.now origin result }
{
    let mut table = [[SlotCount::default(); MOST]; MOST];
    let mut later = nothing();
    for back in 0..head.members {
        let slot = head.members - 1 - back;
        later = count_slot(head, end, marks, origin, slot, &later);
        table[slot as usize] = later;
    }
    table
}

/// Nothing, for each image.
fn nothing() -> ImageCounts
    ensures { (image : ℕ) (none : SlotCount) → image < MOST → (slice_index_or result image none).most ≡ 0 }
{
    [SlotCount::default(); MOST]
}

/// What the marks count in a slot, where the images count `later` in those after it.
fn count_slot(
    head: &Head,
    end: u64,
    marks: &[Mark],
    origin: u64,
    slot: u8,
    later: &ImageCounts,
) -> ImageCounts
    requires head { IsTrue (is_valid_head head.now) }
    requires end { end < 2 ^ 55 }
    requires few { length marks.now < 2 ^ 16 }
    requires images { All (λ mark. mark.image < MOST) marks.now }
    requires slot { slot < head.now.members }
    requires later { AreMost (fits_at head.now end marks.now origin) head.now.members (slot + 1) later.now }
    ensures counts { CountMarks head.now end marks.now origin slot result }
    ensures most { AreMost (fits_at head.now end marks.now origin) head.now.members slot result }
{
    let mut counts = count_fits(head, end, marks, origin, slot);
    for image in 0..MOST {
        counts[image].most = counts[image].fits.max(later[image].most);
    }
    counts
}

/// What the marks count in a slot.
fn count_fits(head: &Head, end: u64, marks: &[Mark], origin: u64, slot: u8) -> ImageCounts
    requires head { IsTrue (is_valid_head head.now) }
    requires end { end < 2 ^ 55 }
    requires few { length marks.now < 2 ^ 16 }
    requires images { All (λ mark. mark.image < MOST) marks.now }
    requires slot { slot < head.now.members }
    ensures { CountMarks head.now end marks.now origin slot result }
{
    let mut counts = [SlotCount::default(); MOST];
    for mark in marks {
        if let Some(sector) = sector_in(head, end, slot, mark.sector) {
            let image = mark.image as usize;
            counts[image] = count_mark(&counts[image], fits(&mark.rule, origin, sector));
        }
    }
    counts
}

/// The count with one mark more, that lies where its rule lets it or does not.
fn count_mark(count: &SlotCount, fits: bool) -> SlotCount
    requires fits { count.now.fits + 1 < 2 ^ 16 }
    requires misfits { count.now.misfits + 1 < 2 ^ 16 }
    ensures { result ≡ one_more fits count.now }
{
    let mut more = *count;
    if fits {
        more.fits += 1;
    } else {
        more.misfits += 1;
    }
    more
}
