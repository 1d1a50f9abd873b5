//! The command `map`.
ghost use Rattle.std.specs.Prelude.{◌≡◌, ◌<◌, ◌≤◌, ◌+◌, ◌++◌, ◌^◌, ◌⊎◌, All, IfErr, IfOk, IfSome, IsTrue, None, OnOk, Some, codes, decimal, false, length, min, slice_index_or, unwrap_or};
ghost use Rattle.run_ends.specs.Agreement.{end_of as end_of_images};
ghost use Rattle.run_ends.specs.Printing.{or_dash};
ghost use Rattle.outside.specs.Streams.{Stream};
ghost use Rattle.run_ends.specs.Jobs.{Answers, Does, Refuses, around, named, stream};
ghost use Rattle.run_ends.specs.Stops.{IsEarly};
ghost use Rattle.set_jobs.specs.Mapping.{base_at, bases_refusal, geo_refusal, images_refusal, late_refusal, layout_name as layout_name_of, long_refused, map_job, map_text as map_text_of, name_line, place_line, sector_refusal, set_refusal};
ghost use Rattle.value_text.specs.SetText.{HasWord};
ghost use Rattle.raid_params.specs.Validity.{early_fault, first_fault, is_valid_head};
ghost use Rattle.raid_terms.specs.Role.{p_of, q_of};
ghost use Rattle.raid_terms.specs.Address.{home_item, home_row, home_sector, home_slot};

use address_map::{Home, locate, volume_sectors};
use outside::{Images, MOST_ATTACHED, Memory, Sink};
use raid_layouts::{md_name, p_slot, q_slot};
use raid_params::{Head, MOST, Wide, WideFault};
use run_ends::{
    Disagreement, Refusal, SectorFault, Stop, add_or_dash, end_of, limits_fault, long_fault, print,
};
use std::alloc::Global;
use value_text::{Text, add_number};

/// Prints where a sector of the volume of a set lies. The text is made before any of it is put, so only a
/// fault of the output leaves a part of it. `names` is the number of images; `end` is the image sector after the
/// last one of the members, or None for the shortest image's.
#[inline(never)]
pub fn map<I: Images, K: Sink>(
    alloc: Global,
    images: &I,
    names: usize,
    set: &Wide,
    end: Option<u64>,
    sector: u64,
    out: &mut K,
) -> Result<(), Stop>
    requires attached { length (I.seen images.now).attached ≡ min names MOST_ATTACHED }
    requires small { All (λ image. image.sectors < 2 ^ 55) (I.seen images.now).attached }
    requires set { HasWord set.now }
    requires end { IfSome end (λ sector. sector < 2 ^ 55) }
    ensures { (source : Stream) → Does (map_job set.now end sector) (named names (I.seen images.now).attached)
        (around (I.seen images.now) source) (around (I.seen images.now) source)
        (stream (K.gained out.old) (K.faults out.old)) (stream (K.gained out.new) (K.faults out.new)) result }
{
    print(out, answer(alloc, images, names, set, end, sector))
}

/// The text of `map`, or why there is none.
#[tactic(auto, using(raid_layouts::proofs::Shapes::shaped_head, raid_layouts::proofs::Shapes::shaped_slots, raid_params::proofs::Ruled::ruled_shape))]
fn answer<I: Images>(
    alloc: Global,
    images: &I,
    names: usize,
    set: &Wide,
    end: Option<u64>,
    sector: u64,
) -> Result<Text, Stop>
    requires attached { length (I.seen images.now).attached ≡ min names MOST_ATTACHED }
    requires small { All (λ image. image.sectors < 2 ^ 55) (I.seen images.now).attached }
    requires set { HasWord set.now }
    requires end { IfSome end (λ sector. sector < 2 ^ 55) }
    ensures { (source : Stream) → Answers (map_job set.now end sector) (named names (I.seen images.now).attached)
        (around (I.seen images.now) source) (around (I.seen images.now) source) result }
{
    match suited_end(images, names, set, end) {
        Ok(end) => place_text(alloc, set, end, sector),
        Err(refusal) => Err(Stop::Refused(refusal)),
    }
}

/// The text of `map` over a set whose members end before the image sector `end`.
fn place_text(alloc: Global, set: &Wide, end: u64, sector: u64) -> Result<Text, Stop>
    requires head { IsTrue (is_valid_head set.now.geo.head) }
    requires slots { length set.now.geo.slots.items ≡ set.now.geo.head.members }
    requires set { HasWord set.now }
    requires end { end < 2 ^ 55 }
    ensures text { IfOk result (λ text. text ≡ map_text_of set.now sector) }
    ensures refuses { Refuses (sector_refusal set.now.geo.head end sector) result }
    ensures early { IfErr result IsEarly }
{
    match home_of(&set.geo.head, end, sector) {
        Ok(home) => Ok(map_text(alloc, set, &home)?),
        Err(refusal) => Err(Stop::Refused(refusal)),
    }
}

/// The end of the members, where `names` images and the set are such that a command over the set goes on.
#[tactic(auto, using(crate::proofs::SetRefusals::geo_refused, crate::proofs::SetRefusals::late_refused, crate::proofs::SetRefusals::set_allowed, crate::proofs::SetRefusals::late_none, crate::proofs::SetRefusals::all_kept))]
pub fn suited_end<I: Images>(
    images: &I,
    names: usize,
    set: &Wide,
    end: Option<u64>,
) -> Result<u64, Refusal>
    requires attached { length (I.seen images.now).attached ≡ min names MOST_ATTACHED }
    requires small { All (λ image. image.sectors < 2 ^ 55) (I.seen images.now).attached }
    requires end { IfSome end (λ sector. sector < 2 ^ 55) }
    ensures end { IfOk result (λ e. (e ≡ end_of_images end (I.seen images.now).attached) × (e < 2 ^ 55)) }
    ensures geo { OnOk result (geo_refusal set.now end names (I.seen images.now).attached ≡ None) }
    ensures bases { OnOk result (bases_refusal set.now names ≡ None) }
    ensures allowed { OnOk result (set_refusal set.now end names (I.seen images.now).attached ≡ None) }
    ensures valid { IfOk result (λ e. first_fault set.now.geo names e ≡ None) }
    ensures refused { IfErr result (λ refusal. set_refusal set.now end names (I.seen images.now).attached ≡ Some refusal) }
{
    match allowed_end(images, names, set, end) {
        Ok(end) => match late_fault(set, names as u8, end) {
            None => Ok(end),
            Some(refusal) => Err(refusal),
        },
        Err(refusal) => Err(refusal),
    }
}

/// The end of the members, where `names` images are such that a command over the set goes on, and the set breaks no
/// rule but those on its bases and its delay.
#[tactic(auto, using(run_ends::proofs::Lengths::end_near, crate::proofs::SetRefusals::images_refused, crate::proofs::SetRefusals::rule_refused, crate::proofs::SetRefusals::geo_allowed))]
pub fn allowed_end<I: Images>(
    images: &I,
    names: usize,
    set: &Wide,
    end: Option<u64>,
) -> Result<u64, Refusal>
    requires attached { length (I.seen images.now).attached ≡ min names MOST_ATTACHED }
    requires small { All (λ image. image.sectors < 2 ^ 55) (I.seen images.now).attached }
    requires end { IfSome end (λ sector. sector < 2 ^ 55) }
    ensures end { IfOk result (λ e. (e ≡ end_of_images end (I.seen images.now).attached) × (e < 2 ^ 55)) }
    ensures allowed { OnOk result (geo_refusal set.now end names (I.seen images.now).attached ≡ None) }
    ensures valid { IfOk result (λ e. early_fault set.now.geo names e ≡ None) }
    ensures few { OnOk result (names ≤ MOST) }
    ensures refused { IfErr result (λ refusal. geo_refusal set.now end names (I.seen images.now).attached ≡ Some refusal) }
{
    let end = images_end(images, names, set, end)?;
    match set.geo.validate_early(names as u8, end) {
        Ok(()) => Ok(end),
        Err(fault) => Err(Refusal::Set(fault)),
    }
}

/// The end of the members, where `names` images are such that a command over the set goes on.
#[tactic(auto, using(crate::proofs::SetRefusals::limits_refused, crate::proofs::SetRefusals::length_refused, crate::proofs::SetRefusals::images_allowed))]
pub fn images_end<I: Images>(
    images: &I,
    names: usize,
    set: &Wide,
    end: Option<u64>,
) -> Result<u64, Refusal>
    requires attached { length (I.seen images.now).attached ≡ min names MOST_ATTACHED }
    ensures end { IfOk result (λ e. e ≡ end_of_images end (I.seen images.now).attached) }
    ensures few { OnOk result (names ≤ MOST) }
    ensures allowed { OnOk result (images_refusal set.now end names (I.seen images.now).attached ≡ None) }
    ensures refused { IfErr result (λ refusal. images_refusal set.now end names (I.seen images.now).attached ≡ Some refusal) }
{
    if let Some(fault) = limits_fault(images, names, end) {
        return Err(Refusal::Images(fault));
    }
    if let Some(fault) = long_for(images, names, set) {
        return Err(Refusal::Images(fault));
    }
    Ok(end_of(images, names, end))
}

/// The first of `count` images that is too long for the bases of the set.
fn long_for<I: Images>(images: &I, count: usize, set: &Wide) -> Option<Disagreement>
    requires attached { length (I.seen images.now).attached ≡ count }
    requires few { count ≤ MOST }
    ensures { result ≡ long_refused set.now (I.seen images.now).attached }
{
    if set.bases.is_empty() {
        None
    } else {
        long_fault(images, count)
    }
}

/// The refusal of bases that do not suit `images` images or the slots, or else of a delay that does not suit the pattern,
/// where the set breaks no earlier rule.
#[tactic(auto, using(crate::proofs::SetRefusals::by_late))]
pub fn late_fault(set: &Wide, images: u8, end: u64) -> Option<Refusal>
    requires { early_fault set.now.geo images end ≡ None }
    ensures { result ≡ late_refusal set.now images }
{
    match set.validate(images, end) {
        Ok(()) => None,
        Err(WideFault::Bases(count)) => Some(Refusal::Bases(count)),
        Err(WideFault::Geo(fault)) => Some(Refusal::Set(fault)),
    }
}

/// Where a sector of the volume lies.
#[tactic(auto, using(crate::proofs::Homes::home_near, address_map::proofs::Lies::slot_in))]
fn home_of(head: &Head, end: u64, sector: u64) -> Result<Home, Refusal>
    requires head { IsTrue (is_valid_head head.now) }
    requires end { end < 2 ^ 55 }
    ensures home { IfOk result (λ home. (home.row ≡ home_row head.now sector) × (home.item ≡ home_item head.now sector)
        × (home.slot ≡ home_slot head.now sector) × (home.sector ≡ home_sector head.now sector) × (home.slot < head.now.members)) }
    ensures near { IfOk result (λ home. home.sector < 2 ^ 55) }
    ensures allowed { OnOk result (sector_refusal head.now end sector ≡ None) }
    ensures refused { IfErr result (λ refusal. sector_refusal head.now end sector ≡ Some refusal) }
{
    match locate(head, end, sector) {
        Some(home) => Ok(home),
        None => Err(Refusal::Sector(SectorFault {
            sector,
            size: volume_sectors(head, end),
        })),
    }
}

/// The two lines of `map`.
#[tactic(auto, unfolding(crate::specs::Mapping::place_line))]
fn map_text(alloc: Global, set: &Wide, home: &Home) -> Result<Text, Memory>
    requires head { IsTrue (is_valid_head set.now.geo.head) }
    requires slots { length set.now.geo.slots.items ≡ set.now.geo.head.members }
    requires slot { home.now.slot < set.now.geo.head.members }
    requires set { HasWord set.now }
    requires sector { home.now.sector < 2 ^ 55 }
    ensures { IfOk result (λ text. text ≡ place_line set.now home.now.row home.now.item home.now.slot home.now.sector ++ name_line set.now.geo.head) }
{
    let mut text = Text::new(alloc);
    add_item(&mut text, home)?;
    add_image(&mut text, set, home)?;
    add_parity(&mut text, &set.geo.head, home.row)?;
    add_name(&mut text, &set.geo.head)?;
    Ok(text)
}

/// Appends the item: its row, its number in the row and its slot.
fn add_item(text: &mut Text, home: &Home) -> Result<(), Memory>
    ensures { OnOk result (text.new ≡ text.old ++ (codes "row " ++ (decimal home.now.row ++ (codes " item " ++ (decimal home.now.item ++ (codes " slot " ++ decimal home.now.slot)))))) }
{
    text.extend_from_slice(b"row ")?;
    add_number(text, home.row)?;
    text.extend_from_slice(b" item ")?;
    add_number(text, home.item as u64)?;
    text.extend_from_slice(b" slot ")?;
    add_number(text, home.slot as u64)
}

/// Appends the image that holds the sector, and the sector of the image.
fn add_image(text: &mut Text, set: &Wide, home: &Home) -> Result<(), Memory>
    requires slot { home.now.slot < length set.now.geo.slots.items }
    requires set { HasWord set.now }
    requires sector { home.now.sector < 2 ^ 55 }
    ensures { OnOk result (text.new ≡ text.old ++ (codes " image " ++ (or_dash (slice_index_or set.now.geo.slots.items home.now.slot None) ++ (codes " sector " ++ decimal (base_at set.now (slice_index_or set.now.geo.slots.items home.now.slot None) + home.now.sector))))) }
{
    let image = set.geo.slots[home.slot as usize];
    text.extend_from_slice(b" image ")?;
    add_or_dash(text, widened(image))?;
    text.extend_from_slice(b" sector ")?;
    add_number(text, base_of(set, image) + home.sector)
}

/// Where the data of an image begin: at its base, or at the offset where it has none, and where there is no image.
#[tactic(auto, using(crate::proofs::Bases::base_near))]
fn base_of(set: &Wide, image: Option<u8>) -> u64
    requires { HasWord set.now }
    ensures base { result ≡ base_at set.now image }
    ensures near { result < 2 ^ 55 }
{
    let offset = set.geo.head.offset;
    match image {
        Some(image) => set.bases.get(image as usize).copied().unwrap_or(offset),
        None => offset,
    }
}

/// The number of an image or a slot, as a wider one.
fn widened(number: Option<u8>) -> Option<u64>
    ensures { result ≡ number }
{
    match number {
        Some(number) => Some(u64::from(number)),
        None => None,
    }
}

/// Appends the slots of P and Q in a row, and the line feed.
fn add_parity(text: &mut Text, head: &Head, row: u64) -> Result<(), Memory>
    requires { IsTrue (is_valid_head head.now) }
    ensures { OnOk result (text.new ≡ text.old ++ (codes " p " ++ (or_dash (p_of head.now row) ++ (codes " q " ++ (or_dash (q_of head.now row) ++ codes "\n"))))) }
{
    text.extend_from_slice(b" p ")?;
    add_or_dash(text, widened(p_slot(head, row)))?;
    text.extend_from_slice(b" q ")?;
    add_or_dash(text, widened(q_slot(head, row)))?;
    text.extend_from_slice(b"\n")
}

/// Appends the line of the layout's name.
#[tactic(auto, unfolding(crate::specs::Mapping::name_line))]
fn add_name(text: &mut Text, head: &Head) -> Result<(), Memory>
    ensures { OnOk result (text.new ≡ text.old ++ name_line head.now) }
{
    text.extend_from_slice(b"name ")?;
    text.extend_from_slice(layout_name(head).as_bytes())?;
    text.extend_from_slice(b"\n")
}

/// The name of the layout, or a dash: only layouts whose parity stays for one row have one.
fn layout_name(head: &Head) -> &'static str
    ensures { result.now ≡ unwrap_or (layout_name_of head.now) (codes "-") }
{
    if head.delay != 1 {
        return "-";
    }
    match md_name(head.level, head.pattern, head.syndrome) {
        Some(name) => name,
        None => "-",
    }
}
