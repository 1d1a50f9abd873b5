//! The origins of a plan: those that were asked for, and those that partition tables hint at.
ghost use Rattle.std.specs.Prelude.{◌≡◌, ℕ, ◌+◌, ◌*◌, ◌^◌, ◌<◌, ◌≤◌, if◌then◌else◌, count_by, length, map, slice_index, take, All, IfOk, IfSome, MatchOption, OnOk};
ghost use Rattle.outside.specs.Attached.{told_all};
ghost use Rattle.outside.specs.Causes.{HasCause};
ghost use Rattle.outside.specs.Seen.{OnlyReads, lengths_of};
ghost use Rattle.std.specs.List.{filter_map, insert};
ghost use Rattle.gpt_marks.specs.Entry.{first_lbas};
ghost use Rattle.gpt_marks.specs.Header.{IsUnit};
ghost use Rattle.survey_engine.specs.Kept.{with_number};
ghost use Rattle.survey_engine.specs.Landmarks.{IsSoundTable};
ghost use Rattle.survey_engine.specs.Origins.{first_sector, has_entries, headers_of, is_followed, hints_at, origins_of, with_numbers, AreOrigins};
ghost use Rattle.survey_engine.specs.Sightings.{AreSightings, IsInImages};

use crate::landmark::{GptTable, Landmark};
use crate::sighting::Sighting;
use arrayvec::ArrayVec;
use gpt_marks::read_entries;
use landmark_rules::MOST_ORIGINS;
use outside::{Failed, Images, SECTOR};
use sector_fields::DISTANCE_LIMIT;

/// The bytes of an entry of a partition table.
const ENTRY: u32 = 128;

/// Origins in rising order.
type Origins = ArrayVec<u64, MOST_ORIGINS>;

/// The origins asked for and those that the headers which count give, in rising order. Of more than
/// `MOST_ORIGINS` the smallest are kept. It reads at most one sector for each of these headers that
/// entries follow.
pub fn origins<I: Images>(
    images: &mut I,
    asked: &[u64],
    lengths: &[u64],
    found: &[Sighting],
) -> Result<Origins, Failed>
    requires asked { AreOrigins asked.now }
    requires found { AreSightings lengths.now found.now }
    requires lengths { lengths.now ≡ lengths_of (I.seen images.old).attached }
    requires short { All (λ n. n < 2 ^ 55) lengths.now }
    ensures told { IfOk result (λ origins. IfSome (told_all (I.seen images.old).attached)
        (λ bytes. origins.items ≡ origins_of asked.now lengths.now bytes found.now)) }
    ensures origins { IfOk result (λ origins. AreOrigins origins.items) }
    ensures reads { OnlyReads (I.seen images.old) (I.seen images.new) (count_by (is_followed lengths.now) found.now) }
    ensures cause { HasCause (I.seen images.old).faults (I.seen images.new).faults result }
{
    let mut origins = Origins::new();
    origins.try_extend_from_slice(asked).unwrap();
    for sighting in found {
        add_hints(images, lengths, sighting, &mut origins)?;
    }
    Ok(origins)
}

/// The sightings whose entries are read: all, if partition tables are looked for.
pub fn headers_of(asked: bool, found: &[Sighting]) -> &[Sighting]
    ensures { result.now ≡ headers_of asked found.now }
{
    if asked { found } else { &found[..0] }
}

/// Adds the hints of a sighting: where it is a header whose entries follow, the first sectors of the
/// partitions that the first sector of the next block lists.
fn add_hints<I: Images>(
    images: &mut I,
    lengths: &[u64],
    sighting: &Sighting,
    origins: &mut Origins,
) -> Result<(), Failed>
    requires lengths { lengths.now ≡ lengths_of (I.seen images.old).attached }
    requires short { All (λ n. n < 2 ^ 55) lengths.now }
    requires sighting { IsInImages lengths.now sighting.now }
    requires origins { AreOrigins origins.old.items }
    ensures told { OnOk result (IfSome (told_all (I.seen images.old).attached)
        (λ bytes. origins.new.items ≡ with_numbers origins.old.items (hints_at lengths.now bytes sighting.now))) }
    ensures origins { OnOk result (AreOrigins origins.new.items) }
    ensures reads { OnlyReads (I.seen images.old) (I.seen images.new) (if is_followed lengths.now sighting.now then 1 else 0) }
    ensures cause { HasCause (I.seen images.old).faults (I.seen images.new).faults result }
{
    match &sighting.landmark {
        Landmark::Gpt(table) => {
            if !has_entries(table, sighting.sector, lengths[sighting.image as usize]) {
                return Ok(());
            }
            let mut sector = [0; SECTOR];
            images.read(
                sighting.image as u32,
                sighting.sector + table.unit,
                &mut sector,
            )?;
            add_firsts(origins, &first_sectors(table, &sector));
            Ok(())
        }
        _ => Ok(()),
    }
}

/// The first sectors of the partitions that a sector of the entries of a table lists, each below 2^55.
fn first_sectors(table: &GptTable, sector: &[u8; SECTOR]) -> [Option<u64>; 4]
    requires { IsUnit table.now.unit }
    ensures firsts { result ≡ map (first_sector table.now.unit) (first_lbas sector.now table.now.header.alternate) }
    ensures near { All (λ o. IfSome o (λ first. first < 2 ^ 55)) result }
{
    let blocks = read_entries(sector, table.header.alternate);
    [
        first_sector(table.unit, blocks[0]),
        first_sector(table.unit, blocks[1]),
        first_sector(table.unit, blocks[2]),
        first_sector(table.unit, blocks[3]),
    ]
}

/// The first sector of a partition, by its first block of `unit` sectors. None where it is 2^55 or more.
#[tactic(auto, using(crate::proofs::Marks::block_small))]
fn first_sector(unit: u64, first: Option<u64>) -> Option<u64>
    requires unit { IsUnit unit }
    requires within { IfSome first (λ block. block < 2 ^ 55) }
    ensures first { result ≡ first_sector unit first }
    ensures near { IfSome result (λ sector. sector < 2 ^ 55) }
{
    match first {
        Some(block) if unit * block < DISTANCE_LIMIT => Some(unit * block),
        _ => None,
    }
}

/// Adds the first sectors of the partitions.
#[tactic(auto, using(crate::proofs::Firsts::firsts_none, crate::proofs::Firsts::firsts_some, crate::proofs::Firsts::firsts_same, crate::proofs::Firsts::firsts_all, crate::proofs::Firsts::near_at, crate::proofs::Numbers::origins_with))]
fn add_firsts(origins: &mut Origins, firsts: &[Option<u64>])
    requires origins { AreOrigins origins.old.items }
    requires near { All (λ o. IfSome o (λ first. first < 2 ^ 55)) firsts.now }
    ensures items { origins.new.items ≡ with_numbers origins.old.items (filter_map (λ first. first) firsts.now) }
    ensures origins { AreOrigins origins.new.items }
{
    for first in firsts {
        if let Some(first) = first {
            add_origin(origins, *first);
        }
    }
}

/// Whether the entries after a header begin in the next block of its image, which has that length.
#[tactic(auto, using(crate::proofs::Marks::lba_small, crate::proofs::Marks::unit_small))]
fn has_entries(table: &GptTable, sector: u64, length: u64) -> bool
    requires table { IsSoundTable table.now }
    requires sector { sector < 2 ^ 55 }
    ensures { result ≡ has_entries table.now sector length }
{
    let header = &table.header;
    header.entry_size == ENTRY && header.table == header.my_lba + 1 && sector + table.unit < length
}

/// Puts a number into its place, where the list does not have it yet, and drops the last where there is
/// no room for it.
#[tactic(auto, using(crate::proofs::Numbers::all_taken))]
fn add_origin(origins: &mut Origins, number: u64)
    ensures { origins.new.items ≡ take MOST_ORIGINS (with_number origins.old.items number) }
{
    if let Some(place) = place_for(origins.as_slice(), number) {
        insert_at(origins, place, number);
    }
}

/// Inserts a number, and drops the last where there is no room for it.
#[tactic(auto, using(crate::proofs::Numbers::all_taken, crate::proofs::Numbers::past_all, crate::proofs::Numbers::put_in_full, crate::proofs::Numbers::put_in))]
fn insert_at(origins: &mut Origins, place: usize, number: u64)
    requires { place ≤ length origins.old.items }
    ensures { origins.new.items ≡ take MOST_ORIGINS (insert origins.old.items place number) }
{
    if !origins.is_full() {
        origins.insert(place, number);
    } else if place < MOST_ORIGINS {
        origins.truncate(MOST_ORIGINS - 1);
        origins.insert(place, number);
    }
}

/// The place that a number takes in a rising list, and None where the list has it already.
fn place_for(numbers: &[u64], number: u64) -> Option<usize>
    ensures { MatchOption result (with_number numbers.now number ≡ numbers.now)
        (λ place. (place ≤ length numbers.now) × (with_number numbers.now number ≡ insert numbers.now place number)) }
{
    for (place, other) in numbers.iter().enumerate() {
        if number == *other {
            return None;
        }
        if number < *other {
            return Some(place);
        }
    }
    Some(numbers.len())
}
