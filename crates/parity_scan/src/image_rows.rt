//! The rows of a set over a block of image sectors.
ghost use Rattle.std.specs.Prelude.{ℕ, List, ◌≡◌, ◌+◌, ◌-◌, ◌*◌, ◌/◌, ◌^◌, ◌<◌, ◌≤◌, ◌&&◌, length, slice_index, slice_index_or, All, IfSome, None, Some};
ghost use Rattle.raid_terms.specs.Cells.{row_cells as cells_of_row};
ghost use Rattle.raid_terms.specs.Parity.{has_q as has_q_of, is_sound, is_sound_row};
ghost use Rattle.raid_params.specs.declared.limits.TheConstants.{MOST};
ghost use Rattle.member_regions.specs.Members.{IsTestable};
ghost use Rattle.member_regions.specs.declared.regions.TheConstants.{BLOCK};
ghost use Rattle.member_regions.specs.ImageSums.{room_byte};
ghost use Rattle.member_regions.specs.Regions.{IsRoomFor, Room};
ghost use Rattle.parity_scan.specs.Equations.{AreBytesAt, AreKnown, DecideRow};
ghost use Rattle.parity_scan.specs.ImageRows.{asks as asks_for, rows_of as tested, rows_before as tested_before, AddsRun, HoldsSet, IsLeftAfter};
ghost use Rattle.parity_scan.specs.ChunkRows.{IsChunkRow};
ghost use Rattle.parity_scan.specs.ImageSums.{AreImageSums, slots_column};

use crate::equations::has_q;
use crate::image_sums::ImageSums;
use crate::known_rows::KnownRows;
use crate::left_out::{ChunkRow, chunk_row, turn_row};
use crate::runs::Run;
use crate::tally::Tally;
use member_regions::Regions;
use outside::SECTOR;
use raid_params::{Cell, Geometry, MOST};
use row_parity::row_holds;
use search_scope::{Scope, tested_rows};

/// The bytes of a row of as many members as there may be.
pub const ROW: usize = MOST * SECTOR;

/// How many rows of a set a search by this scope tests.
pub fn rows_of(scope: &Scope, geo: &Geometry) -> u64
    requires { IsTestable geo.now }
    ensures rows { result ≡ tested scope.now geo.now }
    ensures within { result ≤ scope.now.end - geo.now.head.offset }
    ensures short { result ≤ scope.now.limits.window }
{
    tested_rows(scope.end, scope.limits, geo.head.chunk, geo.head.offset)
}

/// How many of the tested rows of a set lie before an image sector.
pub fn rows_before(scope: &Scope, geo: &Geometry, sector: u64) -> u64
    requires { IsTestable geo.now }
    ensures { result ≡ tested_before scope.now geo.now sector }
{
    rows_of(scope, geo).min(sector.saturating_sub(geo.head.offset))
}

/// Whether the tally of a set is open and some of its tested rows lie in the run.
pub fn asks(scope: &Scope, geo: &Geometry, tally: Tally, run: Run) -> bool
    requires set { IsTestable geo.now }
    requires run { run.first + run.count < 2 ^ 64 }
    ensures { result ≡ asks_for scope.now geo.now tally run }
{
    tally.is_open()
        && rows_before(scope, geo, run.first) < rows_before(scope, geo, run.first + run.count)
}

/// A tally after the rows of its set in a run. The regions hold the run's sectors, one region an image. What is known of rows
/// is asked and added to. `room` is room for a row.
pub fn tally_after(
    scope: &Scope,
    geo: &Geometry,
    tally: Tally,
    regions: &Regions,
    sums: &ImageSums,
    run: Run,
    known: &mut KnownRows,
    room: &mut [u8],
) -> Tally
    requires set { IsTestable geo.now }
    requires offset { geo.now.head.offset < 2 ^ 55 }
    requires images { All (λ slot. IfSome slot (λ image. image < regions.now.members)) geo.now.slots.items }
    requires sums { AreImageSums regions.now sums.now }
    requires known { AreKnown regions.now known.old }
    requires run { run.first + run.count < 2 ^ 55 }
    requires held { 512 * run.count ≤ regions.now.stride }
    requires room { length room.old ≡ ROW }
    ensures adds { AddsRun scope.now geo.now run regions.now tally result }
    ensures known { AreKnown regions.now known.new }
    ensures room { length room.new ≡ ROW }
{
    let Tally::Left(left) = tally else {
        return tally;
    };
    if !asks(scope, geo, tally, run) {
        return tally;
    }
    let from = rows_before(scope, geo, run.first);
    let to = rows_before(scope, geo, run.first + run.count);
    rows_left_after(geo, regions, sums, run, from, to, left, known, room)
}

/// The tally after the rows from one up to another, where `left` may be unsound. It stops at the first row too many. `room`
/// is room for a row.
#[tactic(auto, using(member_regions::proofs::Sets::testable_head, member_regions::proofs::Sets::testable_slots, member_regions::proofs::Sets::testable_chunk))]
fn rows_left_after(
    geo: &Geometry,
    regions: &Regions,
    sums: &ImageSums,
    run: Run,
    from: u64,
    to: u64,
    left: u64,
    known: &mut KnownRows,
    room: &mut [u8],
) -> Tally
    requires set { IsTestable geo.now }
    requires offset { geo.now.head.offset < 2 ^ 55 }
    requires images { All (λ slot. IfSome slot (λ image. image < regions.now.members)) geo.now.slots.items }
    requires sums { AreImageSums regions.now sums.now }
    requires run { run.first + run.count < 2 ^ 55 }
    requires held { 512 * run.count ≤ regions.now.stride }
    requires known { AreKnown regions.now known.old }
    requires from { run.first ≤ geo.now.head.offset + from }
    requires to { geo.now.head.offset + to ≤ run.first + run.count }
    requires rows { from ≤ to }
    requires room { length room.old ≡ ROW }
    ensures left { (images : List (List ℕ)) → HoldsSet images run regions.now geo.now → IsLeftAfter images geo.now from to left result }
    ensures known { AreKnown regions.now known.new }
    ensures room { length room.new ≡ ROW }
{
    let mut row = chunk_row(geo, from / geo.head.chunk, sums.images, known.are_kept);
    let mut rest = left;
    for t in from..to {
        turn_row(
            geo,
            &mut row,
            t / geo.head.chunk,
            sums.images,
            known.are_kept,
        );
        let place = geo.head.offset + t - run.first;
        if !is_sound_at(geo, &row, regions, sums, place as usize, known, room) {
            if rest == 0 {
                return Tally::Fails;
            }
            rest -= 1;
        }
    }
    Tally::Left(rest)
}

/// Whether the sectors number `place` of the regions are a sound row of a set, in this chunk row. `room` is room for
/// them.
fn is_sound_at(
    geo: &Geometry,
    row: &ChunkRow,
    regions: &Regions,
    sums: &ImageSums,
    place: usize,
    known: &mut KnownRows,
    room: &mut [u8],
) -> bool
    requires set { IsTestable geo.now }
    requires row { IsChunkRow geo.now sums.now.images row.now.at row.now }
    requires images { All (λ slot. IfSome slot (λ image. image < regions.now.members)) geo.now.slots.items }
    requires sums { AreImageSums regions.now sums.now }
    requires known { AreKnown regions.now known.old }
    requires place { 512 * place + 512 ≤ regions.now.stride }
    requires room { length room.old ≡ ROW }
    ensures sound { (images : List (List ℕ)) (run : Run) (t : ℕ) → HoldsSet images run regions.now geo.now → place < run.count →
        geo.now.head.offset + t ≡ run.first + place → row.now.at ≡ t / geo.now.head.chunk → result ≡ is_sound_row images geo.now t }
    ensures known { AreKnown regions.now known.new }
    ensures room { length room.new ≡ ROW }
{
    if let Some(sound) = told_sound(row, sums, place) {
        return sound;
    }
    is_row_sound(geo, row, regions, place, known, room)
}

/// Whether a row at a place is sound, where the sums decide it: all is zeros, or P's equation does not hold, or there is no
/// other.
fn told_sound(row: &ChunkRow, sums: &ImageSums, place: usize) -> Option<bool>
    requires { sums.now.places ≤ BLOCK }
    ensures { (room : Room) (geo : Geometry) → AreImageSums room sums.now → IsTestable geo → IsChunkRow geo sums.now.images row.now.at row.now →
        IfSome result (λ sound. sound ≡ is_sound row.now.cells.items (slots_column room geo.slots.items place)) }
{
    if row.within && sums.is_blank(place) {
        return Some(true);
    }
    let out = row.out?;
    let holds = sums.p_holds(out, place)?;
    if needs_q(holds, &row.cells) {
        return None;
    }
    Some(holds)
}

/// Whether Q's equation decides of a row: P's holds, and there is a Q.
fn needs_q(holds: bool, cells: &[Cell]) -> bool
    ensures { result ≡ (holds && has_q_of cells.now) }
{
    holds && has_q(cells)
}

/// Whether the sectors number `place` of the regions of a set's images are a sound row. Where it is known whether they meet
/// the equation that decides it, they are not tested. `room` is room for them.
#[tactic(auto, using(member_regions::proofs::Sets::row_length, member_regions::proofs::Sets::testable_row))]
fn is_row_sound(
    geo: &Geometry,
    row: &ChunkRow,
    regions: &Regions,
    place: usize,
    known: &mut KnownRows,
    room: &mut [u8],
) -> bool
    requires set { IsTestable geo.now }
    requires cells { row.now.cells.items ≡ cells_of_row geo.now row.now.at }
    requires factors { IfSome row.now.factors (DecideRow row.now.cells.items geo.now.slots.items) }
    requires images { All (λ slot. IfSome slot (λ image. image < regions.now.members)) geo.now.slots.items }
    requires place { 512 * place + 512 ≤ regions.now.stride }
    requires known { AreKnown regions.now known.old }
    requires room { length room.old ≡ ROW }
    ensures sound { result ≡ is_sound row.now.cells.items (slots_column regions.now geo.now.slots.items place) }
    ensures known { AreKnown regions.now known.new }
    ensures room { length room.new ≡ ROW }
{
    let Some(factors) = &row.factors else {
        return is_tested_sound(geo, row, regions, place, room);
    };
    are_bytes(geo, regions, place);
    if let Some(sound) = known.told(factors, place) {
        return sound;
    }
    let sound = is_tested_sound(geo, row, regions, place, room);
    known.note(factors, place, sound);
    sound
}

/// Whether the sectors number `place` of the regions of a set's images are a sound row, by a test of them. `room` is room for
/// them.
#[tactic(auto, using(member_regions::proofs::Sets::row_length, member_regions::proofs::Sets::testable_row))]
fn is_tested_sound(
    geo: &Geometry,
    row: &ChunkRow,
    regions: &Regions,
    place: usize,
    room: &mut [u8],
) -> bool
    requires set { IsTestable geo.now }
    requires cells { row.now.cells.items ≡ cells_of_row geo.now row.now.at }
    requires images { All (λ slot. IfSome slot (λ image. image < regions.now.members)) geo.now.slots.items }
    requires place { 512 * place + 512 ≤ regions.now.stride }
    requires room { length room.old ≡ ROW }
    ensures sound { result ≡ is_sound row.now.cells.items (slots_column regions.now geo.now.slots.items place) }
    ensures room { length room.new ≡ ROW }
{
    let cells: &[Cell] = &row.cells;
    copy_row(geo, regions, place, room);
    row_holds(cells, &room[..SECTOR * cells.len()])
}

/// The sectors number `place` of the images of a set are bytes, which is what an equation speaks of: it says so, and does nothing.
fn are_bytes(geo: &Geometry, regions: &Regions, place: usize)
    requires images { All (λ slot. IfSome slot (λ image. image < regions.now.members)) geo.now.slots.items }
    requires place { 512 * place + 512 ≤ regions.now.stride }
    ensures { AreBytesAt regions.now geo.now.slots.items place }
{
    for (slot, held) in geo.slots.iter().enumerate() {
        if let Some(image) = *held {
            is_of_bytes(regions, image as usize, place);
        }
    }
}

/// A sector of an image is bytes.
fn is_of_bytes(regions: &Regions, image: usize, place: usize)
    requires image { image < regions.now.members }
    requires place { 512 * place + 512 ≤ regions.now.stride }
    ensures { (x : ℕ) → x < 512 → room_byte regions.now (512 * place + x) image < 256 }
{
    are_below_256(regions.region(image, place, 1));
}

/// Bytes are below 256.
fn are_below_256(bytes: &[u8])
    ensures { (x : ℕ) → slice_index bytes.now x < 256 }
{}

/// Copies the sectors number `place` of the images of a set into a row, that of each slot to its place.
fn copy_row(geo: &Geometry, regions: &Regions, place: usize, row: &mut [u8])
    requires slots { length geo.now.slots.items ≤ MOST }
    requires images { All (λ slot. IfSome slot (λ image. image < regions.now.members)) geo.now.slots.items }
    requires place { 512 * place + 512 ≤ regions.now.stride }
    requires row { length row.old ≡ ROW }
    ensures copied { (slot image x : ℕ) → slot < length geo.now.slots.items → slice_index_or geo.now.slots.items slot None ≡ Some image → x < 512 →
        slice_index row.new (512 * slot + x) ≡ slice_index regions.now.bytes (regions.now.stride * image + (512 * place + x)) }
    ensures row { length row.new ≡ ROW }
{
    for (slot, held) in geo.slots.iter().enumerate() {
        if let Some(image) = *held {
            put_sector(row, slot, regions.region(image as usize, place, 1));
        }
    }
}

/// Writes a sector into a row, at the place of a slot.
fn put_sector(row: &mut [u8], slot: usize, sector: &[u8])
    requires slot { 512 * slot + 512 ≤ length row.old }
    requires sector { length sector.now ≡ 512 }
    ensures long { length row.new ≡ length row.old }
    ensures before { (p : ℕ) → p < 512 * slot → slice_index row.new p ≡ slice_index row.old p }
    ensures here { (x : ℕ) → x < 512 → slice_index row.new (512 * slot + x) ≡ slice_index sector.now x }
{
    let at = SECTOR * slot;
    row[at..at + SECTOR].copy_from_slice(sector);
}
