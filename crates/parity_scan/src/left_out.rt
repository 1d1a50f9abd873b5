//! Which image P's equation leaves out in a row.
ghost use Rattle.std.specs.Prelude.{ℕ, ◌≡◌, ◌<◌, ◌≤◌, ◌+◌, if◌then◌else◌, bit_xor, length, map, slice_index_or, All, Bool, IfSome, IsSomeAnd, IsTrue, List, false};
ghost use Rattle.raid_params.specs.declared.limits.TheConstants.{MOST};
ghost use Rattle.raid_terms.specs.Parity.{has_p as has_p_of, in_p, IsRow};
ghost use Rattle.row_parity.specs.Syndromes.{known_in, known_sum};
ghost use Rattle.member_regions.specs.Members.{IsTestable};
ghost use Rattle.parity_scan.specs.ChunkRows.{IsChunkRow};
ghost use Rattle.parity_scan.specs.Equations.{DecideRow};
ghost use Rattle.parity_scan.specs.ImageSums.{AddsAllBut, held_byte, IsUnmarked, IsWhole, marked_sum};

use crate::equations::{Factors, row_factors};
use arrayvec::ArrayVec;
use raid_layouts::row_cells;
use raid_params::{Cell, Geometry, MOST, Part};
use row_parity::missing_part;

/// Which of the images P's equation adds up: all, or all but one.
#[derive(Clone, Copy)]
pub enum LeftOut {
    /// All.
    Nobody,
    /// All but this one.
    One(u8),
}

/// A chunk row of a set: its cells, and which of the images P's equation leaves out there, where that is known.
#[derive(Drop)]
pub struct ChunkRow {
    /// Its number among the rows of chunks.
    pub at: u64,
    /// A cell for each slot.
    pub cells: ArrayVec<Cell, MOST>,
    /// Each slot that is not empty holds one of the images.
    pub within: bool,
    /// Which of the images P's equation leaves out, where that is known.
    pub out: Option<LeftOut>,
    /// The factors of the one equation that decides its rows, where they were asked for and there is one.
    pub factors: Option<Factors>,
}

/// A chunk row of a set over the first `images` images, with the factors of its equation where these are asked for.
#[tactic(auto, using(member_regions::proofs::Sets::testable_head, member_regions::proofs::Sets::testable_slots, member_regions::proofs::Sets::testable_row, member_regions::proofs::Sets::row_length))]
pub fn chunk_row(geo: &Geometry, at: u64, images: usize, with_factors: bool) -> ChunkRow
    requires set { IsTestable geo.now }
    requires images { images ≤ MOST }
    ensures { IsChunkRow geo.now images at result }
{
    let cells = row_cells(geo, at);
    let within = are_within(&geo.slots, images);
    let out = left_out(&cells, &geo.slots, images);
    let factors = asked_factors(with_factors, &cells, &geo.slots);
    ChunkRow {
        at,
        cells,
        within,
        out,
        factors,
    }
}

/// The factors of the one equation that decides a row, where they are asked for and there is one.
fn asked_factors(are_asked: bool, cells: &[Cell], slots: &[Option<u8>]) -> Option<Factors>
    requires cells { IsRow cells.now }
    requires slots { length cells.now ≡ length slots.now }
    ensures { IfSome result (DecideRow cells.now slots.now) }
{
    if !are_asked {
        return None;
    }
    row_factors(cells, slots)
}

/// Whether slots hold none but the first `images` images.
fn are_within(slots: &[Option<u8>], images: usize) -> bool
    ensures { IsTrue result → All (λ slot. IfSome slot (λ image. image < images)) slots.now }
{
    slots.iter().all(|held| is_within(*held, images))
}

/// Whether a slot holds none but the first `images` images.
fn is_within(held: Option<u8>, images: usize) -> bool
    ensures { IsTrue result → IfSome held (λ image. image < images) }
{
    match held {
        Some(image) => (image as usize) < images,
        None => true,
    }
}

/// Makes a chunk row of a set another one of it, where it is not that already.
pub fn turn_row(geo: &Geometry, row: &mut ChunkRow, at: u64, images: usize, with_factors: bool)
    requires set { IsTestable geo.now }
    requires images { images ≤ MOST }
    requires row { IsChunkRow geo.now images row.old.at row.old }
    ensures { IsChunkRow geo.now images at row.new }
{
    if row.at != at {
        *row = chunk_row(geo, at, images, with_factors);
    }
}

/// Which of the first `images` images P's equation leaves out in a row. None where it leaves out more, where a cell is missing
/// and where there is no P.
fn left_out(cells: &[Cell], slots: &[Option<u8>], images: usize) -> Option<LeftOut>
    requires slots { length cells.now ≡ length slots.now }
    requires images { images ≤ MOST }
    ensures whole { IfSome result (λ out. IsWhole cells.now slots.now images) }
    ensures sums { IfSome result (AddsAllBut cells.now slots.now images) }
{
    if !has_p(cells) || missing_part(cells).is_some() {
        return None;
    }
    let marks = added_images(cells, slots, images)?;
    unmarked(&marks, images)
}

/// Whether a row has a P.
fn has_p(cells: &[Cell]) -> bool
    ensures { result ≡ has_p_of cells.now }
{
    cells.iter().any(|cell| matches!(cell.part, Part::P))
}

/// Marks those of the first `images` images that P's equation adds up. None where a slot is empty or holds another.
fn added_images(cells: &[Cell], slots: &[Option<u8>], images: usize) -> Option<[bool; MOST]>
    requires slots { length cells.now ≡ length slots.now }
    requires images { images ≤ MOST }
    ensures held { IfSome result (λ marks. All (λ slot. IsSomeAnd slot (λ image. image < images)) slots.now) }
    ensures sums { IfSome result (λ marks. (f : ℕ → ℕ) → known_sum in_p cells.now (map (held_byte f) slots.now) ≡ marked_sum f marks images) }
{
    let mut marks = [false; MOST];
    for place in 0..cells.len() {
        let image = slots[place]? as usize;
        if images <= image {
            return None;
        }
        turn_mark(&mut marks, image, is_added(cells[place]));
    }
    Some(marks)
}

/// Turns the mark of an image where it is added: what is added twice is not added.
fn turn_mark(marks: &mut [bool], image: usize, added: bool)
    requires { image < length marks.old }
    ensures sums { (f : ℕ → ℕ) (n : ℕ) → image < n → n ≤ length marks.old → marked_sum f marks.new n ≡ bit_xor (marked_sum f marks.old n) (if added then f image else 0) }
    ensures long { length marks.new ≡ length marks.old }
{
    if added {
        marks[image] = !marks[image];
    }
}

/// Whether P's equation adds up a cell.
fn is_added(cell: Cell) -> bool
    ensures { (byte : ℕ) → known_in in_p cell byte ≡ (if result then byte else 0) }
{
    if cell.missing {
        return false;
    }
    match cell.part {
        Part::Block(_) | Part::P => true,
        Part::Q => false,
    }
}

/// Which of the first `images` images alone is not marked. None where there are more.
fn unmarked(marks: &[bool], images: usize) -> Option<LeftOut>
    requires marks { images ≤ length marks.now }
    requires images { images ≤ MOST }
    ensures { IfSome result (IsUnmarked marks.now images) }
{
    let mut out = LeftOut::Nobody;
    for image in 0..images {
        out = with_image(out, image as u8, marks[image])?;
    }
    Some(out)
}

/// Which of the images up to this one is left out, where this is left out of the earlier ones. None where more than one is.
fn with_image(out: LeftOut, image: u8, marked: bool) -> Option<LeftOut>
    ensures { (marks : List Bool) → slice_index_or marks image false ≡ marked → IsUnmarked marks image out → IfSome result (IsUnmarked marks (image + 1)) }
{
    if marked {
        return Some(out);
    }
    match out {
        LeftOut::Nobody => Some(LeftOut::One(image)),
        LeftOut::One(_) => None,
    }
}
