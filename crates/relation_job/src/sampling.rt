//! Which rows are looked at.
ghost use Rattle.std.specs.Prelude.{◌≡◌, ◌+◌, ◌*◌, ◌≤◌, ◌<◌, ◌^◌, All, IfErr, IfOk, IfSome, OnOk, length, min, slice_index};
ghost use Rattle.outside.specs.Seen.{lengths_of};
ghost use Rattle.relation_job.specs.Looking.{HasRows};
ghost use Rattle.relation_job.specs.Relating.{names_fault as fault_of_names, relations_fault, rows_fault as fault_of_rows};
ghost use Rattle.relation_job.specs.Sampling.{common_rows as rows_of_all, count_to as count_below, least_step as step_of_least, rows_in as rows_of_image, sampling_for};

use command_words::{MOST_RELATED, RelationWords};
use outside::{Images, MOST_ATTACHED};
use relation_lines::MOST_ROWS;
use run_ends::{Disagreement, Kind, sectors_of};

/// The most rows that are looked at where no step is asked for.
const FEW_ROWS: u64 = 4096;

/// The rows that are looked at.
#[derive(Clone, Copy)]
pub struct Sampling {
    /// The first row.
    pub from: u64,
    /// How many rows lie from one to the next, at least 1.
    pub step: u64,
    /// How many rows are looked at.
    pub rows: usize,
}

/// Some neighbours of the rows that are looked at.
#[derive(Clone, Copy)]
pub struct Part {
    /// All rows that are looked at.
    pub sampling: Sampling,
    /// The number of the first of these, counted from 0.
    pub first: usize,
    /// How many these are.
    pub rows: usize,
}

/// Which rows are looked at, or how the images of `names` names disagree with what is asked for.
pub fn sampling_of<I: Images>(
    images: &I,
    names: usize,
    asked: &RelationWords,
) -> Result<Sampling, Disagreement>
    requires attached { length (I.seen images.now).attached ≡ min names MOST_ATTACHED }
    requires small { All (λ image. image.sectors < 2 ^ 55) (I.seen images.now).attached }
    requires step { IfSome asked.now.step (λ step. (1 ≤ step) × (step < 2 ^ 55)) }
    ensures sampling { IfOk result (λ sampling. sampling ≡ sampling_for asked.now (I.seen images.now).attached) }
    ensures allowed { OnOk result (relations_fault asked.now names (I.seen images.now).attached ≡ None) }
    ensures few { IfOk result (λ sampling. sampling.rows ≤ MOST_ROWS) }
    ensures images { OnOk result ((length (I.seen images.now).attached ≡ names) × (names ≤ MOST_RELATED)) }
    ensures rows { IfOk result (λ sampling. HasRows asked.now.offsets.items (lengths_of (I.seen images.now).attached) sampling) }
    ensures refused { IfErr result (λ fault. relations_fault asked.now names (I.seen images.now).attached ≡ Some fault) }
{
    match names_fault(asked.offsets.len(), names) {
        Some(fault) => Err(fault),
        None => sampling_within(images, names, asked),
    }
}

/// How the number of images, or that of offsets, is not one that is taken.
fn names_fault(offsets: usize, names: usize) -> Option<Disagreement>
    ensures fault { result ≡ fault_of_names offsets names }
    ensures few { result ≡ None → (2 ≤ names) × (names ≤ MOST_RELATED) }
{
    if names < 2 {
        return Some(disagreement(Kind::Count, names as u64, 2));
    }
    if MOST_RELATED < names {
        return Some(disagreement(Kind::Count, names as u64, MOST_RELATED as u64));
    }
    if offsets != 0 && offsets != names {
        return Some(disagreement(Kind::Offsets, offsets as u64, names as u64));
    }
    None
}

/// Which rows of images are looked at, of which there are neither too few nor too many.
fn sampling_within<I: Images>(
    images: &I,
    names: usize,
    asked: &RelationWords,
) -> Result<Sampling, Disagreement>
    requires attached { length (I.seen images.now).attached ≡ names }
    requires some { 2 ≤ names }
    requires few { names ≤ MOST_RELATED }
    requires small { All (λ image. image.sectors < 2 ^ 55) (I.seen images.now).attached }
    requires step { IfSome asked.now.step (λ step. (1 ≤ step) × (step < 2 ^ 55)) }
    ensures sampling { IfOk result (λ sampling. sampling ≡ sampling_for asked.now (I.seen images.now).attached) }
    ensures allowed { OnOk result (fault_of_rows asked.now (I.seen images.now).attached ≡ None) }
    ensures few { IfOk result (λ sampling. sampling.rows ≤ MOST_ROWS) }
    ensures rows { IfOk result (λ sampling. HasRows asked.now.offsets.items (lengths_of (I.seen images.now).attached) sampling) }
    ensures refused { IfErr result (λ fault. fault_of_rows asked.now (I.seen images.now).attached ≡ Some fault) }
{
    let left = common_rows(images, names, &asked.offsets);
    let end = asked.end.unwrap_or(left);
    if left < end {
        return Err(disagreement(Kind::End, end, left));
    }
    let step = match asked.step {
        Some(step) => step,
        None => least_step(asked.from, end),
    };
    let rows = count_to(asked.from, step, end);
    if rows > MOST_ROWS as u64 {
        return Err(disagreement(Kind::Rows, rows, MOST_ROWS as u64));
    }
    Ok(Sampling {
        from: asked.from,
        step,
        rows: rows as usize,
    })
}

/// How many rows all of the `names` attached images have.
fn common_rows<I: Images>(images: &I, names: usize, offsets: &[u64]) -> u64
    requires attached { length (I.seen images.now).attached ≡ names }
    requires some { 2 ≤ names }
    requires few { names ≤ MOST_RELATED }
    requires small { All (λ image. image.sectors < 2 ^ 55) (I.seen images.now).attached }
    ensures rows { result ≡ rows_of_all offsets.now (I.seen images.now).attached }
    ensures near { result < 2 ^ 55 }
{
    let mut least = rows_in(images, offsets, 0);
    for image in 1..names {
        least = least.min(rows_in(images, offsets, image));
    }
    least
}

/// How many rows an image has: its length less its offset.
fn rows_in<I: Images>(images: &I, offsets: &[u64], image: usize) -> u64
    requires few { image < MOST_RELATED }
    ensures { result ≡ rows_of_image offsets.now (I.seen images.now).attached image }
{
    sectors_of(images, image).saturating_sub(offset_of(offsets, image))
}

/// The offset of an image, 0 where none is named.
pub fn offset_of(offsets: &[u64], image: usize) -> u64
    ensures { result ≡ slice_index offsets.now image }
{
    match offsets.get(image) {
        Some(offset) => *offset,
        None => 0,
    }
}

/// The least step with which at most `FEW_ROWS` rows are looked at.
fn least_step(from: u64, end: u64) -> u64
    requires { end < 2 ^ 55 }
    ensures step { result ≡ step_of_least from end }
    ensures some { 1 ≤ result }
    ensures near { result < 2 ^ 55 }
{
    ((end.saturating_sub(from) + (FEW_ROWS - 1)) / FEW_ROWS).max(1)
}

/// How many of the rows `from`, `from + step`, .. are below an end.
fn count_to(from: u64, step: u64, end: u64) -> u64
    requires end { end < 2 ^ 55 }
    requires some { 1 ≤ step }
    requires near { step < 2 ^ 55 }
    ensures { result ≡ count_below from step end }
{
    (end.saturating_sub(from) + (step - 1)) / step
}

/// What disagrees.
fn disagreement(kind: Kind, given: u64, planned: u64) -> Disagreement
    ensures { result ≡ record { kind = kind; given = given; planned = planned } }
{
    Disagreement {
        kind,
        given,
        planned,
    }
}
