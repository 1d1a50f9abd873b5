//! Whether the attached images are those that the plan or the command takes.
ghost use Rattle.std.specs.Prelude.{◌≡◌, ◌≤◌, ◌<◌, ◌^◌, IfSome, length, min, nat_eq, nat_le, not, slice_index};
ghost use Rattle.std.specs.List.{find, range_with_len};
ghost use Rattle.std.specs.Option.{option_map};
ghost use Rattle.outside.specs.Seen.{lengths_of};
ghost use Rattle.run_ends.specs.Agreement.{count_fault as count_fault_of, end_of as end_of_images, length_fault as length_fault_of, other_length, limits_fault as limits_fault_of, long_fault as long_fault_of, plan_fault as plan_fault_of, shortest as shortest_of};

use outside::{Images, MOST_ATTACHED};
use raid_params::MOST;

/// An image of as many sectors is too long for an offset of its own: 2^54.
const LONG: u64 = 1 << 54;

/// What of the images disagrees.
#[derive(Clone, Copy)]
pub enum Kind {
    /// Their number.
    Count,
    /// The length of the image of this number.
    Length(u8),
    /// The end that was asked for, which is past the shortest image.
    End,
    /// The number of offsets, which are not one for each image.
    Offsets,
    /// The number of rows, which are too many.
    Rows,
    /// The length of the image of this number, which is too long for an offset of its own.
    Long(u8),
}

/// How the images disagree with the plan, or with what the command takes.
#[derive(Clone, Copy)]
pub struct Disagreement {
    /// What disagrees.
    pub kind: Kind,
    /// What the words or the images have: the number of names, the sectors of the image, the end, or the number of offsets or rows.
    pub given: u64,
    /// What the plan has, or the command takes: the number of images, the sectors of the image, those of the
    /// shortest image, the most that an image may have, or the most rows.
    pub planned: u64,
}

/// How the images of `names` names disagree with a plan of images of these lengths, in sectors: by their number, or by the
/// first length that is not the planned one.
pub fn plan_fault<I: Images>(images: &I, names: usize, lengths: &[u64]) -> Option<Disagreement>
    requires few { length lengths.now ≤ MOST }
    ensures { result ≡ plan_fault_of lengths.now names (I.seen images.now).attached }
{
    if names != lengths.len() {
        return Some(count_fault(names, lengths.len()));
    }
    length_fault(images, lengths)
}

/// The first image whose length is not the planned one.
fn length_fault<I: Images>(images: &I, planned: &[u64]) -> Option<Disagreement>
    requires few { length planned.now ≤ MOST }
    ensures { result ≡ option_map (length_fault_of (lengths_of (I.seen images.now).attached) planned.now) (other_length (lengths_of (I.seen images.now).attached) planned.now) }
{
    match first_other(images, planned) {
        Some(image) => Some(Disagreement {
            kind: Kind::Length(image as u8),
            given: sectors_of(images, image),
            planned: planned[image],
        }),
        None => None,
    }
}

/// The number of the first image whose length is not the planned one.
fn first_other<I: Images>(images: &I, planned: &[u64]) -> Option<usize>
    requires few { length planned.now ≤ MOST }
    ensures first { result ≡ other_length (lengths_of (I.seen images.now).attached) planned.now }
    ensures within { IfSome result (λ image. image < length planned.now) }
{
    (0..planned.len()).find(|image: &usize| has_other_length(images, *image, planned))
}

/// How the images of `names` names disagree with what a command over one set takes: there are none, or
/// more than `MOST`, or the end that is asked for is past the shortest.
pub fn limits_fault<I: Images>(images: &I, names: usize, end: Option<u64>) -> Option<Disagreement>
    requires attached { length (I.seen images.now).attached ≡ min names MOST_ATTACHED }
    ensures { result ≡ limits_fault_of end names (I.seen images.now).attached }
{
    if names == 0 {
        return Some(count_fault(names, 1));
    }
    if names > MOST {
        return Some(count_fault(names, MOST));
    }
    let given = end_of(images, names, end);
    let planned = shortest(images, names);
    if planned < given {
        Some(Disagreement {
            kind: Kind::End,
            given,
            planned,
        })
    } else {
        None
    }
}

/// The first of the `count` attached images that is too long for an offset of its own.
pub fn long_fault<I: Images>(images: &I, count: usize) -> Option<Disagreement>
    requires attached { length (I.seen images.now).attached ≡ count }
    requires few { count ≤ MOST }
    ensures { result ≡ long_fault_of (I.seen images.now).attached }
{
    match first_long(images, count) {
        Some(image) => Some(Disagreement {
            kind: Kind::Long(image as u8),
            given: sectors_of(images, image),
            planned: LONG - 1,
        }),
        None => None,
    }
}

/// The number of the first of the `count` attached images that is too long for an offset of its own.
fn first_long<I: Images>(images: &I, count: usize) -> Option<usize>
    requires attached { length (I.seen images.now).attached ≡ count }
    requires few { count ≤ MOST }
    ensures first { result ≡ find (λ i. nat_le (2 ^ 54) (slice_index (lengths_of (I.seen images.now).attached) i)) (range_with_len 0 count) }
    ensures within { IfSome result (λ image. image < count) }
{
    (0..count).find(|image: &usize| is_long(images, *image))
}

/// Whether an image is too long for an offset of its own.
fn is_long<I: Images>(images: &I, image: usize) -> bool
    requires few { image < MOST_ATTACHED }
    ensures { result ≡ nat_le (2 ^ 54) (slice_index (lengths_of (I.seen images.now).attached) image) }
{
    LONG <= sectors_of(images, image)
}

/// The number of images is not the planned one.
fn count_fault(given: usize, planned: usize) -> Disagreement
    ensures { result ≡ count_fault_of given planned }
{
    Disagreement {
        kind: Kind::Count,
        given: given as u64,
        planned: planned as u64,
    }
}

/// The end that is asked for, or else the length of the shortest of the `count` attached images.
pub fn end_of<I: Images>(images: &I, count: usize, end: Option<u64>) -> u64
    requires attached { length (I.seen images.now).attached ≡ count }
    requires few { count ≤ MOST_ATTACHED }
    ensures { result ≡ end_of_images end (I.seen images.now).attached }
{
    match end {
        Some(sector) => sector,
        None => shortest(images, count),
    }
}

/// The length of the shortest of the `count` attached images, 0 where there are none.
#[tactic(auto, using(crate::proofs::Lengths::shortest_first, crate::proofs::Lengths::shortest_more))]
fn shortest<I: Images>(images: &I, count: usize) -> u64
    requires attached { length (I.seen images.now).attached ≡ count }
    requires few { count ≤ MOST_ATTACHED }
    ensures { result ≡ shortest_of (lengths_of (I.seen images.now).attached) }
{
    let mut least = sectors_of(images, 0);
    for image in 1..count {
        least = least.min(sectors_of(images, image));
    }
    least
}

/// Whether the length of an image is not the planned one.
fn has_other_length<I: Images>(images: &I, image: usize, planned: &[u64]) -> bool
    requires few { length planned.now ≤ MOST }
    requires within { image < length planned.now }
    ensures { result ≡ not (nat_eq (slice_index (lengths_of (I.seen images.now).attached) image) (slice_index planned.now image)) }
{
    sectors_of(images, image) != planned[image]
}

/// The length of an attached image in sectors, 0 where there is none of this number.
#[tactic(auto, using(crate::proofs::Lengths::sectors_at))]
pub fn sectors_of<I: Images>(images: &I, image: usize) -> u64
    requires few { image < MOST_ATTACHED }
    ensures { result ≡ slice_index (lengths_of (I.seen images.now).attached) image }
{
    images.length(image as u32).unwrap_or(0)
}
