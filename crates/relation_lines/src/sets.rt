//! Sets of images, and the parts of a row.
ghost use Rattle.std.specs.Prelude.{◌≡◌, ◌+◌, ◌<◌, ◌≤◌, length};
ghost use Rattle.relation_lines.specs.Sets.{image_bit as bit_of_image, is_in as is_in_set, join as joined_parts, parts_of as parts_of_table, tie_of as tie_in_table};

use arrayvec::ArrayVec;
use row_relations::{MOST_IMAGES, RowTable, Standing};

/// Sets of images, no more than there are images.
pub(crate) type Parts = ArrayVec<u64, MOST_IMAGES>;

/// The set of one image.
pub(crate) fn image_bit(image: usize) -> u64
    requires { image < MOST_IMAGES }
    ensures { result ≡ bit_of_image image }
{
    1 << (MOST_IMAGES - 1 - image)
}

/// Whether an image is in a set.
pub(crate) fn is_in(set: u64, image: usize) -> bool
    requires { image < MOST_IMAGES }
    ensures { result ≡ is_in_set set image }
{
    set & image_bit(image) != 0
}

/// An image, and those whose sum it is.
#[tactic(auto, using(crate::proofs::Loops::set_more))]
fn tie_of(table: &RowTable, image: usize) -> u64
    requires { image < length table.now.standings }
    ensures { result ≡ tie_in_table table.now image }
{
    let mut tie = 0;
    for other in 0..table.images() {
        if other == image || table.weight(image, other) != 0 {
            tie |= image_bit(other);
        }
    }
    tie
}

/// The parts, where all that a tie meets become one with it.
fn join(parts: &[u64], tie: u64) -> Parts
    requires { length parts.now < MOST_IMAGES }
    ensures parts { result.items ≡ joined_parts parts.now tie }
    ensures few { length result.items ≤ length parts.now + 1 }
{
    let mut joined = tie;
    let mut others = Parts::new();
    for part in parts {
        if *part & tie == 0 {
            others.push(*part);
        } else {
            joined |= *part;
        }
    }
    others.push(joined);
    others
}

/// The parts into which the ties of a row connect its images.
#[tactic(auto, using(crate::proofs::Loops::parts_more))]
pub(crate) fn parts_of(table: &RowTable) -> Parts
    ensures parts { result.items ≡ parts_of_table table.now }
    ensures few { length result.items ≤ 64 }
{
    let mut parts = Parts::new();
    for image in 0..table.images() {
        if matches!(table.standing(image), Standing::Dependent) {
            parts = join(&parts, tie_of(table, image));
        }
    }
    parts
}
