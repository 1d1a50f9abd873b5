//! Lists of images.
ghost use Rattle.std.specs.Prelude.{◌≡◌, ◌<◌, ◌≤◌, All, length};
ghost use Rattle.relation_lines.specs.Sets.{images_in as images_of_set};
ghost use Rattle.relation_lines.specs.Text.{dependents_of as dependents_of_table, summands_of as summands_of_table, zeros_of as zeros_of_table};

use crate::sets::is_in;
use arrayvec::ArrayVec;
use row_relations::{MOST_IMAGES, RowTable, Standing};

/// Images, in order.
pub(crate) type Images = ArrayVec<u8, MOST_IMAGES>;

/// The images of a set.
#[tactic(auto, using(crate::proofs::Loops::images_more), unfolding(crate::specs::Sets::images_in))]
pub(crate) fn images_in(set: u64) -> Images
    ensures { result.items ≡ images_of_set set }
{
    let mut images = Images::new();
    for image in 0..MOST_IMAGES {
        if is_in(set, image) {
            images.push(image as u8);
        }
    }
    images
}

/// The images whose sectors are zeros.
#[tactic(auto, using(crate::proofs::Loops::images_more))]
pub(crate) fn zeros_of(table: &RowTable) -> Images
    ensures { result.items ≡ zeros_of_table table.now }
{
    let mut images = Images::new();
    for image in 0..table.images() {
        if matches!(table.standing(image), Standing::Zero) {
            images.push(image as u8);
        }
    }
    images
}

/// The images that are dependent.
#[tactic(auto, using(crate::proofs::Loops::images_more))]
pub(crate) fn dependents_of(table: &RowTable) -> Images
    ensures images { result.items ≡ dependents_of_table table.now }
    ensures within { All (λ image. image < length table.now.standings) result.items }
{
    let mut images = Images::new();
    for image in 0..table.images() {
        if matches!(table.standing(image), Standing::Dependent) {
            images.push(image as u8);
        }
    }
    images
}

/// The images whose sum an image is.
#[tactic(auto, using(crate::proofs::Loops::images_more))]
pub(crate) fn summands_of(table: &RowTable, image: usize) -> Images
    requires { image < length table.now.standings }
    ensures images { result.items ≡ summands_of_table table.now image }
    ensures within { All (λ other. other < length table.now.standings) result.items }
{
    let mut images = Images::new();
    for other in 0..table.images() {
        if table.weight(image, other) != 0 {
            images.push(other as u8);
        }
    }
    images
}
