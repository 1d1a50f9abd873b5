//! Pages of the parameter sets of a plan that pass, also where each image has an offset of its own.
//!
//! Where the images of a plan have a common offset, a page is one of `common_pages`. Otherwise it is made part after part: the sets
//! of a head over images with one list of bases are a range of the ranks of a plan over the padded images, and their page is
//! one of `common_pages` over these. Parts of which the marks leave no set are passed over, and nothing is read for them.
#![tactic(auto)]

mod based_page;
mod laws;
mod lines;
mod marked;
mod paging;
mod part_page;
mod part_walk;

pub use common_pages::{CursorFault, Line, Lines, ListPage, PageFault, PageList};
pub use laws::{passing_sets_are_hopeful, whole_lists_take_the_landmark_test};
pub use paging::{page, pages};
