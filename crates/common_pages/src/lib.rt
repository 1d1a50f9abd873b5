//! Pages of the parameter sets that pass, of a plan of images with a common offset.
//!
//! A [`page`] has the sets of a range of ranks that have a whole row and meet the landmark test and the
//! parity test on the images. [`pages`] gives page after page.
//!
//! A page is walked head by head; `head_walk` gathers the sets of each, and tests them. The tables of rows are made where
//! the first head needs them and kept for all pages of a call.
//!
//! `page_engine` makes pages of any plan by these, of the same types. The sets of a plan stand in `Sets` of `wide_product`, a page
//! by its ranks in `Page` of `search_terms`, and pages of any plan, with what is read for these, in `specs/Pages`.
#![tactic(auto)]

mod page_parts;
mod paging;
mod walking;

pub use head_walk::{Line, Lines};
pub use page_parts::{CursorFault, ListPage, PageFault, PageList};
pub use paging::{page, pages};
pub use set_product::{product_rank, product_set, product_total};
