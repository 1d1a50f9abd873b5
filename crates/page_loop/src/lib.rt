//! Pages of what passes in a search, made part after part of its ranks.
//!
//! A [`PageWalk`] knows how many ranks there are, goes to one, and gathers what passes part after part, as the sets of one
//! head after another, into a page in the making. [`next_page`] makes the page from a rank on with it: it passes over no
//! part, and ends where the page is full or its range ends.
//!
//! What a page is stands in `Page` of `search_terms`, with the laws of joined pages: they speak of any test of ranks.
//! `specs/Parts` says what a part brings.
#![tactic(auto)]

mod page_walk;
mod paging;

pub use page_walk::{PageWalk, Part};
pub use paging::{MadePage, NoPage, next_page};
