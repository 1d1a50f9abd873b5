//! What a search goes through: the definitions in which the contracts of the crates of the search speak.
//!
//! It runs nothing. Read `specs/SlotLists` for the orders of images over the slots, `Product` for all parameter sets in
//! their order, and `Page` for the part of them that a listing prints at a time. `slot_math`, `set_product` and
//! `page_engine` compute them. The laws here are [`joined_pages_from`], [`joined_pages`] and [`pages_go_on`].
#![tactic(auto)]

ghost use Rattle.search_terms.specs.Page.{JoinedPagesAreTheFilter, JoinedPagesAreWhatPasses, PagesGoOn};

/// Joined pages from any rank on are exactly what passes from there up to where the last of them goes
/// on, each rank once and in order.
pub fn joined_pages_from()
    ensures { JoinedPagesAreWhatPasses }
{}

/// Joined pages up to the total are the whole filter, each rank once and in order.
pub fn joined_pages()
    ensures { JoinedPagesAreTheFilter }
{}

/// Below the total each page goes on.
pub fn pages_go_on()
    ensures { PagesGoOn }
{}
