//! Pages of the mirrors that pass.
//!
//! [`near_page`] goes through all parameter sets of a [`NearAsk`], in the order of its layouts, members, chunks, offsets and
//! slot lists, and gives those that have a copy of each chunk and no more torn sectors than may be. For each head the images are read once, into a table of the sectors in
//! which each two of them differ (`near_tables`); the slot lists are walked place by place (`candidate_enum`), and a beginning in
//! which a chunk is lost or more is torn than may be is passed over with all that begins so: [`NearHopeful`] admits just the others. The page is made head after head (`page_loop`).
//!
//! The product stands in `specs/Product`, hopeful beginnings in `specs/Hopeful`, and pages with what is read for them in `specs/Pages`.
#![tactic(auto)]

mod ask;
mod gathering;
mod heads;
mod hopeful;
mod laws;
mod paging;
mod parts;
mod walk;

// The tests stand in `volume_rows`.

pub use ask::{MOST_LAYOUTS, NearAsk};
pub use heads::NearSets;
pub use hopeful::NearHopeful;
pub use laws::{
    lost_chunks_have_no_copy, passing_mirrors_are_hopeful, passing_mirrors_break_no_rule,
};
pub use paging::near_page;
pub use parts::{NearFault, NearLine, NearLines, NearPage};
