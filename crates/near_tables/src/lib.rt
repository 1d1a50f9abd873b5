//! Which orders of images may be those of a mirror: by how many of its sectors are torn.
//!
//! A sector of the volume is torn between two of its copies where both are there and differ. The chunks of a volume stand in groups
//! of as many as there are members, whose copies take up whole rows, the lanes of a group. So it is enough to know of each two images
//! in how many sectors of a lane the one differs from the other in the same lane or a later one: a [`TornTable`] counts these in
//! one reading of the images, and [`TornTable::torn`] adds up what it says of the slots.
//!
//! What is torn stands in `specs/Torn`, what a table holds in `specs/Tables`. The laws: a table tells just how much is torn,
//! and no more is torn in a prefix of a slot list than in the list.
#![tactic(auto)]

mod lane_reading;
mod laws;
mod lost;
mod tested;
mod torn_strips;
mod torn_table;

// The tests stand in `volume_rows`.

pub use laws::{prefixes_are_torn_less, tables_tell_what_is_torn};
pub use lost::has_lost;
pub use tested::tested_sectors;
pub use torn_table::{TableFault, TornTable};
