//! Which prefixes of slot lists a row of sectors allows.
//!
//! Where a row is sound under a set, its parity equations are relations of its sectors: their weights, by the image in each slot. So a
//! prefix of slots of which no relation has the weights begins no set under which the row is sound: [`laws`] says so, over
//! `specs/Prefixes`, for as many empty slots as a set may have.
//!
//! [`RowTies`] has what the table of a row says in few numbers: a relation of the row is told by a weight for each of its ties.
//! What is asked of an image is then one linear condition on these, and [`System`] takes one after the other and says which
//! contradicts those before it. Where a lost slot may still come, a row is asked of all its places at once: `joint` has what both equations
//! ask of the ties together, `lost_weights` what that leaves to the lost slot, and `refusals` counts the rows that refuse each place.
//!
//! [`SampledRows`] keeps the ties of some rows, and [`HeadRelations`] asks them of the slot lists of a head: a prefix may begin a set where no
//! more of the tested rows refuse it than may be unsound, with no slot lost or with some one that may still be. What it says stands in
//! `specs/Sampled`. The law: where a set passes the parity test, each prefix of its slots may begin a set, whichever its rows are. The walk
//! of `head_walk` goes by it.
#![tactic(auto)]

mod beginning;
mod condition;
mod demand;
mod equation;
mod head_relations;
mod joint;
pub mod laws;
mod lost_weights;
mod pins;
mod refusals;
mod row_ties;
mod sampled;
mod sampled_rows;
mod system;
mod weights;
mod whole;

pub use condition::{Condition, MOST_TIES};
pub use equation::Equation;
pub use head_relations::HeadRelations;
pub use row_ties::RowTies;
pub use sampled::{PrefixTest, SampledRow};
pub use sampled_rows::SampledRows;
pub use system::System;
pub use weights::RowWeights;
