//! The lines of a listing as JSON (RFC 8259): one compact object a line.
//!
//! [`json_line`] gives the line of a parameter set with its rank, [`json_next`] the one that says where the
//! next page begins. `serde_json` writes the objects. What they hold stands in `specs/Objects`.
#![tactic(auto)]

mod objects;

pub use objects::{json_line, json_next};
