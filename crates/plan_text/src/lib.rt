//! The texts of reraid: the plan that a search reads, and the lines that it prints.
//!
//! A plan has one text, and a text is read as a plan exactly where it is that plan's text to its
//! last byte: a list of lines, each ended by a line feed, with decimal numbers without sign or
//! leading zero. Any other text is refused at one of its lines. Where each image has an offset of its own, lengths and offsets
//! are below 2^54, and no image is foreign. Version 3 of the text is that of plans with other delays than one, or in which a
//! group has bounds of its own, and says on a line whether each image has an offset of its own; of all others version 2 is that of
//! plans in which each has.
//!
//! [`read_plan`] goes through the text once, a line at a time, and [`write_plan`] is its other direction. What the
//! lines are made of, numbers, names, lists and the words of parameter sets, is `value_text`'s matter, and the lines of
//! JSON are those of `json_lines`: the calls of both stand here too, so this crate is the front of all texts.
//!
//! The text of a plan and its refused line stand in `specs/PlanText`; `docs/FORMATS.md` says the same for users.
//! The laws: a plan has one spelling, and a text has at most one refused line.
#![tactic(auto)]

mod draft;
mod drafting;
mod entry;
mod fault;
mod groups;
mod laws;
mod lines;
mod marks;
mod parts;
mod plan;
mod reader;
mod sections;
mod version;
mod writer;

// The tests stand in `text_rows`.

pub use fault::PlanFault;
pub use json_lines::{json_line, json_next};
pub use landmark_text::group_name;
pub use laws::{one_refused_line, one_spelling};
pub use plan::read_plan;
pub use search_plan::{Limits, Placed, Plan};
pub use value_text::{
    Field, LEVELS, Listed, PATTERNS, SYNDROMES, Spelled, Text, add_number, after, common_set_line,
    cut, pattern_name, read_chunks, read_common_set, read_delays, read_members, read_number,
    read_sectors, read_set, rising, set_line, set_words_have_one_spelling, syndrome_name,
    write_set,
};
pub use writer::write_plan;
