//! The texts of values: numbers, names, lists, and the word of a parameter set.
//!
//! Each value has one text, and a text is read as a value exactly where it is that value's text to its last byte.
//! [`Spelled`] is what a text spells, [`Field`] what may stand before any separator, and [`Listed`] what stands in lists in
//! rising order. [`list`] and [`rising`] read lists, [`read_members`], [`read_delays`], [`read_chunks`], [`read_sectors`] and
//! [`read_places`] those of bounded numbers, [`add_list`] writes them; [`read_set`], [`write_set`] and [`set_line`] do the same for sets,
//! [`read_common_set`] and [`common_set_line`] for those with an offset that is common to all images.
//!
//! Plans and the words of the command line are made of these texts, and of those of landmarks, which `landmark_text` adds. How values are spelled stands in
//! `specs/Spelling`, the word of a set in `specs/SetText`, and that a set has one word in `specs/Laws`.
#![tactic(auto)]

mod bounded;
mod front;
mod laws;
mod listed;
mod names;
mod number;
mod offset;
mod rotation;
mod set;
mod set_word;
mod spelled;
mod text;

// The tests stand in `text_rows`.

pub use bounded::{read_chunks, read_delays, read_members, read_places, read_sectors};
pub use front::cut;
pub use laws::set_words_have_one_spelling;
pub use names::{LEVELS, PATTERNS, SYNDROMES, pattern_name, syndrome_name};
pub use number::{after, read_number};
pub use set::{common_set_line, set_line, write_set};
pub use set_word::{read_common_set, read_set};
pub use spelled::{Field, Listed, Spelled, add_list, list, rising, value_until};
pub use text::{Text, add_number};
