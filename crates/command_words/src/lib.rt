//! The command line: its words, and what they ask for.
//!
//! The words are a command, its operands `name=value` in any order, each at most once, the word
//! `--`, and the names of the images; or `--help`, `-h`, `help` or `--version` alone. Any other list of words asks for nothing: the
//! first word with which no command goes on is the refused one, and so is one of these four words that another word follows.
//!
//! `reraid_cli` calls [`read_words`] first of all, and `reraid_nbd_cli`, whose words have no command in front, [`read_words_after`]. The
//! operands, their values and their limits stand in
//! `specs/Operands`, the commands with their defaults and the refused word in `specs/Commands`;
//! `docs/FORMATS.md` has them for users. A new operand is a line in each table of `table.rt`, and one field of
//! the command that it belongs to, looked up in `building.rt`. Where a command takes other values under a name
//! than the other commands, as `mirrorwrite` does under `set`, `Verb` says so in `table.rt`.
#![tactic(auto)]

mod building;
mod command;
mod laws;
mod layouts;
mod operands;
mod reading;
mod table;
mod values;
mod word;

pub use building::plain_survey;
pub use command::{Command, Form, MOST_LAYOUTS, MOST_RELATED, RelationWords, SurveyWords, Verb};
pub use laws::words_have_one_reading;
pub use reading::{read_words, read_words_after};
pub use word::Word;
