//! The top call, which carries the promise of the whole program.
//!
//! `reraid` reads the words, attaches the images that they name, and has the command's job done.
//! Every answer but success has its cause in the contract, and the line that goes with it on the
//! notes.
//!
//! `reraid` calls it over real files, `reraid_rows` over objects in memory. Start at [`reraid()`]: its
//! clauses are the promise, and `docs/PROMISES.md` says each in plain words. What a run answers stands in
//! `specs/Answers`, the job of each command in `specs/Table`.
#![tactic(auto)]

mod running;
mod top;

pub use command_words::{Command, Form, SurveyWords, Word, read_words};
pub use gates::{Gate, OpenGate};
pub use page_engine::{CursorFault, Line, Lines, ListPage, PageFault, page};
pub use run_ends::{Refusal, Stop};
pub use top::reraid;
pub use wide_product::{product_rank, product_set, product_total};
