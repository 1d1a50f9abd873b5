//! The top call of `reraid-nbd`, which carries the promise of the whole program.
//!
//! [`reraid_nbd()`] reads the words, attaches the images that they name, and serves the volume of their set by NBD, until the client ends
//! the dialogue or the input ends; for `--help` or `--version` alone it puts a text in place of that. The words, the refusals and the
//! volume are those of the commands `write` and `mirrorwrite` of `reraid`, and beside a word `maps=FILE` those of `salvage` or of a damaged mirror; the dialogue is
//! that of `nbd_text`.
//!
//! `reraid_nbd` calls it over real files, `reraid_rows` over objects in memory. Start at [`reraid_nbd()`]: its clauses are the promise.
//! What a run does stands in `specs/Runs` and `Mapped`, what the words ask for in `specs/Words`, and each status with its line in `specs/Ends`.
#![tactic(auto)]

mod asking;
mod ends;
mod mapping;
mod mending;
mod running;
mod showing;
mod telling;
mod top;

pub use command_words::Word;
pub use ends::NbdEnd;
pub use nbd_server::NbdStop;
pub use run_ends::{Notice, Refusal};
pub use telling::Alone;
pub use top::reraid_nbd;
