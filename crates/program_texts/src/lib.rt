//! What the programs say of themselves: how they are used, and their version.
//!
//! Each text stands in `specs/Texts` as it is printed, and once more in `texts.rt`, since a program can put no definition. The jobs of
//! `reraid --help` and `reraid --version` are in `specs/Telling`; `reraid_nbd_cli` puts the texts of `reraid-nbd` itself.
#![tactic(auto)]

mod telling;
mod texts;

pub use telling::{help, version};
pub use texts::{help_text, nbd_help_text, nbd_version_text, version_text};
