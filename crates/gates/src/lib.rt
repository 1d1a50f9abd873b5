//! What pieces of work that may run side by side pass before they begin.
//!
//! A scan splits its work into pieces, and each passes the caller's [`Gate`] once. A test's gate notes which pieces came, and
//! holds each until the others have come too: so it sees that they ran side by side. A program gives an [`OpenGate`].
#![tactic(auto)]

mod gate;

pub use gate::{Gate, OpenGate};
