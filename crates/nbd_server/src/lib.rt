//! A server of NBD over a device that is only read, a source and a sink.
//!
//! [`serve`] is the whole: it puts for the bytes that it takes what the definitions of `nbd_text` say, message by message.
//! `specs/Served` says what that means, also where the outside fails.
#![tactic(auto)]

mod reading;
mod serving;
mod stop;
mod taking;
mod turns;

pub use serving::serve;
pub use stop::NbdStop;
