//! Tests of the server of NBD, by dialogues whose bytes were written by hand after the protocol's specification.
//!
//! `device` is a device in memory, `dialogues` what clients ask and are answered, `ends` how dialogues end.
#![tactic(auto)]

mod device;
#[cfg(test)]
mod dialogues;
#[cfg(test)]
mod ends;

pub use device::MemDevice;
