//! Tests of images, sources and sinks.
//!
//! `memory` holds that the objects in memory get the memory that they take, `files` what images that are files give,
//! `padding` what padded images give, and `streams` what sources and sinks over files do. The tests stand here, since a
//! library with tests is proved a second time with them.
#![tactic(auto)]

#[cfg(test)]
mod files;
#[cfg(test)]
mod memory;
#[cfg(test)]
mod padding;
#[cfg(test)]
mod streams;
