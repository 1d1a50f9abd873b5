//! Tests of the libraries that read and write texts.
//!
//! `plans` reads and writes plans and parameter sets, `versions` plans and sets in which each image has an offset of its own, `mirrors` those of mirrors, `classes` puts listed sets into classes,
//! `words` reads command lines, `objects` writes lines of JSON. The texts were written out by hand. The tests stand here, since a library with tests is proved a second time with them.
#![tactic(auto)]

#[cfg(test)]
mod classes;
#[cfg(test)]
mod mirrors;
#[cfg(test)]
mod objects;
#[cfg(test)]
mod plans;
#[cfg(test)]
mod versions;
#[cfg(test)]
mod words;
