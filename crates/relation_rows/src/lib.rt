//! Tests of how the images of a row depend on one another, and of what is said of it.
//!
//! `tables` holds rows whose ties were worked out by hand from the equations by which their sectors are made. `reports` holds rows of
//! sectors and the lines over them, written by hand or by the reference of `hostile/differential`. `jobs` runs the command `relations`
//! over images in memory, and `objects` has what it takes. `prefixes` asks which prefixes of slots the relations of rows let begin a set.
//! `sectors` has the sectors of all. They stand here, since a library with tests is proved a second time with them.
#![tactic(auto)]

#[cfg(test)]
mod jobs;
#[cfg(test)]
mod objects;
#[cfg(test)]
mod prefixes;
#[cfg(test)]
mod reports;
#[cfg(test)]
mod sectors;
#[cfg(test)]
mod tables;
