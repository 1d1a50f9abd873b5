//! Tests of the libraries of volumes and parity, over objects in memory.
//!
//! What each answers was worked out by hand: `single_rows` the parity of one row, `region_rows` that of rows in
//! regions, `memory` that memory is enough, `volumes`, `members`, `mirrors` and `rescues` what is written, `near_pages` which
//! mirrors pass, `bases` what is written where the data of images begin at different sectors, `puts` in which pieces,
//! `read_counts` how much is read for it, and `devices` what is read of a volume as a device. The tests stand here, since a
//! library with tests is proved a second time with them. Sets, images and sinks stand in `objects`, rows in `cells`.
//!
//! A function here has no clause where no test needs one: then what it calls is proved for it once, and not in each
//! test.
#![tactic(auto)]

#[cfg(test)]
mod bases;
#[cfg(test)]
mod cells;
#[cfg(test)]
mod devices;
#[cfg(test)]
mod members;
#[cfg(test)]
mod memory;
#[cfg(test)]
mod mirrors;
#[cfg(test)]
mod near_pages;
#[cfg(test)]
mod objects;
#[cfg(test)]
mod puts;
#[cfg(test)]
mod read_counts;
#[cfg(test)]
mod region_rows;
#[cfg(test)]
mod rescues;
#[cfg(test)]
mod single_rows;
#[cfg(test)]
mod volumes;
