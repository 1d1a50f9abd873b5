//! Tests of the libraries of layouts, orders and kernels.
//!
//! `drawings` holds the rows of layouts and their names, and `tables` the tables that a user draws. `addresses` holds
//! sectors of a small array, `spaces` slot lists by their ranks, and `walks` those that a family admits. `rules` holds
//! distances, `field` and `kernels` products, and `samples` the bytes of generated arrays. What is expected was worked
//! out by hand or by another program. The tests stand here, since a library with tests is proved a second time with them.
#![tactic(auto)]

#[cfg(test)]
mod addresses;
#[cfg(test)]
mod drawings;
#[cfg(test)]
mod field;
#[cfg(test)]
mod kernels;
#[cfg(test)]
mod rules;
#[cfg(test)]
mod samples;
#[cfg(test)]
mod spaces;
#[cfg(test)]
mod tables;
#[cfg(test)]
mod walks;
