//! The parity test of parameter sets by a plan, and the count of a set's unsound rows.
//!
//! [`scan`], [`scan_tallied`] and [`unsound`] are those of `parity_scan`, over what a plan says of rows; its gate, its tallies,
//! faults and verdicts are to be had here too.
#![tactic(auto)]

mod by_plan;

pub use by_plan::{scan, scan_tallied, unsound};
pub use parity_scan::{
    Gate, MOST_SETS, OpenGate, SAMPLES, ScanFault, Tally, Verdicts, nothing_can_break,
};
