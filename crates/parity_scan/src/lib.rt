//! The parity test of parameter sets over the images, and the count of a set's unsound rows.
//!
//! [`scan`] tests many sets in one pass. Some rows of each set are tested first, as samples, and most sets that are
//! wrong are settled by them. Then the images are read run by run, in the order of image sectors, into one region an
//! image, and each set that is left takes its rows of the run from there. A tally says of a set how many more rows may
//! be unsound. Tallies are counted in pieces that may run side by side, and a piece passes the caller's [`Gate`] before
//! its first run, or, where no row is left to be tested, before it ends. No more sectors are read of an image than the
//! samples and those in the windows of the sets. [`scan_tallied`] is the same scan over sets of which some are known to pass:
//! no row of these is tested.
//!
//! Where many tallies are open, the exclusive or of the sectors of all images is formed once for each place of a run: it
//! decides whether P's equation holds in the rows of every set whose P counts all images, or all but one. Where a few are open,
//! a row that one equation alone decides is tested once for all sets that have the same equation there.
//!
//! [`unsound`] counts the unsound rows of one set: its members' sectors are read into the regions of `member_regions`, up
//! to 128 KiB a call. [`nothing_can_break`] finds the sets that pass whatever the bytes.
//!
//! Which rows are tested stands in `Parity` of `raid_terms`, what is asked of a set in `specs/Scan`, the tallies in
//! `specs/Tallies`, the verdicts in `specs/Verdicts`, the sectors that a scan may read in `specs/Windows`, the samples in
//! `specs/Samples`, the rows of a run in `specs/ImageRows`, `specs/ImageSums`, `specs/ChunkRows`, `specs/Equations` and
//! `specs/Block`, and the pass in `specs/Pass` and `specs/Wanted`.
#![tactic(auto)]

mod equations;
mod image_rows;
mod image_sums;
mod known_rows;
mod left_out;
mod many_sets;
mod one_set;
mod rows;
mod runs;
mod samples;
mod scan_parts;
mod sweeping;
mod tallies;
mod tally;
mod verdict_list;
mod wanted;

pub use gates::{Gate, OpenGate};
pub use many_sets::{MOST_SETS, scan, scan_tallied};
pub use one_set::{ScanFault, nothing_can_break, unsound};
pub use samples::SAMPLES;
pub use tally::Tally;
pub use verdict_list::Verdicts;
