//! Whether the blocks of a row agree with its parity.
//!
//! P is the exclusive or of the data blocks. Q is their sum in the field of 256 elements, each weighed by a power
//! of 2. A sector row is sound where in each of its 512 columns there are bytes for the missing blocks with which
//! both equations hold. [`laws`] says of which rows this is so whatever their bytes are.
//!
//! [`row_holds`] tests a row whose sectors stand one after the other, [`sectors_hold`] one whose sectors lie in regions
//! of the members. Sums are formed by strips of 64 columns, Q's in falling order of exponents, so that it takes doublings
//! alone; a test is left at the first strip that fails. `pq_parity` finds by the same sums what missing blocks held.
//!
//! The equations stand in `Parity` of `raid_terms`, the two sums in `specs/Syndromes`, the regions in `specs/Regions`.
#![tactic(auto)]

mod known;
pub mod laws;
mod rows;
mod strips;
mod syndromes;

pub use known::{Known, known_of};
pub use rows::{missing_count, missing_part, row_holds, sectors_hold};
pub use strips::{STRIP, STRIPS, p_sum, store};
pub use syndromes::{Sums, p_sums, strip_sums, sums_by, sums_of};
