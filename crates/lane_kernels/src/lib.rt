//! Sums and products of lists of bytes in the field of `gf256`, 32 bytes at a time.
//!
//! Each kernel goes by vectors of 32 lanes, and by a plain loop over the rest that fills no vector. Its
//! clause gives the whole list of its formula, for every length. The tables of a factor are made once, as a
//! [`Multiplier`], where many lists take it. `pq_parity` finds lost sectors with them, `member_regions` the
//! sums of the sectors of all images, and `bench_kernels` times them. The formulas stand in
//! `specs/Formulas`, the tables of products in `specs/Tables`.
#![tactic(auto)]

mod blocks;
mod factors;
mod sums;
mod zeros;

// The tests stand in `layout_rows`.

pub use factors::{Multiplier, scale, scale_xor, weigh};
pub use sums::{double_xor, xor_into};
pub use zeros::first_nonzero;

// Bytes of a vector. The processor's own vectors may be shorter: the compiler then takes several.
const LANES: usize = 32;
