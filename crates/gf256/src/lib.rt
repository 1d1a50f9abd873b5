//! The field of 256 elements in which RAID 6 computes Q.
//!
//! A byte is a polynomial over two elements, its bit k the coefficient of x^k. The sum of two bytes is their XOR. The
//! product is that of the polynomials, reduced by x^8 + x^4 + x^3 + x^2 + 1 (0x11D), as in the Linux md driver. The
//! element 2 has order 255, so every byte but 0 is a power of it, and `mul` and `inverse` go by its logarithms.
//!
//! `laws` holds what callers may use of the field: functions that do nothing and whose clauses are the laws.
//!
//! `pq_parity` and `lane_kernels` compute in it, and the definitions of `raid_terms` cite it. The product
//! and the powers stand in `specs/Field`.
#![tactic(auto)]

mod arithmetic;
pub mod laws;
mod tables;

pub use arithmetic::{add, divide, inverse, mul, power};
