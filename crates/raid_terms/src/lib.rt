//! What an array is: the definitions in which the contracts of the crates above speak.
//!
//! It runs nothing. Read `specs/Role`, `Exponent` and `Cells` for the layouts, `Address` and `Volume` for
//! where bytes lie, `Parity` and `Solving` for the equations of P and Q. `raid_layouts`, `address_map` and
//! `pq_parity` compute them. What a search goes through stands in `search_terms`.
#![tactic(auto)]
