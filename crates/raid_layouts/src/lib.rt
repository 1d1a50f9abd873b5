//! The layouts of striped arrays: which slot of a row holds parity, and which holds each data item.
//!
//! A row is one chunk of each member. At level 0 all chunks hold data; at level 5 one holds the
//! parity P, at level 6 two hold P and Q, and the pattern says how they move from row to row and
//! where the data items lie beside them. The layouts are those of the Linux md driver, with its
//! meaning of the three DDF layouts of RAID 6.
//!
//! `docs/LAYOUTS.md` draws them. `address_map` goes by [`role`] and [`slot_of_item`], `row_scan` and
//! `member_regions` by [`row_cells`]. The layouts stand in `Role`, `Exponent` and `Cells` of `raid_terms`,
//! the names in `specs/Names`. The laws: each role has one slot and each slot one role, the exponents of a
//! row differ and are below the members, and each row can be solved for its missing blocks.
#![tactic(auto)]

mod exponents;
mod items;
mod laws;
mod names;
mod parity;
mod roles;
mod rows;

pub use exponents::exponent;
pub use laws::{
    each_role_has_one_slot, each_row_can_be_solved, each_slot_has_one_role,
    exponents_are_below_members, exponents_differ,
};
pub use names::md_name;
pub use roles::{SlotRole, p_slot, q_slot, role, slot_of_item, turn};
pub use rows::row_cells;
