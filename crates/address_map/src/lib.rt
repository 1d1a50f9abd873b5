//! The map between a striped volume and its members.
//!
//! The volume is cut into chunks. Each row takes as many of them as it has data items, and puts
//! one on each slot that holds data. [`locate`] goes from a sector of the volume to the member
//! sector that holds it, and [`place`] back. Member sectors are counted from the data offset.
//!
//! `map` prints a home, and whoever reads members takes the rows and the area from here. Homes stand in
//! `Address` of `raid_terms`, sizes in `Size` of `raid_params`, what the calls answer in `specs/Places`.
//! The laws: each sector has one home and one place, and these two undo each other.
#![tactic(auto)]

mod laws;
mod map;

pub use laws::{each_sector_has_one_home, each_sector_has_one_place, places_and_homes_undo};
pub use map::{Home, MemberPlace, area, data_blocks, locate, place, rows, volume_sectors};
