//! Volumes as block devices, read where they are asked for and never written out.
//!
//! [`ParityDevice`] is the volume of a set of level 0, 4, 5 or 6, and [`MirrorDevice`] that of a mirror; `reraid_nbd`
//! serves both; [`read_range`] is a read of the first. Images with bases of their own are the `Padded` of `image_padding`: they are images like others here. What is known of
//! a device is that of `block_device`: a read gives the bytes that `virtual_volume` and `near_volume` write. What lies in memory stands
//! in `specs/Kept`, what a read costs in `specs/Cost`.
#![tactic(auto)]

mod kept;
mod mirror;
mod parity;
mod ranges;
mod runs;

pub use kept::Kept;
pub use mirror::MirrorDevice;
pub use parity::ParityDevice;
pub use ranges::{read_range, row_sectors, step_of};
