//! Volumes of damaged images as block devices, read where they are asked for and never written out.
//!
//! [`DamagedDevice`] is the volume of a set whose images have unreadable areas, by what was read of them: its bytes are those that
//! `rescue_map::salvage` writes, and a sector that is lost there is lost here: a read of it fails. Rows in which all is good are read as
//! `volume_device` reads them. What is asked of a device stands in `specs/Reading`, what a read costs in `specs/Cost`.
#![tactic(auto)]

mod device;
mod reading;

pub use device::DamagedDevice;
