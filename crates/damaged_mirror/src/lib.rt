//! Mirrors of damaged images as block devices, read where they are asked for and never written out.
//!
//! [`DamagedMirror`] is the volume of a mirror whose images have unreadable areas, by what was read of them: each sector is its first copy that is
//! good. A sector of which no copy is good is lost: a read of it fails, and nothing is read for it. What is good and what is lost stands in
//! `specs/Damaged`.
#![tactic(auto)]

mod device;
mod good;
mod reading;

pub use device::DamagedMirror;
pub use good::MirrorDamage;
