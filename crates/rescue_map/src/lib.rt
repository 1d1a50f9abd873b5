//! The volume of an array whose images have unreadable areas, by the maps of GNU ddrescue.
//!
//! A sector of an image is good where its map says that it was read. The cells of a row that lie on good sectors are
//! known, the others are missing for this row alone: two images with a few bad sectors each, in different rows, still are an
//! array that can be read entirely. [`salvage`] writes the volume, in pieces that may run side by side, and [`lost_text`] says
//! which sectors of it are lost all the same. [`read_salvaged`] reads sectors of it where they are asked for, and [`has_lost`] says whether
//! one of these is lost. [`laws`] says that the volume depends on good sectors alone.
//!
//! How a sector comes about is decided by `ways.rt` alone, for all of these.
//!
//! Which cells are known stands in `specs/Damaged`, the volume in `specs/Salvaged`, how its sectors come about in `specs/Ways`, the text in
//! `specs/LostText`.
#![tactic(auto)]

mod damaged;
mod device;
mod filling;
pub mod laws;
mod lost;
mod reading;
mod ways;
mod writing;

pub use damaged::{Damage, are_all_good};
pub use device::{has_lost, read_salvaged};
pub use lost::lost_text;
pub use rescue_text::{Rescue, RescueFault, read_rescue};
pub use writing::salvage;
