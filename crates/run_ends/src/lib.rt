//! What a job is, and what ends a run: why there is no answer, with its status and its line.
//!
//! A [`Stop`] says why a run ends without its answer: a [`Refusal`], a fault of the outside, or want of memory. The images
//! are attached by [`attach_front`], the text of a source is read by [`text_left`], and answers are put by [`print()`]. What
//! a job is, and that it is done, stands in `specs/Jobs`, each status with its line in `specs/Stops`, when images disagree
//! in `specs/Agreement`. `plan_jobs`, `set_jobs`, `survey_job` and `sample_job` have the jobs of the commands; each turns
//! the faults of the engine that it calls into stops itself.
#![tactic(auto)]

mod agreement;
mod attaching;
mod printing;
mod reading;
mod stop;

pub use agreement::{Disagreement, Kind, end_of, limits_fault, long_fault, plan_fault, sectors_of};
pub use attaching::attach_front;
pub use printing::{add_or_dash, add_share, print};
pub use reading::text_left;
pub use stop::{Notice, RankFault, Refusal, SectorFault, Stop};
