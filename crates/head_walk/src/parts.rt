//! What a page is made of and with, and why it may not be made.
ghost use Rattle.std.specs.Prelude.{◌≡◌};
ghost use Rattle.head_walk.specs.Faults.{samples_ended, scan_ended, table_ended};
ghost use Rattle.head_walk.specs.declared.parts.WalkFault.TheVariants.{Memory as OutOfMemory};

use outside::{ListOf, Memory};
use prune_filters::TableFault;
use raid_params::Wide;
use row_samples::SampleFault;
use row_scan::ScanFault;
use search_plan::Plan;
use std::alloc::Global;
use thiserror::Error;

/// What a page is made of, and with.
#[derive(Drop)]
pub struct Paging<'a, R, G> {
    /// That which starts threads.
    pub rt: &'a R,
    /// That which gives memory.
    pub alloc: Global,
    /// The plan.
    pub plan: &'a Plan,
    /// The most lines of a page.
    pub size: u64,
    /// What each piece of a scan passes.
    pub gate: &'a G,
}

/// A parameter set that passes, with its rank.
#[derive(Drop)]
pub struct Line {
    /// Its position among the parameter sets of the plan, counted from 0.
    pub rank: u64,
    /// The parameter set.
    pub geo: Wide,
}

/// The lines of a page.
pub type Lines = ListOf<Line>;

/// Why a walk over a head ends before its range does.
#[derive(Clone, Copy, Debug, Error)]
pub enum WalkFault {
    /// The images failed.
    #[error("the images could not be read")]
    ReadFault,
    /// Memory ran out.
    #[error("out of memory")]
    Memory,
}

impl From<Memory> for WalkFault {
    ghost from_gives = { λ _ fault. fault ≡ OutOfMemory };

    fn from(_: Memory) -> WalkFault {
        WalkFault::Memory
    }
}

impl From<ScanFault> for WalkFault {
    ghost from_gives = { λ scan fault. fault ≡ scan_ended scan };

    fn from(fault: ScanFault) -> WalkFault {
        match fault {
            ScanFault::ReadFault => WalkFault::ReadFault,
            ScanFault::Memory => WalkFault::Memory,
        }
    }
}

impl From<TableFault> for WalkFault {
    ghost from_gives = { λ table fault. fault ≡ table_ended table };

    fn from(fault: TableFault) -> WalkFault {
        match fault {
            TableFault::ReadFault => WalkFault::ReadFault,
            TableFault::Memory => WalkFault::Memory,
        }
    }
}

impl From<SampleFault> for WalkFault {
    ghost from_gives = { λ sample fault. fault ≡ samples_ended sample };

    fn from(fault: SampleFault) -> WalkFault {
        match fault {
            SampleFault::ReadFault => WalkFault::ReadFault,
            SampleFault::Memory => WalkFault::Memory,
        }
    }
}
