//! What keeps a text from being read as a plan.
ghost use Rattle.std.specs.Prelude.{◌≡◌};
ghost use Rattle.plan_text.specs.declared.fault.PlanFault.TheVariants.{Memory as OutOfMemory};

use outside::Memory;
use thiserror::Error;

/// Why a text gives no plan.
#[derive(Clone, Copy, Debug, Error, PartialEq, Eq)]
pub enum PlanFault {
    /// The text is no plan. The line of this number, from 1, is the first that does not go on as a plan
    /// does, or the text ends before it does.
    #[error("line {0} is not a plan's")]
    Line(u64),
    /// Out of memory.
    #[error("not enough memory")]
    Memory,
}

impl From<Memory> for PlanFault {
    ghost from_gives = { λ _ fault. fault ≡ OutOfMemory };

    fn from(_: Memory) -> PlanFault {
        PlanFault::Memory
    }
}
