//! What keeps a text from being read as a rescue text.
ghost use Rattle.std.specs.Prelude.{◌≡◌};
ghost use Rattle.rescue_text.specs.declared.fault.RescueFault.TheVariants.{Memory as OutOfMemory};

use outside::Memory;

/// Why a text gives no rescue.
#[derive(Clone, Copy, Debug, PartialEq, Eq)]
pub enum RescueFault {
    /// The line of this number, from 1, is the first that no rescue text has there.
    Line(u64),
    /// Out of memory.
    Memory,
}

impl From<Memory> for RescueFault {
    ghost from_gives = { λ _ fault. fault ≡ OutOfMemory };

    fn from(_: Memory) -> RescueFault {
        RescueFault::Memory
    }
}
