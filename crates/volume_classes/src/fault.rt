//! What keeps a text from being read as a set list.
ghost use Rattle.std.specs.Prelude.{◌≡◌};
ghost use Rattle.volume_classes.specs.declared.fault.ClassFault.TheVariants.{Memory as OutOfMemory};

use outside::Memory;

/// Why there are no classes.
#[derive(Clone, Copy, Debug, PartialEq, Eq)]
pub enum ClassFault {
    /// The line of this number, from 1, is the first that no set list has there.
    Line(u64),
    /// Out of memory.
    Memory,
}

impl From<Memory> for ClassFault {
    ghost from_gives = { λ _ fault. fault ≡ OutOfMemory };

    fn from(_: Memory) -> ClassFault {
        ClassFault::Memory
    }
}
