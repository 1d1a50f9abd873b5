//! Why a dialogue ends without its end.
ghost use Rattle.std.specs.Prelude.{◌≡◌};
ghost use Rattle.nbd_server.specs.declared.stop.NbdStop.TheVariants.{OutOfMemory};

use outside::Memory;

/// Why a dialogue ends without its end.
#[derive(Clone, Copy, Debug, PartialEq, Eq)]
pub enum NbdStop {
    /// The source failed.
    SourceFault,
    /// The sink failed.
    OutFault,
    /// The client sent what the protocol does not allow, or the input ended inside a message.
    Malformed,
    /// Out of memory. Nothing was taken or put.
    OutOfMemory,
}

impl From<Memory> for NbdStop {
    ghost from_gives = { λ _ stop. stop ≡ OutOfMemory };

    fn from(_: Memory) -> NbdStop {
        NbdStop::OutOfMemory
    }
}
