//! Why a worker goes on no further.
use iso_standing::refused::CoreFault;
use std::alloc::AllocError;

/// Why a worker goes on no further before its run has ended.
#[derive(Clone, Copy, Debug, PartialEq, Eq)]
pub(crate) enum Halt {
    /// The run was stopped, or an event was refused that no other worker can make way for.
    Stopped,
    /// Memory ran out.
    OutOfMemory,
}

impl From<AllocError> for Halt {
    ghost use Rattle.std.specs.Prelude.{◌≡◌};
    ghost use Rattle.iso_floor.specs.declared.halt.Halt.TheVariants.{OutOfMemory};

    ghost from_gives = { λ _ halt. halt ≡ OutOfMemory };

    fn from(_error: AllocError) -> Halt {
        Halt::OutOfMemory
    }
}

impl From<CoreFault> for Halt {
    ghost use Rattle.std.specs.Prelude.{◌≡◌};
    ghost use Rattle.iso_floor.specs.Halts.{halt_of};

    ghost from_gives = { λ fault halt. halt ≡ halt_of fault };

    fn from(fault: CoreFault) -> Halt {
        match fault {
            CoreFault::Refused(_) => Halt::Stopped,
            CoreFault::OutOfMemory => Halt::OutOfMemory,
        }
    }
}
