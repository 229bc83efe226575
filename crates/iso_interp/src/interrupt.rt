//! What ends the work on an expression or a statement early.
use iso_model::fault::Fault;
use std::alloc::AllocError;

/// A fault, which ends the block, or out of memory, which ends its run.
#[derive(Drop)]
pub enum Interrupt {
    Fault(Fault),
    OutOfMemory,
}

impl From<AllocError> for Interrupt {
    ghost use Rattle.std.specs.Prelude.{◌≡◌};
    ghost use Rattle.iso_interp.specs.declared.interrupt.Interrupt.TheVariants.{OutOfMemory};

    ghost from_gives = { λ _ interrupt. interrupt ≡ OutOfMemory };

    fn from(_error: AllocError) -> Interrupt {
        Interrupt::OutOfMemory
    }
}
