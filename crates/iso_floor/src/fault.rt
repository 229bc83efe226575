//! Why a floor gives no seat, and why it hands out no book.
use std::alloc::AllocError;
use thiserror::Error;

/// Why a worker gets no seat, the first that applies.
#[derive(Clone, Copy, Debug, PartialEq, Eq, Error)]
pub enum SeatFault {
    /// The worker isn't below the number of workers.
    #[error("NoWorker")]
    NoWorker,
    /// The worker has a seat already.
    #[error("Taken")]
    Taken,
    /// Memory ran out. The seat isn't taken.
    #[error("out of memory")]
    OutOfMemory,
}

impl From<AllocError> for SeatFault {
    ghost use Rattle.std.specs.Prelude.{◌≡◌};
    ghost use Rattle.iso_floor.specs.declared.fault.SeatFault.TheVariants.{OutOfMemory};

    ghost from_gives = { λ _ e. e ≡ OutOfMemory };

    fn from(_error: AllocError) -> SeatFault {
        SeatFault::OutOfMemory
    }
}

/// Why a floor that was closed hands out no book, the first that applies.
#[derive(Clone, Copy, Debug, PartialEq, Eq, Error)]
pub enum CloseFault {
    /// The lowest number of the history that is lost: a Leave's receipt is in no seat; or a receipt
    /// with this number isn't of this history, stands in its seat after one that isn't lower, or is
    /// in two seats.
    #[error("Lost {0}")]
    Lost(usize),
    /// A node but the root isn't finished.
    #[error("Unfinished")]
    Unfinished,
}
