use iso_plan::fault::PlanError;
use std::alloc::{AllocError, AllocFailed};
use thiserror::Error;

/// Why the sites of a plan's nodes were not found.
#[derive(Clone, Copy, Debug, PartialEq, Eq, Error)]
pub enum LocateError {
    /// A node of the plan is none of the nodes that have a place, or no plan is of these scripts.
    #[error("a node has no place")]
    NoPlace,
    #[error("out of memory")]
    OutOfMemory,
}

impl From<PlanError> for LocateError {
    ghost use Rattle.std.specs.Prelude.{◌≡◌};
    ghost use Rattle.iso_places.specs.Located.{from_plan_error};

    ghost from_gives = { λ error made. made ≡ from_plan_error error };

    fn from(error: PlanError) -> LocateError {
        match error {
            PlanError::Fault(_) => LocateError::NoPlace,
            PlanError::OutOfMemory => LocateError::OutOfMemory,
        }
    }
}

impl From<AllocError> for LocateError {
    ghost use Rattle.std.specs.Prelude.{◌≡◌};
    ghost use Rattle.iso_places.specs.declared.fault.LocateError.TheVariants.{OutOfMemory};

    ghost from_gives = { λ _ e. e ≡ OutOfMemory };

    fn from(_error: AllocError) -> LocateError {
        LocateError::OutOfMemory
    }
}

impl<T: Drop> From<AllocFailed<T>> for LocateError {
    ghost use Rattle.std.specs.Prelude.{◌≡◌};
    ghost use Rattle.iso_places.specs.declared.fault.LocateError.TheVariants.{OutOfMemory};

    ghost from_gives = { λ _ e. e ≡ OutOfMemory };

    fn from(_error: AllocFailed<T>) -> LocateError {
        LocateError::OutOfMemory
    }
}
