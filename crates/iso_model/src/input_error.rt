//! Why an input was not taken.
use std::alloc::{AllocError, AllocFailed};
use std::fmt;
use thiserror::Error;

/// Why an input was not taken: its fault, or memory ran out.
#[derive(Clone, Copy, Debug, Drop, PartialEq, Eq, Error)]
pub enum InputError<F: fmt::Display> {
    #[error("{0}")]
    Fault(F),
    #[error("out of memory")]
    OutOfMemory,
}

impl<F: fmt::Display> From<AllocError> for InputError<F> {
    ghost use Rattle.std.specs.Prelude.{◌≡◌};
    ghost use Rattle.iso_model.specs.declared.input_error.InputError.TheVariants.{OutOfMemory};

    ghost from_gives = { λ _ e. e ≡ OutOfMemory };

    fn from(_error: AllocError) -> InputError<F> {
        InputError::OutOfMemory
    }
}

impl<F: fmt::Display, T: Drop> From<AllocFailed<T>> for InputError<F> {
    ghost use Rattle.std.specs.Prelude.{◌≡◌};
    ghost use Rattle.iso_model.specs.declared.input_error.InputError.TheVariants.{OutOfMemory};

    ghost from_gives = { λ _ e. e ≡ OutOfMemory };

    fn from(_error: AllocFailed<T>) -> InputError<F> {
        InputError::OutOfMemory
    }
}
