//! Why nothing could be explained.
ghost use Rattle.std.specs.Prelude.{◌≡◌};
ghost use Rattle.iso_explain_plan.specs.declared.error.ExplainError.TheVariants as E;

use iso_tap::sink::SinkFailed;
use std::alloc::AllocError;

/// Why nothing could be explained, or only a part.
#[derive(Clone, Copy, Debug, PartialEq, Eq)]
pub enum ExplainError {
    OutOfMemory,
    SinkFailed,
}

impl From<AllocError> for ExplainError {
    ghost from_gives = { λ _ e. e ≡ E.OutOfMemory };

    fn from(_error: AllocError) -> ExplainError {
        ExplainError::OutOfMemory
    }
}

impl From<SinkFailed> for ExplainError {
    ghost from_gives = { λ _ e. e ≡ E.SinkFailed };

    fn from(_error: SinkFailed) -> ExplainError {
        ExplainError::SinkFailed
    }
}
