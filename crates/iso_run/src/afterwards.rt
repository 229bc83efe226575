//! What becomes of what a run has made, once its report is written.
use std::mem;

/// What becomes of a suite and its results.
#[derive(Clone, Copy)]
pub(crate) enum Afterwards {
    /// They are let go, since the caller goes on.
    LetGo,
    /// They are left to the system, since the program ends: letting go of them piece by piece is
    /// an eighth of the instructions of a run of short tests.
    Leave,
}

impl Afterwards {
    /// Does so with one thing.
    pub(crate) fn of<T: Drop>(self, made: T) {
        match self {
            Afterwards::LetGo => drop(made),
            Afterwards::Leave => mem::forget(made),
        }
    }
}
