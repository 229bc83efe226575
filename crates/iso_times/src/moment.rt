//! A moment that a thread tells and another reads.

use std::sync::atomic::{AtomicU64, Ordering};

/// What stands where nothing was told. As a moment it would be 584 years after the start.
const UNTOLD: u64 = u64::MAX;

/// A moment, in nanoseconds from a start, or none as long as none was told.
#[derive(Drop)]
pub(crate) struct Moment {
    nanos: AtomicU64,
}

impl Moment {
    /// None so far.
    pub(crate) fn untold() -> Moment {
        Moment {
            nanos: AtomicU64::new(UNTOLD),
        }
    }

    /// Tells the moment, if there is one.
    pub(crate) fn tell(&self, nanos: Option<u64>) {
        if let Some(nanos) = nanos {
            self.nanos.store(nanos, Ordering::SeqCst);
        }
    }

    /// The moment that was told.
    pub(crate) fn told(&self) -> Option<u64> {
        match self.nanos.load(Ordering::SeqCst) {
            UNTOLD => None,
            nanos => Some(nanos),
        }
    }
}
