//! What is kept of one body.

use crate::moment::Moment;
use crate::times::BodyTime;
use std::sync::atomic::{AtomicU32, Ordering};

/// When a body began and ended, and its worker. Each is written by that worker alone, and at most
/// once.
#[derive(Drop)]
pub(crate) struct Cell {
    worker: AtomicU32,
    begin: Moment,
    end: Moment,
}

impl Cell {
    /// Of a body that didn't run so far.
    pub(crate) fn blank() -> Cell {
        Cell {
            worker: AtomicU32::new(0),
            begin: Moment::untold(),
            end: Moment::untold(),
        }
    }

    /// The body begins.
    pub(crate) fn begin(&self, worker: u32, at: Option<u64>) {
        self.worker.store(worker, Ordering::SeqCst);
        self.begin.tell(at);
    }

    /// It has ended.
    pub(crate) fn end(&self, at: Option<u64>) {
        self.end.tell(at);
    }

    /// Its time, where both moments were told.
    pub(crate) fn time(&self) -> Option<BodyTime> {
        Some(BodyTime {
            worker: self.worker.load(Ordering::SeqCst),
            begin: self.begin.told()?,
            end: self.end.told()?,
        })
    }
}
