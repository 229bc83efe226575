//! What was put of one node.
ghost use Rattle.std.specs.Prelude.{◌≡◌};
ghost use Rattle.iso_lifecycle.specs.Entries.{entry_closed, entry_with};

use crate::done::{Closed, What};
use crate::kept::KeptOutcome;
use crate::opening::KeptOpening;
use std::mem;

/// What was put of a node: nothing yet, the outcome of a test, the `before_all` of a class, or that
/// and then its `after_all`.
pub(crate) enum Entry {
    Empty,
    Tested(KeptOutcome),
    Opened(KeptOpening),
    Closed(KeptOpening, Closed),
}

impl Drop for Entry {
    fn drop(self) {
        match self {
            Entry::Empty => {}
            Entry::Tested(_) => {}
            Entry::Opened(_) => {}
            Entry::Closed(_, _) => {}
        }
    }
}

impl Entry {
    /// Puts what a body of the node came to.
    #[inline(always)]
    pub(crate) fn put(&mut self, what: What)
        ensures { self.new ≡ entry_with what self.old }
    {
        match what {
            What::Tested(outcome) => self.set(Entry::Tested(outcome)),
            What::Opened(opened) => self.set(Entry::Opened(opened)),
            What::Closed(closed) => self.close(closed),
        }
    }

    /// Puts another entry in its place.
    #[inline(always)]
    fn set(&mut self, by: Entry)
        ensures { self.new ≡ by }
    {
        // A call drops what stood there: the variants then stand in the proof of that call alone.
        *self = by;
    }

    /// Puts what the `after_all` of an opened class came to. No other entry changes.
    fn close(&mut self, closed: Closed)
        ensures { self.new ≡ entry_closed closed self.old }
    {
        let before = mem::replace(self, Entry::Empty);
        self.set(before.closed(closed));
    }

    /// The entry of an opened class with what its `after_all` came to. No other entry changes.
    fn closed(self, closed: Closed) -> Entry
        ensures { result ≡ entry_closed closed self }
    {
        match self {
            Entry::Opened(opened) => Entry::Closed(opened, closed),
            other => other,
        }
    }
}
