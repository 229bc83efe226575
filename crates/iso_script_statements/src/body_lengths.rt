//! How long bodies are, as a guess of how long the next one is.

use iso_model::limits::BODY_DEPTH;

/// The most statements that a body gets room for before it has any.
const MOST: usize = 16;

/// How many statements the bodies that were read last had, each at least one. Bodies of one script
/// are often alike, so that most get exactly the room that they need. No answer depends on it.
#[derive(Clone, Copy)]
pub(crate) struct BodyLengths {
    outermost: usize,
    inner: usize,
}

impl BodyLengths {
    /// Before any body is read.
    pub fn new() -> BodyLengths {
        BodyLengths {
            outermost: 1,
            inner: 1,
        }
    }

    /// How many statements are likely in a body in which `bodies` more may be opened.
    pub fn likely(self, bodies: u32) -> usize {
        if is_outermost(bodies) {
            self.outermost
        } else {
            self.inner
        }
    }

    /// Notes how many statements a body had in which `bodies` more may be opened.
    pub fn note(&mut self, bodies: u32, statements: usize) {
        let length = statements.max(1).min(MOST);
        if is_outermost(bodies) {
            self.outermost = length;
        } else {
            self.inner = length;
        }
    }
}

/// Whether a body in which `bodies` more may be opened stands in no other.
fn is_outermost(bodies: u32) -> bool {
    bodies == BODY_DEPTH - 1
}
