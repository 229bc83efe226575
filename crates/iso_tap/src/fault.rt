//! What is answered where a text wasn't written.

/// The sink failed after it took the first `written` bytes of a text, and not all of them.
#[derive(Clone, Copy, PartialEq, Eq)]
pub struct TapFault {
    pub written: u64,
}
