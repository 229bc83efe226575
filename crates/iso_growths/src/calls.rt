//! Calls that are told of on standard error, so that what stands outside knows which growths are
//! theirs.
use crate::host::Host;
use std::alloc::Global;

/// Which calls are told of, by their name.
#[derive(Drop)]
pub(crate) struct Calls<'r, H: Host> {
    pub(crate) rt: &'r H,
    pub(crate) asked: &'r str,
}

impl<H: Host> Calls<'_, H> {
    pub(crate) fn alloc(&self) -> Global {
        self.rt.alloc()
    }

    /// Tells that a call begins, where it is asked for.
    pub(crate) fn begin(&self, name: &str) {
        if self.asked == name {
            let _ = eprint!(self.rt; "calling\n");
        }
    }

    /// Tells that it has ended.
    pub(crate) fn end(&self, name: &str) {
        if self.asked == name {
            let _ = eprint!(self.rt; "called\n");
        }
    }
}
