//! What the calls take of the system.
use std::alloc::AllocGlobal;
use std::sync::Wait;

/// Memory, standard error, and locks that are waited for.
pub(crate) trait Host: AllocGlobal + Eprint + Wait {}

impl<R: AllocGlobal + Eprint + Wait> Host for R {}
