//! The exit statuses of the program.

/// Every top-level point is ok, or a plan or help was printed.
pub(crate) const ALL_OK: u8 = 0;
/// Some top-level point is not ok.
pub(crate) const NOT_ALL_OK: u8 = 1;
/// The input is refused.
pub(crate) const WRONG_INPUT: u8 = 2;
/// Memory, a read, a write or a worker failed.
pub(crate) const FAILED: u8 = 3;
