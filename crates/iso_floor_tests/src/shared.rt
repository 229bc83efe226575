//! What the tests share.
use std::fmt::Debug;
use std::process::Abort;

/// Asserts a fact, which is named: an assertion in a function of its own is no way out of the
/// caller's.
pub(crate) fn expect(rt: &impl Abort, holds: bool, of: &str) {
    assert!(rt; holds, "{of}");
}

/// What was found of this is what is wanted.
pub(crate) fn check<T: Debug + PartialEq>(rt: &impl Abort, of: &str, found: &T, want: &T) {
    assert_eq!(rt; *found, *want, "{of}");
}
