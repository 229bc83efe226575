//! What the tests share.
use std::fmt::Debug;
use std::process::Abort;

/// What was found of this is what is wanted.
pub(crate) fn check<T: Debug + PartialEq>(rt: &impl Abort, of: &str, found: &T, want: &T) {
    assert_eq!(rt; *found, *want, "{of}");
}
