use crate::heads::{ClassHead, TestHead};
use std::sync::Arc;

/// The class chain of a class or a test, borrowed: what it comes to depends on nothing else.
#[derive(Clone, Copy)]
pub struct Chain<'a> {
    /// The heads of its enclosing classes, outermost first. A class's own is the last.
    pub classes: &'a [Arc<ClassHead>],
    /// A test's own head.
    pub test: Option<&'a TestHead>,
}
