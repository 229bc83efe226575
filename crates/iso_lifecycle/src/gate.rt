//! Where a worker stands between two steps of a body, and what is told of its bodies.

use crate::kind::BodyKind;

/// What a worker meets while a body of its node is under way. A gate may wait, as a test's does
/// that lets several bodies go on side by side: then its impl, or the type that it holds, is what
/// may wait.
///
/// It is told of each body twice, with no lock held: once its node was entered or its class shut,
/// before its first step, and after its last step, before its node is left. So of two bodies that
/// exclude one another the end of one is told before the beginning of the other.
pub trait Gate {
    /// Returns when the worker may go on with the body of its node.
    fn at_body(&self, worker: u32, node: u32);

    /// A body of this kind of the worker's node begins. Whoever leaves this out isn't told.
    fn begins(&self, _worker: u32, _node: u32, _kind: BodyKind) {}

    /// It has ended, and well or not. A body that is out of memory is never told to have ended.
    fn ends(&self, _worker: u32, _node: u32, _kind: BodyKind, _well: bool) {}
}

/// A gate that returns at once.
pub struct OpenGate;

impl Gate for OpenGate {
    fn at_body(&self, _worker: u32, _node: u32) {}
}
