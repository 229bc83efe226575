/// An event of a run: what one worker does next. Workers count from 0, and so do nodes: node 0 is
/// the root of the plan.
#[derive(Clone, Copy, Debug, PartialEq, Eq)]
pub enum Event {
    /// The worker begins the node's first body: a test, or the `before_all` of a class.
    Enter { worker: u32, node: u32 },
    /// The worker's body does one step.
    Step { worker: u32 },
    /// The worker's body has ended, and its result is booked.
    Leave { worker: u32 },
    /// The worker begins the `after_all` of a class.
    Shut { worker: u32, node: u32 },
}
