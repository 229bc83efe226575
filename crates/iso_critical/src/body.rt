//! Bodies of a run.
use iso_times::times::BodyTime;

/// A body that has a time: its place among all bodies, of which each node has two, its node,
/// whether it is an `after_all`, and its time.
#[derive(Clone, Copy)]
pub struct Body {
    pub place: usize,
    pub node: u32,
    pub closes: bool,
    pub time: BodyTime,
}
