//! What events are made of.

/// A part of an event.
#[derive(Clone, Copy)]
pub(crate) enum Part<'a> {
    Plain(&'a str),
    Number(u64),
    /// The lane of a worker: its number.
    Lane(u32),
    /// Nanoseconds, in microseconds.
    Micros(u64),
    /// From a moment until another, in microseconds.
    Between(u64, u64),
    /// The path of a node.
    Node(u32),
    /// What a wait for a key is called.
    Wait(u32),
    /// How a node takes its keys, among the arguments of an event.
    Locks(u32),
    /// The categories of a body, critical or not.
    Category(bool),
    /// What tells of a critical body, among the arguments of its event.
    Critical(bool),
}
