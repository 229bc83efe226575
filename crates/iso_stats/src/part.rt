//! What the lines are made of.

use crate::figures::Link;

/// A part of a line.
#[derive(Clone, Copy)]
pub(crate) enum Part<'a> {
    Plain(&'a str),
    Number(u64),
    /// This number of what has this word for one.
    Counted(u32, &'a str),
    Time(u64),
    Tenths(u64),
    Key(u32),
    Node(u32),
    /// What makes a chain.
    Link(Link),
    /// A comma, if a node follows.
    Comma(Option<u32>),
    /// A node, if there is one.
    NodeIf(Option<u32>),
    /// These signs, where there is more.
    More(bool, &'a str),
}
