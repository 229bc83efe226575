//! What texts are made of.

use iso_stats::figures::Link;

/// A part of a text.
#[derive(Clone, Copy)]
pub(crate) enum Part<'a> {
    Plain(&'a str),
    /// A number in decimal.
    Number(u64),
    /// Nanoseconds, told in seconds.
    Seconds(u64),
    /// Microseconds, told in seconds.
    Micros(u64),
    /// A number of tenths.
    Tenths(u64),
    /// A number of hundredths.
    Hundredths(u64),
    /// The path of a node.
    Node(u32),
    /// The path of a node, as a link to it in the tree.
    Link(u32),
    /// A comma and such a link, if there is a node.
    Next(Option<u32>),
    /// A key, by its number.
    Key(u32),
    /// What makes a chain.
    Chain(Link),
    /// An option with its file, where one was given.
    FileOption(&'a str, Option<&'a str>),
    /// An option with its number, where one was given.
    NumberOption(&'a str, Option<u32>),
    /// A file as a word of a command.
    File(&'a str),
}
