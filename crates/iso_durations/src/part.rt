//! The parts that lines are made of.

/// A part of a line.
#[derive(Clone, Copy)]
pub(crate) enum Part<'a> {
    Plain(&'a str),
    /// A number in decimal.
    Number(u64),
    /// This number of things, with the word for one and the word for several.
    Counted(u32, &'a str, &'a str),
    /// A time in microseconds, told in seconds.
    Seconds(u64),
}
