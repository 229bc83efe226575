//! The parts that lines are made of.

/// A part of a line.
#[derive(Clone, Copy)]
pub(crate) enum Part<'a> {
    Plain(&'a str),
    /// A number in decimal.
    Number(u32),
    /// This number of things, with the word for one and the word for several.
    Counted(u32, &'a str, &'a str),
    /// How many classes failed, where any did.
    FailedClasses(u32),
    /// A file's name as it is shown.
    Name(&'a str),
    /// A line of a script as it is shown.
    Source(&'a [u8]),
    /// A text as printable ASCII, be it as long as it may.
    Shown(&'a str),
    /// A file as a word of a command.
    File(&'a str),
    /// An option with its file, where one was given.
    FileOption(&'a str, Option<&'a str>),
    /// An option with its number, where one was given.
    NumberOption(&'a str, Option<u32>),
}
