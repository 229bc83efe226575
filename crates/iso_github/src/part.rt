//! The parts that commands are made of.

/// A part of a command.
#[derive(Clone, Copy)]
pub(crate) enum Part<'a> {
    Plain(&'a str),
    /// A number in decimal.
    Number(u32),
    /// A text as a property.
    Property(&'a str),
    /// A text as a message.
    Message(&'a str),
}
