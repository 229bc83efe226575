//! The parts that notes are made of.
use iso_script_lexer::token::Position;

/// A part of a note.
#[derive(Clone, Copy)]
pub(crate) enum Part<'a> {
    Plain(&'a str),
    /// A number in decimal.
    Number(u64),
    /// A text with any bytes, as a line of a script is shown.
    Shown(&'a str),
    /// A file's name as it is shown.
    Name(&'a str),
    /// A place behind a file's name, where it is known.
    Place(Option<Position>),
}

/// A part of a note about nodes of a plan.
#[derive(Clone, Copy)]
pub(crate) enum NodePart<'a> {
    Of(Part<'a>),
    /// A node: its path, or its number where it has none.
    Node(u32),
}
