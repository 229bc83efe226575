//! The parts that elements are made of.

use crate::tally::Tally;

/// A part of an element.
#[derive(Clone, Copy)]
pub enum Part<'a> {
    Plain(&'a str),
    /// A number in decimal.
    Number(u32),
    /// A text with its escapes.
    Text(&'a str),
    /// A file's name.
    File(&'a str),
    /// The attribute of a time, where one was measured.
    Time(Option<u64>),
    /// The line of a display text.
    Display(&'a str),
    /// The attributes of counts.
    Counts(Tally),
}
