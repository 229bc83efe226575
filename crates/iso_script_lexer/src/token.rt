use crate::symbol::Symbol;
use crate::text::QuotedText;
use crate::word::Word;

/// A position in a script: line and column count from 1, and a column counts bytes.
#[derive(Clone, Copy, PartialEq, Eq)]
pub struct Position {
    pub line: u32,
    pub column: u32,
}

/// What makes bytes no token.
#[derive(Clone, Copy, Debug, PartialEq, Eq)]
pub enum TokenFault {
    /// A byte that is not allowed where it stands.
    BadByte,
    /// Bytes that spell no token, or an escape that is none.
    BadToken,
    /// A number above 2^63.
    NumberTooBig,
    /// A text that is not closed on its line.
    OpenText,
    /// A name above 64 bytes, or a text above 4,096.
    TooLong,
}

/// A token of the script language.
#[derive(Clone, Copy)]
pub enum Token<'a> {
    /// A name that is no reserved word.
    Name(&'a str),
    /// A number, at most 2^63.
    Number(u64),
    Text(QuotedText<'a>),
    Word(Word),
    Symbol(Symbol),
    /// The end of the input.
    End,
    /// What is no token.
    Bad(TokenFault),
}
