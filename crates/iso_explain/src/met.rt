//! What is met at a fault: what is wanted there, what is found, and what stands before.
ghost use Rattle.std.specs.Prelude.{◌≡◌, option_copied};
ghost use Rattle.iso_explain.specs.Met.{found_of, is_quote, kind_of, met_of};
ghost use Rattle.iso_hints.specs.Places.{view_of};

use iso_hints::place::{Place, name_at};
use iso_script::explain::{Unmet, Wanted};
use iso_script_lexer::symbol::Symbol;
use iso_script_lexer::token::Token;
use iso_script_lexer::word::Word;

/// A kind of what is found.
#[derive(Clone, Copy)]
pub(crate) enum Found {
    Name,
    Number,
    Text,
    /// A word that begins a statement, but for `if`.
    Statement,
    If,
    Else,
    /// A word that begins a mark.
    Mark,
    /// A word that begins a lifecycle block.
    Block,
    /// The word `static` or `field`.
    Variable,
    /// The word `class` or `test`.
    Member,
    Team,
    /// A word that begins an operand.
    Operand,
    Children,
    Symbol(Symbol),
    End,
    Bad,
}

/// What is met at a fault.
#[derive(Clone, Copy)]
pub(crate) struct Met {
    pub wanted: Wanted,
    pub found: Found,
    /// Whether it is the first in its line.
    pub leads: bool,
    /// Whether the statement that is begun is one name so far.
    pub named: bool,
    /// Whether a text stands right before.
    pub behind_text: bool,
}

/// What is met at this place.
pub(crate) fn met_of(place: &Place<'_>, unmet: Unmet<'_>) -> Met
    ensures { result ≡ met_of (view_of place.now) unmet.entry }
{
    Met {
        wanted: unmet.wanted,
        found: found_of(unmet.found),
        leads: place.leads,
        named: name_at(place).is_some(),
        behind_text: is_quote(place.before.last()),
    }
}

/// What kind a token is of.
pub(crate) fn found_of(token: Token<'_>) -> Found
    ensures { result ≡ found_of token.entry }
{
    match token {
        Token::Name(_) => Found::Name,
        Token::Number(_) => Found::Number,
        Token::Text(_) => Found::Text,
        Token::Word(word) => kind_of(word),
        Token::Symbol(symbol) => Found::Symbol(symbol),
        Token::End => Found::End,
        Token::Bad(_) => Found::Bad,
    }
}

/// What kind a reserved word is of.
fn kind_of(word: Word) -> Found
    ensures { result ≡ kind_of word }
{
    match word {
        Word::Let
        | Word::Print
        | Word::Assert
        | Word::AssertEqual
        | Word::Assume
        | Word::Fail
        | Word::Repeat
        | Word::SetProp
        | Word::ClearProp
        | Word::SetLocale
        | Word::WriteFile
        | Word::AppendFile
        | Word::DeleteFile => Found::Statement,
        Word::If => Found::If,
        Word::Else => Found::Else,
        Word::SameThread
        | Word::Concurrent
        | Word::Isolated
        | Word::Disabled
        | Word::Read
        | Word::Write => Found::Mark,
        Word::BeforeAll | Word::AfterAll | Word::BeforeEach | Word::AfterEach => Found::Block,
        Word::Static | Word::Field => Found::Variable,
        Word::Class | Word::Test => Found::Member,
        Word::Team => Found::Team,
        Word::True
        | Word::False
        | Word::Text
        | Word::Len
        | Word::Prop
        | Word::HasProp
        | Word::Locale
        | Word::File
        | Word::HasFile => Found::Operand,
        Word::Children => Found::Children,
    }
}

/// Whether there is a byte, and it is a double quote.
fn is_quote(byte: Option<&u8>) -> bool
    ensures { result ≡ is_quote (option_copied byte.entry) }
{
    match byte {
        Some(byte) => *byte == b'"',
        None => false,
    }
}
