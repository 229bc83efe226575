//! Kinds of what is found, as rules ask for them.
ghost use Rattle.std.specs.Prelude.{◌≡◌};
ghost use Rattle.iso_explain.specs.Finds.{begins_anew, finds, is_block, is_else, is_mark, is_joined, is_name, is_of_body, is_of_class, is_operand_word, is_team, is_variable, symbol_found};

use crate::met::{Found, Met};
use crate::want::is_symbol;
use iso_script_lexer::symbol::Symbol;

/// What a rule asks to be found.
#[derive(Clone, Copy)]
pub(crate) enum Find {
    /// This symbol.
    Symbol(Symbol),
    /// What begins a statement or a part of a class, or a `}`.
    Anew,
    /// A word of a statement.
    OfBody,
    /// A word with which something begins that stands outside of bodies.
    OfClass,
    /// A word of a mark.
    Mark,
    /// A word of a lifecycle block.
    Block,
    /// The word `static` or `field`.
    Variable,
    /// A word that begins an operand.
    Operand,
    Team,
    Else,
    Name,
    /// A text, or an operand right behind one.
    Text,
    /// A word of a statement or of a class that leads its line.
    LeadingWord,
    /// Anything.
    Any,
}

/// Whether what is asked for is found where this is met.
pub(crate) fn finds(met: Met, find: Find) -> bool
    ensures { result ≡ finds met find }
{
    match find {
        Find::Symbol(symbol) => is_symbol(symbol, symbol_found(met.found)),
        Find::Anew => begins_anew(met),
        Find::OfBody => is_of_body(met.found),
        Find::OfClass => is_of_class(met.found),
        Find::Mark => is_mark(met.found),
        Find::Block => is_block(met.found),
        Find::Variable => is_variable(met.found),
        Find::Operand => is_operand_word(met.found),
        Find::Team => is_team(met.found),
        Find::Else => is_else(met.found),
        Find::Name => is_name(met.found),
        Find::Text => is_joined(met),
        Find::LeadingWord => met.leads && (is_of_body(met.found) || is_of_class(met.found)),
        Find::Any => true,
    }
}

/// The symbol that is found.
pub(crate) fn symbol_found(found: Found) -> Option<Symbol>
    ensures { result ≡ symbol_found found }
{
    match found {
        Found::Symbol(symbol) => Some(symbol),
        _ => None,
    }
}

/// Whether what is found begins a statement or a part of a class, or closes a brace. Where it is in
/// the line of what stands before, a name may be an operand, and an `if` a condition.
fn begins_anew(met: Met) -> bool
    ensures { result ≡ begins_anew met }
{
    match met.found {
        Found::Name | Found::If => met.leads,
        Found::Statement => true,
        Found::Symbol(symbol) => symbol.is(Symbol::CloseBrace),
        found => is_of_class(found),
    }
}

/// Whether a word of a statement is found.
fn is_of_body(found: Found) -> bool
    ensures { result ≡ is_of_body found }
{
    matches!(found, Found::Statement | Found::If | Found::Else)
}

/// Whether a word is found with which something begins that stands outside of bodies.
pub(crate) fn is_of_class(found: Found) -> bool
    ensures { result ≡ is_of_class found }
{
    matches!(
        found,
        Found::Mark | Found::Block | Found::Variable | Found::Member | Found::Team
    )
}

/// Whether a word of a mark is found.
fn is_mark(found: Found) -> bool
    ensures { result ≡ is_mark found }
{
    matches!(found, Found::Mark)
}

/// Whether a word of a lifecycle block is found.
fn is_block(found: Found) -> bool
    ensures { result ≡ is_block found }
{
    matches!(found, Found::Block)
}

/// Whether `static` or `field` is found.
fn is_variable(found: Found) -> bool
    ensures { result ≡ is_variable found }
{
    matches!(found, Found::Variable)
}

/// Whether a word is found that begins an operand.
fn is_operand_word(found: Found) -> bool
    ensures { result ≡ is_operand_word found }
{
    matches!(found, Found::Operand)
}

/// Whether `team` is found.
fn is_team(found: Found) -> bool
    ensures { result ≡ is_team found }
{
    matches!(found, Found::Team)
}

/// Whether `else` is found.
fn is_else(found: Found) -> bool
    ensures { result ≡ is_else found }
{
    matches!(found, Found::Else)
}

/// Whether a name is found.
fn is_name(found: Found) -> bool
    ensures { result ≡ is_name found }
{
    matches!(found, Found::Name)
}

/// Whether a text is found, or an operand right behind one.
fn is_joined(met: Met) -> bool
    ensures { result ≡ is_joined met }
{
    match met.found {
        Found::Text => true,
        Found::Name | Found::Number | Found::Operand => met.behind_text,
        _ => false,
    }
}
