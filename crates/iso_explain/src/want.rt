//! Kinds of what is wanted.
ghost use Rattle.std.specs.Prelude.{◌≡◌};
ghost use Rattle.iso_explain.specs.Wants.{is_block_or_member, is_body, is_class, is_class_part, is_display, is_key, is_marked, is_member, is_number, is_operand, is_statement, is_symbol, symbol_or_operator, symbol_wanted, wants};

use crate::met::Met;
use iso_script::explain::Wanted;
use iso_script_lexer::symbol::Symbol;

/// A kind of what is wanted.
#[derive(Clone, Copy)]
pub(crate) enum Want {
    /// This symbol, perhaps behind an operator.
    Symbol(Symbol),
    /// The `=` behind the name that begins a statement.
    Value,
    /// An operator, or this symbol.
    Operator(Symbol),
    Operand,
    Number,
    /// A statement, or what closes the body.
    Body,
    /// The same, where no `else` may stand.
    Statement,
    Display,
    Key,
    /// A top-level class.
    Class,
    /// Any part of a class.
    Part,
    /// A lifecycle block or a member.
    Block,
    Member,
    /// What stands behind a mark.
    Marked,
}

/// Whether this kind is wanted where this is met.
pub(crate) fn wants(met: Met, want: Want) -> bool
    ensures { result ≡ wants met want }
{
    match want {
        Want::Symbol(symbol) => is_symbol(symbol, symbol_wanted(met.wanted)),
        Want::Value => met.named && is_symbol(Symbol::Equals, symbol_wanted(met.wanted)),
        Want::Operator(symbol) => is_symbol(symbol, symbol_or_operator(met.wanted)),
        Want::Operand => is_operand(met.wanted),
        Want::Number => is_number(met.wanted),
        Want::Body => is_body(met.wanted),
        Want::Statement => is_statement(met.wanted),
        Want::Display => is_display(met.wanted),
        Want::Key => is_key(met.wanted),
        Want::Class => is_class(met.wanted),
        Want::Part => is_class_part(met.wanted),
        Want::Block => is_block_or_member(met.wanted),
        Want::Member => is_member(met.wanted),
        Want::Marked => is_marked(met.wanted),
    }
}

/// The symbol that is wanted, perhaps behind an operator.
pub(crate) fn symbol_wanted(wanted: Wanted) -> Option<Symbol>
    ensures { result ≡ symbol_wanted wanted }
{
    match wanted {
        Wanted::Symbol(symbol) => Some(symbol),
        Wanted::Operator(symbol) => Some(symbol),
        Wanted::SameOperator(_, symbol) => Some(symbol),
        _ => None,
    }
}

/// Whether there is a symbol, and it is this one.
pub(crate) fn is_symbol(symbol: Symbol, given: Option<Symbol>) -> bool
    ensures { result ≡ is_symbol symbol given }
{
    match given {
        Some(given) => given.is(symbol),
        None => false,
    }
}

/// The symbol that is wanted where an operator is, too.
fn symbol_or_operator(wanted: Wanted) -> Option<Symbol>
    ensures { result ≡ symbol_or_operator wanted }
{
    match wanted {
        Wanted::Operator(symbol) => Some(symbol),
        Wanted::SameOperator(_, symbol) => Some(symbol),
        _ => None,
    }
}

/// Whether an operand is wanted.
fn is_operand(wanted: Wanted) -> bool
    ensures { result ≡ is_operand wanted }
{
    matches!(wanted, Wanted::Operand)
}

/// Whether a number is wanted.
fn is_number(wanted: Wanted) -> bool
    ensures { result ≡ is_number wanted }
{
    matches!(wanted, Wanted::Number)
}

/// Whether a statement is wanted, or what closes the body.
pub(crate) fn is_body(wanted: Wanted) -> bool
    ensures { result ≡ is_body wanted }
{
    matches!(wanted, Wanted::Statement | Wanted::StatementOrElse)
}

/// Whether a statement is wanted, and no `else`.
fn is_statement(wanted: Wanted) -> bool
    ensures { result ≡ is_statement wanted }
{
    matches!(wanted, Wanted::Statement)
}

/// Whether a display text or a body is wanted.
fn is_display(wanted: Wanted) -> bool
    ensures { result ≡ is_display wanted }
{
    matches!(wanted, Wanted::Display)
}

/// Whether a key is wanted.
fn is_key(wanted: Wanted) -> bool
    ensures { result ≡ is_key wanted }
{
    matches!(wanted, Wanted::Key | Wanted::Target)
}

/// Whether a top-level class is wanted.
fn is_class(wanted: Wanted) -> bool
    ensures { result ≡ is_class wanted }
{
    matches!(wanted, Wanted::TopClass)
}

/// Whether any part of a class is wanted.
fn is_class_part(wanted: Wanted) -> bool
    ensures { result ≡ is_class_part wanted }
{
    matches!(wanted, Wanted::ClassPart)
}

/// Whether a lifecycle block or a member is wanted.
fn is_block_or_member(wanted: Wanted) -> bool
    ensures { result ≡ is_block_or_member wanted }
{
    matches!(wanted, Wanted::BlockOrMember)
}

/// Whether a member is wanted.
fn is_member(wanted: Wanted) -> bool
    ensures { result ≡ is_member wanted }
{
    matches!(wanted, Wanted::Member)
}

/// Whether what stands behind a mark is wanted.
fn is_marked(wanted: Wanted) -> bool
    ensures { result ≡ is_marked wanted }
{
    matches!(wanted, Wanted::MarkedMember | Wanted::MarkedClass)
}
