//! What is wanted where a fault is answered.
ghost use Rattle.std.specs.Prelude.{◌≡◌};
ghost use Rattle.iso_script_statements.specs.Wanted.{after_operand};

use iso_script_lexer::symbol::Symbol;
use iso_script_lexer::word::Word;

/// What could have stood where a script has a fault. What is one too many, or there already, has a
/// fault of its own: so a class counts as wanted among members at any depth, and a mark after
/// others, whichever these are.
#[derive(Clone, Copy, PartialEq, Eq)]
pub enum Wanted {
    /// This reserved word.
    Word(Word),
    /// This symbol.
    Symbol(Symbol),
    Name,
    Text,
    /// A number, after the minus of a literal.
    Number,
    Literal,
    Operand,
    /// An operator, or the symbol that follows the expression.
    Operator(Symbol),
    /// The first of these, which is the operator of a chain, or the second, which follows the
    /// expression.
    SameOperator(Symbol, Symbol),
    /// A statement, or the brace that closes the body.
    Statement,
    /// The same, or `else`, after the body of an `if`.
    StatementOrElse,
    /// A display text, or the brace after it.
    Display,
    /// A text that is not empty.
    Key,
    /// The word `children`, or a text that is not empty.
    Target,
    /// A top-level class, with or without marks, or the end of the script.
    TopClass,
    /// A static, a field, a lifecycle block, or a member, with or without marks.
    ClassPart,
    /// A lifecycle block, or a member, with or without marks.
    BlockOrMember,
    /// A member, with or without marks, or the brace that closes the class.
    Member,
    /// One more mark, or a test or class.
    MarkedMember,
    /// One more mark, or a class: a test can't have the marks before it.
    MarkedClass,
}

/// Which operators may follow an expression.
#[derive(Clone, Copy)]
pub enum Operators {
    /// Any, after an operand.
    Any,
    /// The one of the chain.
    Same(Symbol),
    /// None, after a comparison.
    None,
}

impl Wanted {
    /// What is wanted after an expression that these operators may follow, and then this symbol.
    pub(crate) fn after(operators: Operators, symbol: Symbol) -> Wanted
        ensures { result ≡ after_operand operators symbol }
    {
        match operators {
            Operators::Any => Wanted::Operator(symbol),
            Operators::Same(operator) => Wanted::SameOperator(operator, symbol),
            Operators::None => Wanted::Symbol(symbol),
        }
    }
}
