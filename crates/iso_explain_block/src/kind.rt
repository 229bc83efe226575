//! The kinds of operands, as far as the syntax shows them.
ghost use Rattle.std.specs.Prelude.{◌≡◌};
ghost use Rattle.iso_explain_block.specs.Kinds.{call_kind, chain_kind, is, is_hidden, is_other, kind_of, kind_words};
ghost use Rattle.iso_model.specs.SyntaxView.{term_of};

use iso_model::tree::{Expr, Function, Operator};

/// The kind of a value.
#[derive(Clone, Copy)]
pub(crate) enum Kind {
    Whole,
    Flag,
    Text,
    /// One of the three: the syntax doesn't show which.
    Hidden,
}

/// The kind of what an expression gives.
pub(crate) fn kind_of(expression: &Expr) -> Kind
    ensures { result ≡ kind_of (term_of expression.now) }
{
    match expression {
        Expr::Whole(_) => Kind::Whole,
        Expr::Flag(_) | Expr::Compare(_, _, _) => Kind::Flag,
        Expr::Text(_) | Expr::Locale => Kind::Text,
        Expr::Name(_) => Kind::Hidden,
        Expr::Chain(operator, _) => chain_kind(*operator),
        Expr::Call(function, _) => call_kind(*function),
    }
}

/// The kind of a chain, and of each operand that it takes.
pub(crate) fn chain_kind(operator: Operator) -> Kind
    ensures { result ≡ chain_kind operator }
{
    match operator {
        Operator::Add | Operator::Subtract | Operator::Multiply => Kind::Whole,
        Operator::Join => Kind::Text,
    }
}

/// The kind of what a function gives.
fn call_kind(function: Function) -> Kind
    ensures { result ≡ call_kind function }
{
    match function {
        Function::Len => Kind::Whole,
        Function::HasProp | Function::HasFile => Kind::Flag,
        Function::Text | Function::Prop | Function::File => Kind::Text,
    }
}

impl Kind {
    /// Whether it is shown to be this one.
    pub(crate) fn is(self, wanted: Kind) -> bool
        ensures { result ≡ is wanted self }
    {
        match (wanted, self) {
            (Kind::Whole, Kind::Whole) | (Kind::Flag, Kind::Flag) | (Kind::Text, Kind::Text) =>
                true,
            _ => false,
        }
    }

    /// Whether it is shown to be another one.
    pub(crate) fn is_other(self, wanted: Kind) -> bool
        ensures { result ≡ is_other wanted self }
    {
        !self.is_hidden() && !self.is(wanted)
    }

    /// Whether it isn't shown.
    pub(crate) fn is_hidden(self) -> bool
        ensures { result ≡ is_hidden self }
    {
        matches!(self, Kind::Hidden)
    }

    /// What it is called.
    pub(crate) fn words(self) -> &'static str
        ensures { result.now ≡ kind_words self }
    {
        match self {
            Kind::Whole => "a whole number",
            Kind::Flag => "a truth value",
            Kind::Text => "a text",
            Kind::Hidden => "of any kind",
        }
    }
}
