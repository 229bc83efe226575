//! What stands behind the carets: what is wanted, or what is wrong.
ghost use Rattle.std.specs.Prelude.{◌≡◌, ◌++◌};
ghost use Rattle.iso_explain.specs.Labels.{kind_text, label_of, quoted, tells_wanted, wanted_or_kind, wanted_text, written};

use crate::spelling::{marks, spelling};
use iso_script::explain::{Reason, Wanted};
use iso_script_lexer::symbol::Symbol;
use iso_script_statements::fault::ScriptFaultKind;

/// A label: these texts one after another.
#[derive(Clone, Copy)]
pub(crate) struct Label {
    pub lead: &'static str,
    pub first: &'static str,
    pub between: &'static str,
    pub second: &'static str,
    pub end: &'static str,
}

/// The label of a fault.
pub(crate) fn label_of(kind: ScriptFaultKind, reason: Reason<'_>) -> Label
    ensures { written result ≡ label_of kind reason.entry }
{
    match reason {
        Reason::Unmet(unmet) => wanted_or_kind(kind, unmet.wanted),
        Reason::Kind | Reason::Beyond(_) => plain(of_kind(kind)),
    }
}

/// What is wanted, where the kind of a fault doesn't say more.
fn wanted_or_kind(kind: ScriptFaultKind, missing: Wanted) -> Label
    ensures { written result ≡ wanted_or_kind kind missing }
{
    if tells_wanted(kind) {
        wanted(missing)
    } else {
        plain(of_kind(kind))
    }
}

/// Whether a fault of this kind says no more than that something else is wanted.
fn tells_wanted(kind: ScriptFaultKind) -> bool
    ensures { result ≡ tells_wanted kind }
{
    matches!(
        kind,
        ScriptFaultKind::Expected | ScriptFaultKind::EndOfInput
    )
}

/// A label of one text.
fn plain(text: &'static str) -> Label
    ensures { written result ≡ text.now }
{
    Label {
        lead: text,
        first: "",
        between: "",
        second: "",
        end: "",
    }
}

/// A label of a text with a quoted one behind it.
fn with_quoted(lead: &'static str, first: &'static str) -> Label
    ensures { written result ≡ lead.now ++ quoted first.now }
{
    Label {
        lead,
        first: "`",
        between: first,
        second: "`",
        end: "",
    }
}

/// A label of the operator of a chain and what may follow it.
fn with_operator(operator: Symbol, follows: Symbol) -> Label
    ensures { written result ≡ wanted_text (Wanted.SameOperator operator follows) }
{
    Label {
        lead: "expected `",
        first: marks(operator),
        between: "` or `",
        second: marks(follows),
        end: "`",
    }
}

/// What is wanted.
fn wanted(wanted: Wanted) -> Label
    ensures { written result ≡ wanted_text wanted }
{
    match wanted {
        Wanted::Word(word) => with_quoted("expected ", spelling(word)),
        Wanted::Symbol(symbol) => with_quoted("expected ", marks(symbol)),
        Wanted::Name => plain("expected a name"),
        Wanted::Text => plain("expected a text in double quotes"),
        Wanted::Number => plain("expected a number"),
        Wanted::Literal => plain("expected a number, a text, `true` or `false`"),
        Wanted::Operand => plain("expected a value, a name, `(` or a function such as `len(..)`"),
        Wanted::Operator(follows) => with_quoted("expected an operator or ", marks(follows)),
        Wanted::SameOperator(operator, follows) => with_operator(operator, follows),
        Wanted::Statement => plain("expected a statement or `}`"),
        Wanted::StatementOrElse => plain("expected `else`, a statement or `}`"),
        Wanted::Display => plain("expected a display text or `{`"),
        Wanted::Key => plain("expected a key, which is a text that isn't empty"),
        Wanted::Target => plain("expected `children` or a key, which is a text that isn't empty"),
        Wanted::TopClass => plain("expected a mark, `class` or the end of the script"),
        Wanted::ClassPart => plain(
            "expected `test`, `class`, a mark, a lifecycle block, `static` or `field`",
        ),
        Wanted::BlockOrMember => plain("expected `test`, `class`, a mark or a lifecycle block"),
        Wanted::Member => plain("expected `test`, `class`, a mark or `}`"),
        Wanted::MarkedMember => plain("expected `test`, `class` or one more mark"),
        Wanted::MarkedClass => plain("expected `class` or one more mark"),
    }
}

/// What is wrong where a fault of this kind is.
fn of_kind(kind: ScriptFaultKind) -> &'static str
    ensures { result.now ≡ kind_text kind }
{
    match kind {
        ScriptFaultKind::BadByte =>
            "this byte may not stand here: texts and comments too have printable ASCII alone",
        ScriptFaultKind::BadToken => "no token is spelled so",
        ScriptFaultKind::NumberTooBig => "this number is too big",
        ScriptFaultKind::OpenText => "this text isn't closed on its line",
        ScriptFaultKind::Expected => "this doesn't fit here",
        ScriptFaultKind::DoubleBlock => "this class has such a block already",
        ScriptFaultKind::DoubleMember =>
            "this is here already: a test or class of this name, or such a mark",
        ScriptFaultKind::NameTaken =>
            "a static or field of this name stands in this class or in one around it already",
        ScriptFaultKind::EmptyClass => "a class has a test or a class in it",
        ScriptFaultKind::TooDeep => "this is one too many",
        ScriptFaultKind::TooLong => "this is too long",
        ScriptFaultKind::BadDisplay => "this text can't be shown as it is",
        ScriptFaultKind::GlobalKey =>
            "no script may declare this key: write `isolated` before the class",
        ScriptFaultKind::EndOfInput => "the script ends here",
    }
}
