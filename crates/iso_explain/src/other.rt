//! Rules that are asked where nothing else is told, but for how a form is written.

use crate::find::Find;
use crate::rule::Rule;
use crate::want::Want;
use iso_script_lexer::symbol::Symbol;

/// These rules.
pub(crate) const RULES: &[Rule] = &[
    (
        Want::Operator(Symbol::Semicolon),
        Find::Symbol(Symbol::Equals),
        "did you mean `==`? A value is given by a statement of its own",
    ),
    (
        Want::Operator(Symbol::OpenBrace),
        Find::Symbol(Symbol::Equals),
        "did you mean `==`? A value is given by a statement of its own",
    ),
    (
        Want::Operator(Symbol::CloseParen),
        Find::Symbol(Symbol::Equals),
        "did you mean `==`? A value is given by a statement of its own",
    ),
    (
        Want::Operator(Symbol::Semicolon),
        Find::Symbol(Symbol::OpenParen),
        "the functions are `text len prop has_prop file has_file locale`",
    ),
    (
        Want::Operator(Symbol::Comma),
        Find::Symbol(Symbol::OpenParen),
        "the functions are `text len prop has_prop file has_file locale`",
    ),
    (
        Want::Operator(Symbol::OpenBrace),
        Find::Symbol(Symbol::OpenParen),
        "the functions are `text len prop has_prop file has_file locale`",
    ),
    (
        Want::Operator(Symbol::CloseParen),
        Find::Symbol(Symbol::OpenParen),
        "the functions are `text len prop has_prop file has_file locale`",
    ),
    (
        Want::Operator(Symbol::Semicolon),
        Find::Text,
        "texts are joined by `++`, and a quote in a text is written `\\\"`",
    ),
    (
        Want::Operator(Symbol::CloseParen),
        Find::Text,
        "texts are joined by `++`, and a quote in a text is written `\\\"`",
    ),
    (
        Want::Value,
        Find::Symbol(Symbol::EqualsEquals),
        "a value is given by `=`, and two are compared in `assert a == b;`",
    ),
    (
        Want::Value,
        Find::Any,
        "statements are `NAME = ..;`, `let print assert assert_equal assume fail if repeat` and `set_prop clear_prop set_locale write_file append_file delete_file`",
    ),
    (
        Want::Statement,
        Find::Else,
        "this `else` belongs to no `if`",
    ),
    (
        Want::Body,
        Find::Operand,
        "an expression is no statement: write `print ..;` or `NAME = ..;`",
    ),
    (
        Want::Part,
        Find::OfBody,
        "a statement stands in a test or a block: write `test NAME { .. }`",
    ),
    (
        Want::Block,
        Find::OfBody,
        "a statement stands in a test or a block: is a `}` above one too many?",
    ),
    (
        Want::Member,
        Find::OfBody,
        "a statement stands in a test or a block: is a `}` above one too many?",
    ),
    (
        Want::Member,
        Find::Block,
        "lifecycle blocks stand before the tests and classes of their class",
    ),
    (
        Want::Member,
        Find::Variable,
        "statics and fields stand before the blocks, tests and classes of their class",
    ),
    (
        Want::Block,
        Find::Variable,
        "statics and fields stand before the blocks, tests and classes of their class",
    ),
    (
        Want::Display,
        Find::Symbol(Symbol::OpenParen),
        "tests and classes have no parentheses",
    ),
    (
        Want::Marked,
        Find::Block,
        "marks stand before tests and classes alone",
    ),
    (
        Want::Marked,
        Find::Variable,
        "marks stand before tests and classes alone",
    ),
    (
        Want::Marked,
        Find::Symbol(Symbol::Comma),
        "marks stand one after another, without `,` and `;`",
    ),
    (
        Want::Marked,
        Find::Symbol(Symbol::Semicolon),
        "marks stand one after another, without `,` and `;`",
    ),
    (
        Want::Operand,
        Find::Anew,
        "an operand is missing before this",
    ),
    (
        Want::Operand,
        Find::Symbol(Symbol::Semicolon),
        "an operand is missing before this",
    ),
    (
        Want::Operand,
        Find::Symbol(Symbol::CloseParen),
        "an operand is missing before this",
    ),
    (
        Want::Operand,
        Find::Symbol(Symbol::OpenBrace),
        "an operand is missing before this",
    ),
    (
        Want::Operand,
        Find::Symbol(Symbol::Comma),
        "an operand is missing before this",
    ),
    (
        Want::Number,
        Find::Any,
        "a minus stands before a number alone: write `0 - a`",
    ),
    (Want::Key, Find::Name, "a key stands in double quotes"),
];
