//! Rules that say more than the table of hints, and are asked before it.

use crate::find::Find;
use crate::rule::Rule;
use crate::want::Want;
use iso_script_lexer::symbol::Symbol;

/// These rules.
pub(crate) const RULES: &[Rule] = &[
    (
        Want::Symbol(Symbol::Semicolon),
        Find::Anew,
        "a `;` is missing before this",
    ),
    (
        Want::Body,
        Find::OfClass,
        "this stands outside of bodies, and one is open here: is a `}` missing above?",
    ),
    (
        Want::Class,
        Find::Team,
        "a script has one team: write the classes of another one into another script",
    ),
    (
        Want::Class,
        Find::OfClass,
        "no class is open here: is a `}` above one too many, or `class NAME { .. }` missing?",
    ),
    (
        Want::Class,
        Find::OfBody,
        "no class is open here: is a `}` above one too many, or `class NAME { .. }` missing?",
    ),
    (
        Want::Symbol(Symbol::CloseParen),
        Find::Symbol(Symbol::Semicolon),
        "a `(` before this is not closed",
    ),
    (
        Want::Symbol(Symbol::CloseParen),
        Find::Symbol(Symbol::OpenBrace),
        "a `(` before this is not closed",
    ),
    (
        Want::Symbol(Symbol::Semicolon),
        Find::Symbol(Symbol::CloseParen),
        "no `(` is open here",
    ),
    (
        Want::Symbol(Symbol::Comma),
        Find::Symbol(Symbol::CloseParen),
        "no `(` is open here",
    ),
    (
        Want::Symbol(Symbol::OpenBrace),
        Find::Symbol(Symbol::CloseParen),
        "no `(` is open here",
    ),
    (
        Want::Display,
        Find::Mark,
        "marks stand before `test` and `class`: `concurrent test NAME { .. }`",
    ),
    (
        Want::Display,
        Find::LeadingWord,
        "a `{` is missing before this",
    ),
    (
        Want::Display,
        Find::OfClass,
        "a name is one word: a display text or `{` stands behind it",
    ),
    (
        Want::Display,
        Find::OfBody,
        "a name is one word: a display text or `{` stands behind it",
    ),
    (
        Want::Display,
        Find::Symbol(Symbol::Minus),
        "a name has letters, digits and `_` alone",
    ),
    (
        Want::Symbol(Symbol::Equals),
        Find::Symbol(Symbol::Comma),
        "one name stands before `=`",
    ),
];
