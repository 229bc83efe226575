//! Other symbols.
ghost use Rattle.std.specs.Prelude.{◌≡◌, option_map};
ghost use Rattle.iso_hints.specs.Places.{view_of};
ghost use Rattle.iso_hints.specs.Rows.{hint_in};
ghost use Rattle.iso_hints.specs.Tables.{symbols};

use crate::pattern::Pattern::{Statement, Token};
use crate::place::Place;
use crate::row::hint_in;
use crate::table::Row;

const ROWS: &[Row] = &[
    (Token, "", "++;", "there is no `++`: write `i = i + 1;`"),
    (Token, "", "--", "there is no `--`: write `i = i - 1;`"),
    (
        Token,
        "assert_eq",
        "!",
        "write `assert_equal a, b;` without parentheses",
    ),
    (Token, "println", "!", "did you mean `print`?"),
    (Token, "", "/", "there is no division"),
    (Token, "", "%", "there is no division"),
    (
        Token,
        "",
        "?",
        "there is no `?`: write `if a { .. } else { .. }`",
    ),
    (Token, "", "[", "there are no lists"),
    (
        Token,
        "",
        ".",
        "there is no `.`: numbers are whole, and nothing has fields or methods",
    ),
    (
        Token,
        "",
        "\\",
        "a text has the escapes `\\\"` and `\\\\` alone",
    ),
    (Statement, "class", ":", "a class extends no other"),
    (
        Token,
        "",
        "::",
        "there is no `::`: nothing is a part of a type",
    ),
    (Token, "", ":=", "a value is given by `=`"),
    (
        Token,
        "",
        ":",
        "there is no `:`: bodies stand in braces, and nothing has a type",
    ),
    (Statement, "let", "==", "a value is given by `=`"),
];

/// What these rows tell of a place.
pub(crate) fn symbols(place: &Place<'_>) -> Option<&'static str>
    ensures { option_map (λ told. told.now) result ≡ hint_in symbols (view_of place.now) }
{
    hint_in(ROWS, place)
}
