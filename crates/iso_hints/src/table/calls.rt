//! Words that are called.
ghost use Rattle.std.specs.Prelude.{◌≡◌, option_map};
ghost use Rattle.iso_hints.specs.Places.{view_of};
ghost use Rattle.iso_hints.specs.Rows.{hint_in};
ghost use Rattle.iso_hints.specs.Tables.{calls};

use crate::pattern::Pattern::{Numeral, Statement, Token};
use crate::place::Place;
use crate::row::hint_in;
use crate::table::Row;

const ROWS: &[Row] = &[
    (
        Token,
        "assertEquals",
        "",
        "write `assert_equal a, b;` without parentheses",
    ),
    (
        Token,
        "assert_eq",
        "",
        "write `assert_equal a, b;` without parentheses",
    ),
    (
        Token,
        "assertEqual",
        "",
        "write `assert_equal a, b;` without parentheses",
    ),
    (Token, "assertNotEquals", "", "write `assert a != b;`"),
    (Token, "assertTrue", "", "write `assert a;`"),
    (Token, "assertFalse", "", "write `assert a == false;`"),
    (
        Token,
        "assertThat",
        "",
        "write `assert a;` or `assert_equal a, b;`",
    ),
    (Token, "assumeTrue", "", "write `assume a, \"REASON\";`"),
    (
        Token,
        "assumeFalse",
        "",
        "write `assume a == false, \"REASON\";`",
    ),
    (Token, "println", "", "did you mean `print`?"),
    (Token, "not", "", "there is no `not`: write `a == false`"),
    (Token, "", "!=", "`!=` stands between two operands"),
    (Token, "", "!", "there is no `!`: write `a == false`"),
    (
        Token,
        "",
        "and",
        "there is no `and`: write an `if` in an `if`, or two statements",
    ),
    (
        Token,
        "",
        "or",
        "there is no `or`: write `if a { .. } else { .. }`",
    ),
    (Token, "", "is", "write `a == b`"),
    (Token, "text", "", "write `text(..)`"),
    (Token, "len", "", "write `len(..)`"),
    (Token, "prop", "", "write `prop(..)`"),
    (Token, "has_prop", "", "write `has_prop(..)`"),
    (Token, "file", "", "write `file(..)`"),
    (Token, "has_file", "", "write `has_file(..)`"),
    (Token, "locale", "", "write `locale()`"),
    (
        Statement,
        "fail",
        "",
        "`fail` takes a text alone: write `fail \"TEXT\";`",
    ),
    (
        Numeral,
        "",
        "",
        "a number has digits alone, and a name begins with a letter",
    ),
];

/// What these rows tell of a place.
pub(crate) fn calls(place: &Place<'_>) -> Option<&'static str>
    ensures { option_map (λ told. told.now) result ≡ hint_in calls (view_of place.now) }
{
    hint_in(ROWS, place)
}
