//! Operators that the language hasn't.
ghost use Rattle.std.specs.Prelude.{◌≡◌, option_map};
ghost use Rattle.iso_hints.specs.Places.{view_of};
ghost use Rattle.iso_hints.specs.Rows.{hint_in};
ghost use Rattle.iso_hints.specs.Tables.{operators};

use crate::pattern::Pattern::Token;
use crate::place::Place;
use crate::row::hint_in;
use crate::table::Row;

const ROWS: &[Row] = &[
    (Token, "", "'", "a text stands in double quotes"),
    (Token, "", "`", "a text stands in double quotes"),
    (
        Token,
        "",
        "&&",
        "there is no `&&`: write an `if` in an `if`, or two statements",
    ),
    (
        Token,
        "",
        "||",
        "there is no `||`: write `if a { .. } else { .. }`",
    ),
    (Token, "", "&", "there are no operators on bits"),
    (Token, "", "|", "there are no operators on bits"),
    (Token, "", "^", "there are no operators on bits"),
    (Token, "", "~", "there are no operators on bits"),
    (Token, "==", "=", "did you mean `==`?"),
    (Token, "!=", "=", "did you mean `!=`?"),
    (
        Token,
        "<",
        "=",
        "there is no `<=`: write `(b < a) == false`",
    ),
    (Token, "<", ">", "did you mean `!=`?"),
    (Token, "-", ">", "there are no functions of one's own"),
    (
        Token,
        "",
        "=>",
        "there is no `=>`: write `(a < b) == false`, or `=`",
    ),
    (
        Token,
        "",
        "=<",
        "there is no `=<`: write `(b < a) == false`",
    ),
    (Token, "=", ">", "there are no functions of one's own"),
    (
        Token,
        "",
        ">=",
        "there is no `>=`: write `(a < b) == false`",
    ),
    (Token, "", ">", "there is no `>`: write `b < a`"),
    (Token, "", "+=", "there is no `+=`: write `i = i + ..;`"),
    (Token, "", "-=", "there is no `-=`: write `i = i - ..;`"),
    (Token, "", "*=", "there is no `*=`: write `i = i * ..;`"),
];

/// What these rows tell of a place.
pub(crate) fn operators(place: &Place<'_>) -> Option<&'static str>
    ensures { option_map (λ told. told.now) result ≡ hint_in operators (view_of place.now) }
{
    hint_in(ROWS, place)
}
