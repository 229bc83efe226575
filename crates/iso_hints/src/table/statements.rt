//! Names that stand for a statement.
ghost use Rattle.std.specs.Prelude.{◌≡◌, option_map};
ghost use Rattle.iso_hints.specs.Places.{view_of};
ghost use Rattle.iso_hints.specs.Rows.{hint_in};
ghost use Rattle.iso_hints.specs.Tables.{statements};

use crate::pattern::Pattern::Token;
use crate::place::Place;
use crate::row::hint_in;
use crate::table::Row;

const ROWS: &[Row] = &[
    (Token, "get_prop", "", "write `prop(..)` in an expression"),
    (Token, "getProp", "", "write `prop(..)` in an expression"),
    (Token, "unset_prop", "", "write `clear_prop a;`"),
    (Token, "remove_prop", "", "write `clear_prop a;`"),
    (Token, "delete", "", "write `delete_file a;`"),
    (Token, "remove_file", "", "write `delete_file a;`"),
    (Token, "read_file", "", "write `file(..)` in an expression"),
    (Token, "readFile", "", "write `file(..)` in an expression"),
    (Token, "assert_not_equal", "", "write `assert a != b;`"),
    (Token, "assertNotSame", "", "write `assert a != b;`"),
    (
        Token,
        "assertSame",
        "",
        "write `assert_equal a, b;` without parentheses",
    ),
    (
        Token,
        "assertThrows",
        "",
        "no fault is caught: assert what can be seen, such as `has_file(..) == false`",
    ),
    (
        Token,
        "assertDoesNotThrow",
        "",
        "leave it out: a test ends at its first fault",
    ),
    (
        Token,
        "assertNull",
        "",
        "there is no `null`: write `assert has_prop(..);` or `assert has_file(..);`",
    ),
    (
        Token,
        "assertNotNull",
        "",
        "there is no `null`: write `assert has_prop(..);` or `assert has_file(..);`",
    ),
    (Token, "assertAll", "", "write one `assert` after another"),
    (
        Token,
        "expect",
        "",
        "write `assert a;` or `assert_equal a, b;`",
    ),
    (Token, "sleep", "", "there is no `sleep`: leave it out"),
    (Token, "pass", "", "there is no `pass`: a body may be empty"),
    (Token, "elseif", "", "write `else { if a { .. } }`"),
    (Token, "elsif", "", "write `else { if a { .. } }`"),
    (
        Token,
        "unless",
        "",
        "there is no `unless`: write `if a == false { .. }`",
    ),
    (Token, "echo", "", "did you mean `print`?"),
    (Token, "puts", "", "did you mean `print`?"),
];

/// What these rows tell of a place.
pub(crate) fn statements(place: &Place<'_>) -> Option<&'static str>
    ensures { option_map (λ told. told.now) result ≡ hint_in statements (view_of place.now) }
{
    hint_in(ROWS, place)
}
