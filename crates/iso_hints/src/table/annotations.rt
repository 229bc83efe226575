//! Annotations.
ghost use Rattle.std.specs.Prelude.{◌≡◌, option_map};
ghost use Rattle.iso_hints.specs.Places.{view_of};
ghost use Rattle.iso_hints.specs.Rows.{hint_in};
ghost use Rattle.iso_hints.specs.Tables.{annotations};

use crate::pattern::Pattern::Token;
use crate::place::Place;
use crate::row::hint_in;
use crate::table::Row;

const ROWS: &[Row] = &[
    (Token, "", "@Test", "write `test NAME { .. }`"),
    (Token, "", "@BeforeEach", "write `before_each { .. }`"),
    (Token, "", "@BeforeAll", "write `before_all { .. }`"),
    (Token, "", "@AfterEach", "write `after_each { .. }`"),
    (Token, "", "@AfterAll", "write `after_all { .. }`"),
    (Token, "", "@Before", "write `before_each { .. }`"),
    (Token, "", "@After", "write `after_each { .. }`"),
    (
        Token,
        "",
        "@Disabled",
        "write `disabled \"REASON\"` before `test` or `class`",
    ),
    (
        Token,
        "",
        "@Ignore",
        "write `disabled \"REASON\"` before `test` or `class`",
    ),
    (
        Token,
        "",
        "@Nested",
        "write `class NAME { .. }` in the class",
    ),
    (
        Token,
        "",
        "@DisplayName",
        "write the text behind the name: `test NAME \"TEXT\" { .. }`",
    ),
    (Token, "", "@Isolated", "write `isolated` before `class`"),
    (
        Token,
        "",
        "@Execution",
        "write `concurrent` or `same_thread` before `class` or `test`",
    ),
    (
        Token,
        "",
        "@ResourceLock",
        "write `read \"KEY\"` or `write \"KEY\"`: for properties `\"java.lang.System.properties\"`",
    ),
    (
        Token,
        "",
        "@RepeatedTest",
        "write `repeat N { .. }` in the test",
    ),
    (
        Token,
        "",
        "@",
        "there are no annotations: write marks before `class` or `test`",
    ),
];

/// What these rows tell of a place.
pub(crate) fn annotations(place: &Place<'_>) -> Option<&'static str>
    ensures { option_map (λ told. told.now) result ≡ hint_in annotations (view_of place.now) }
{
    hint_in(ROWS, place)
}
