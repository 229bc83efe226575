//! Members of classes.
ghost use Rattle.std.specs.Prelude.{◌≡◌, option_map};
ghost use Rattle.iso_hints.specs.Places.{view_of};
ghost use Rattle.iso_hints.specs.Rows.{hint_in};
ghost use Rattle.iso_hints.specs.Tables.{members};

use crate::pattern::Pattern::Token;
use crate::place::Place;
use crate::row::hint_in;
use crate::table::Row;

const ROWS: &[Row] = &[
    (Token, "", "beforeEach", "did you mean `before_each`?"),
    (Token, "", "beforeAll", "did you mean `before_all`?"),
    (Token, "", "afterEach", "did you mean `after_each`?"),
    (Token, "", "afterAll", "did you mean `after_all`?"),
    (Token, "", "setUp", "did you mean `before_each`?"),
    (Token, "", "tearDown", "did you mean `after_each`?"),
    (
        Token,
        "",
        "void",
        "there are no methods: write `test NAME { .. }`",
    ),
    (
        Token,
        "",
        "fun",
        "there are no methods: write `test NAME { .. }`",
    ),
    (
        Token,
        "",
        "fn",
        "there are no methods: write `test NAME { .. }`",
    ),
    (
        Token,
        "",
        "def",
        "there are no methods: write `test NAME { .. }`",
    ),
    (
        Token,
        "",
        "public",
        "everything is public: leave `public` out",
    ),
    (
        Token,
        "",
        "private",
        "everything is public: leave `private` out",
    ),
    (
        Token,
        "{",
        "let",
        "`let` stands in a body: write `static NAME = ..;` or `field NAME = ..;`",
    ),
    (
        Token,
        "}",
        "let",
        "`let` stands in a body: write `static NAME = ..;` or `field NAME = ..;`",
    ),
    (
        Token,
        ";",
        "let",
        "`let` stands in a body: write `static NAME = ..;` or `field NAME = ..;`",
    ),
    (
        Token,
        "",
        "int",
        "there are no types and no methods: write `static NAME = ..;` or `test NAME { .. }`",
    ),
    (
        Token,
        "",
        "String",
        "there are no types and no methods: write `static NAME = ..;` or `test NAME { .. }`",
    ),
    (
        Token,
        "",
        "boolean",
        "there are no types and no methods: write `static NAME = ..;` or `test NAME { .. }`",
    ),
    (
        Token,
        "",
        "bool",
        "there are no types and no methods: write `static NAME = ..;` or `test NAME { .. }`",
    ),
    (
        Token,
        "",
        "long",
        "there are no types and no methods: write `static NAME = ..;` or `test NAME { .. }`",
    ),
    (
        Token,
        "",
        "double",
        "there are no types and no methods: write `static NAME = ..;` or `test NAME { .. }`",
    ),
    (
        Token,
        "",
        "var",
        "there are no types: write `static NAME = ..;` or `field NAME = ..;`",
    ),
    (
        Token,
        "",
        "val",
        "there are no types: write `static NAME = ..;` or `field NAME = ..;`",
    ),
    (
        Token,
        "",
        "skip",
        "write `disabled \"REASON\"` before `test` or `class`",
    ),
    (
        Token,
        "",
        "parallel",
        "write `concurrent` before `test` or `class`",
    ),
];

/// What these rows tell of a place.
pub(crate) fn members(place: &Place<'_>) -> Option<&'static str>
    ensures { option_map (λ told. told.now) result ≡ hint_in members (view_of place.now) }
{
    hint_in(ROWS, place)
}
