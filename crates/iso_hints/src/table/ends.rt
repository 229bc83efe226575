//! Ends of statements, and names.
ghost use Rattle.std.specs.Prelude.{◌≡◌, option_map};
ghost use Rattle.iso_hints.specs.Places.{view_of};
ghost use Rattle.iso_hints.specs.Rows.{hint_in};
ghost use Rattle.iso_hints.specs.Tables.{ends};

use crate::pattern::Pattern::{Operator, Reserved, Statement, Token};
use crate::place::Place;
use crate::row::hint_in;
use crate::table::Row;

const ROWS: &[Row] = &[
    (
        Statement,
        "assume",
        ";",
        "`assume` says why: write `assume a, \"REASON\";`",
    ),
    (
        Token,
        ";",
        ";",
        "one `;` ends a statement: leave this one out",
    ),
    (Token, "}", ";", "no `;` stands behind a body"),
    (
        Token,
        ";",
        "{",
        "a body stands behind `if`, `else`, `repeat`, or the name of a test or block",
    ),
    (
        Token,
        "{",
        "{",
        "a body stands behind `if`, `else`, `repeat`, or the name of a test or block",
    ),
    (Token, "}", "}", "nothing is open here that could be closed"),
    (
        Operator,
        "",
        "",
        "an expression has one operator: write `a + (b * c)`",
    ),
    (
        Token,
        "++",
        ";",
        "`++` joins two texts: one more is `i + 1`",
    ),
    (
        Token,
        "static",
        "class",
        "leave `static` out: write `class NAME { .. }`",
    ),
    (
        Token,
        "static void",
        "",
        "there are no methods: write `test NAME { .. }`",
    ),
    (Token, "static final", "", "leave `final` out"),
    (Token, "field final", "", "leave `final` out"),
    (Token, "static const", "", "leave `const` out"),
    (Token, "field const", "", "leave `const` out"),
    (
        Token,
        "final",
        "",
        "leave `final` out: write `let NAME = ..;`",
    ),
    (Token, "const", "", "write `let NAME = ..;`"),
    (
        Reserved,
        "class",
        "",
        "a name stands here, and this word is reserved: choose another one",
    ),
    (
        Reserved,
        "test",
        "",
        "a name stands here, and this word is reserved: choose another one",
    ),
    (
        Reserved,
        "static",
        "",
        "a name stands here, and this word is reserved: choose another one",
    ),
    (
        Reserved,
        "field",
        "",
        "a name stands here, and this word is reserved: choose another one",
    ),
    (
        Reserved,
        "let",
        "",
        "a name stands here, and this word is reserved: choose another one",
    ),
];

/// What these rows tell of a place.
pub(crate) fn ends(place: &Place<'_>) -> Option<&'static str>
    ensures { option_map (λ told. told.now) result ≡ hint_in ends (view_of place.now) }
{
    hint_in(ROWS, place)
}
