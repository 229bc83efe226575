//! What stands where a script begins.
ghost use Rattle.std.specs.Prelude.{◌≡◌, option_map};
ghost use Rattle.iso_hints.specs.Places.{view_of};
ghost use Rattle.iso_hints.specs.Rows.{hint_in};
ghost use Rattle.iso_hints.specs.Tables.{beginnings};

use crate::pattern::Pattern::{Reserved, Start, Statement, Team, Token};
use crate::place::Place;
use crate::row::hint_in;
use crate::table::Row;

const ROWS: &[Row] = &[
    (
        Start,
        "",
        "\u{FEFF}",
        "the script begins with a byte order mark: save it without one",
    ),
    (
        Start,
        "",
        "package",
        "there are no packages: a script begins with `team NAME`",
    ),
    (
        Start,
        "",
        "import",
        "there are no imports: a script begins with `team NAME`",
    ),
    (
        Token,
        "",
        "#[",
        "there are no attributes such as `#[..]`: write marks before `class` or `test`",
    ),
    (Token, "", "#", "a comment begins with `//`"),
    (Token, "", "/*", "a comment begins with `//`"),
    (Start, "", "", "a script begins with `team NAME`"),
    (
        Token,
        "team",
        "\"",
        "the name of a team stands without quotes",
    ),
    (Team, "", ";", "no `;` stands behind the name of a team"),
    (
        Team,
        "",
        "{",
        "a team has no braces: its classes stand below `team NAME`",
    ),
    (
        Reserved,
        "team",
        "",
        "a name stands here, and this word is reserved: choose another one",
    ),
    (
        Statement,
        "team",
        "test",
        "a test stands in a class: `class NAME { test NAME { .. } }`",
    ),
    (
        Team,
        "",
        ".",
        "the name of a team has letters, digits and `_` alone",
    ),
    (
        Team,
        "",
        "-",
        "the name of a team has letters, digits and `_` alone",
    ),
];

/// What these rows tell of a place.
pub(crate) fn beginnings(place: &Place<'_>) -> Option<&'static str>
    ensures { option_map (λ told. told.now) result ≡ hint_in beginnings (view_of place.now) }
{
    hint_in(ROWS, place)
}
