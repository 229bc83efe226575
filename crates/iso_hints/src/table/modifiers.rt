//! Words of other languages before a member.
ghost use Rattle.std.specs.Prelude.{◌≡◌, option_map};
ghost use Rattle.iso_hints.specs.Places.{view_of};
ghost use Rattle.iso_hints.specs.Rows.{hint_in};
ghost use Rattle.iso_hints.specs.Tables.{modifiers};

use crate::pattern::Pattern::Token;
use crate::place::Place;
use crate::row::hint_in;
use crate::table::Row;

const ROWS: &[Row] = &[
    (Token, "", "import", "there are no imports: leave it out"),
    (
        Token,
        "",
        "package",
        "a script has one team, and no packages",
    ),
    (Token, "", "final", "leave `final` out"),
    (Token, "", "const", "write `static NAME = ..;`"),
    (
        Token,
        "",
        "protected",
        "everything is public: leave `protected` out",
    ),
    (Token, "", "pub", "everything is public: leave `pub` out"),
    (
        Token,
        "",
        "export",
        "everything is public: leave `export` out",
    ),
    (
        Token,
        "",
        "abstract",
        "a class extends no other: leave `abstract` out",
    ),
    (
        Token,
        "",
        "interface",
        "there are no interfaces: write `class NAME { .. }`",
    ),
    (
        Token,
        "",
        "static class",
        "leave `static` out: write `class NAME { .. }`",
    ),
    (
        Token,
        "",
        "before",
        "did you mean `before_each` or `before_all`?",
    ),
    (
        Token,
        "",
        "after",
        "did you mean `after_each` or `after_all`?",
    ),
    (
        Token,
        "",
        "setup",
        "did you mean `before_each` or `before_all`?",
    ),
    (
        Token,
        "",
        "teardown",
        "did you mean `after_each` or `after_all`?",
    ),
    (
        Token,
        "",
        "ignore",
        "write `disabled \"REASON\"` before `test` or `class`",
    ),
];

/// What these rows tell of a place.
pub(crate) fn modifiers(place: &Place<'_>) -> Option<&'static str>
    ensures { option_map (λ told. told.now) result ≡ hint_in modifiers (view_of place.now) }
{
    hint_in(ROWS, place)
}
