//! Methods of other languages.
ghost use Rattle.std.specs.Prelude.{◌≡◌, option_map};
ghost use Rattle.iso_hints.specs.Places.{view_of};
ghost use Rattle.iso_hints.specs.Rows.{hint_in};
ghost use Rattle.iso_hints.specs.Tables.{methods};

use crate::pattern::Pattern::Token;
use crate::place::Place;
use crate::row::hint_in;
use crate::table::Row;

const ROWS: &[Row] = &[
    (Token, "System", ".out", "did you mean `print`?"),
    (Token, "System", ".setProperty", "write `set_prop a, b;`"),
    (Token, "System", ".getProperty", "write `prop(..)`"),
    (Token, "System", ".clearProperty", "write `clear_prop a;`"),
    (Token, "Locale", ".setDefault", "write `set_locale a;`"),
    (Token, "Locale", ".getDefault", "write `locale()`"),
    (
        Token,
        "Files",
        ".",
        "write `file(..)`, `has_file(..)`, `write_file a, b;` or `delete_file a;`",
    ),
    (
        Token,
        "Assertions",
        ".",
        "write `assert a;` or `assert_equal a, b;`",
    ),
    (Token, "console", ".", "did you mean `print`?"),
    (
        Token,
        "this",
        ".",
        "leave `this.` out: write the name alone",
    ),
    (
        Token,
        "self",
        ".",
        "leave `self.` out: write the name alone",
    ),
    (Token, "", ".length", "write `len(..)`"),
    (Token, "", ".size", "write `len(..)`"),
    (Token, "", ".equals", "write `a == b`"),
    (Token, "", ".isEmpty", "write `len(..) == 0`"),
];

/// What these rows tell of a place.
pub(crate) fn methods(place: &Place<'_>) -> Option<&'static str>
    ensures { option_map (λ told. told.now) result ≡ hint_in methods (view_of place.now) }
{
    hint_in(ROWS, place)
}
