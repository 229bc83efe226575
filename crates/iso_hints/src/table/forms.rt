//! How statements and heads are written.
ghost use Rattle.std.specs.Prelude.{◌≡◌, option_map};
ghost use Rattle.iso_hints.specs.Places.{view_of};
ghost use Rattle.iso_hints.specs.Rows.{hint_in};
ghost use Rattle.iso_hints.specs.Tables.{forms};

use crate::pattern::Pattern::Statement;
use crate::place::Place;
use crate::row::hint_in;
use crate::table::Row;

const ROWS: &[Row] = &[
    (Statement, "let", "", "write `let NAME = ..;`"),
    (Statement, "assert_equal", "", "write `assert_equal a, b;`"),
    (Statement, "assume", "", "write `assume a, \"REASON\";`"),
    (Statement, "set_prop", "", "write `set_prop a, b;`"),
    (Statement, "write_file", "", "write `write_file a, b;`"),
    (Statement, "append_file", "", "write `append_file a, b;`"),
    (
        Statement,
        "if",
        "",
        "write `if a { .. }` or `if a { .. } else { .. }`",
    ),
    (Statement, "else", "", "write `else { .. }`"),
    (Statement, "repeat", "", "write `repeat N { .. }`"),
    (Statement, "test", "", "write `test NAME { .. }`"),
    (Statement, "class", "", "write `class NAME { .. }`"),
];

/// What these rows tell of a place.
pub(crate) fn forms(place: &Place<'_>) -> Option<&'static str>
    ensures { option_map (λ told. told.now) result ≡ hint_in forms (view_of place.now) }
{
    hint_in(ROWS, place)
}
