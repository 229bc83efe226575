//! Heads, marks, statics and fields.
ghost use Rattle.std.specs.Prelude.{◌≡◌, option_map};
ghost use Rattle.iso_hints.specs.Places.{view_of};
ghost use Rattle.iso_hints.specs.Rows.{hint_in};
ghost use Rattle.iso_hints.specs.Tables.{heads};

use crate::pattern::Pattern::{Statement, Token};
use crate::place::Place;
use crate::row::hint_in;
use crate::table::Row;

const ROWS: &[Row] = &[
    (
        Token,
        "test",
        "\"",
        "a test has a name before its text: `test NAME \"TEXT\" { .. }`",
    ),
    (
        Token,
        "class",
        "\"",
        "a class has a name before its text: `class NAME \"TEXT\" { .. }`",
    ),
    (Token, "", "extends", "a class extends no other"),
    (
        Token,
        "",
        "implements",
        "a class implements nothing: leave it out",
    ),
    (Token, "", "throws", "leave `throws` out"),
    (
        Token,
        "isolated",
        "test",
        "`isolated` is a mark of classes: write it before `class`",
    ),
    (
        Statement,
        "read children",
        "test",
        "`read children` is a mark of classes: write it before `class`",
    ),
    (
        Statement,
        "write children",
        "test",
        "`write children` is a mark of classes: write it before `class`",
    ),
    (
        Token,
        "disabled",
        "test",
        "`disabled` says why: write `disabled \"REASON\"`",
    ),
    (
        Token,
        "disabled",
        "class",
        "`disabled` says why: write `disabled \"REASON\"`",
    ),
    (
        Token,
        "read",
        "SYSTEM_PROPERTIES",
        "the key of the properties is `\"java.lang.System.properties\"`",
    ),
    (
        Token,
        "write",
        "SYSTEM_PROPERTIES",
        "the key of the properties is `\"java.lang.System.properties\"`",
    ),
    (
        Token,
        "read",
        "-",
        "write `write \"KEY\"`, which is for reading too",
    ),
    (
        Token,
        "",
        "read_write",
        "write `write \"KEY\"`, which is for reading too",
    ),
    (
        Token,
        "",
        "READ_WRITE",
        "write `write \"KEY\"`, which is for reading too",
    ),
    (
        Token,
        "read",
        "file",
        "the key of a file is a text: write `read \"file:PATH\"`",
    ),
    (
        Token,
        "write",
        "file",
        "the key of a file is a text: write `write \"file:PATH\"`",
    ),
    (
        Token,
        "=",
        "null",
        "there is no `null`: write a text or a number",
    ),
    (
        Token,
        "=",
        "None",
        "there is no `None`: write a text or a number",
    ),
    (Token, "=", "True", "did you mean `true`?"),
    (Token, "=", "False", "did you mean `false`?"),
    (
        Statement,
        "static",
        "",
        "write `static NAME = ..;` with a number, a text, `true` or `false`",
    ),
    (
        Statement,
        "field",
        "",
        "write `field NAME = ..;` with a number, a text, `true` or `false`",
    ),
];

/// What these rows tell of a place.
pub(crate) fn heads(place: &Place<'_>) -> Option<&'static str>
    ensures { option_map (λ told. told.now) result ≡ hint_in heads (view_of place.now) }
{
    hint_in(ROWS, place)
}
