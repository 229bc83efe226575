//! Words that steer.
ghost use Rattle.std.specs.Prelude.{◌≡◌, option_map};
ghost use Rattle.iso_hints.specs.Places.{view_of};
ghost use Rattle.iso_hints.specs.Rows.{hint_in};
ghost use Rattle.iso_hints.specs.Tables.{control};

use crate::pattern::Pattern::{Statement, Token};
use crate::place::Place;
use crate::row::hint_in;
use crate::table::Row;

const ROWS: &[Row] = &[
    (Token, "if", "{", "write `if a { .. }`"),
    (Token, "repeat", "{", "write `repeat N { .. }`"),
    (Token, "else", "if", "write `else { if a { .. } }`"),
    (Token, "elif", "", "write `else { if a { .. } }`"),
    (
        Token,
        "for",
        "",
        "there is no `for`: write `repeat N { .. }`",
    ),
    (
        Token,
        "while",
        "",
        "there is no `while`: write `repeat N { .. }`",
    ),
    (
        Token,
        "loop",
        "",
        "there is no `loop`: write `repeat N { .. }`",
    ),
    (Token, "do", "", "there is no `do`: write `repeat N { .. }`"),
    (Statement, "repeat", "times", "write `repeat N { .. }`"),
    (
        Token,
        "switch",
        "",
        "there is no `switch`: write `if a { .. } else { .. }`",
    ),
    (
        Token,
        "when",
        "",
        "there is no `when`: write `if a { .. } else { .. }`",
    ),
    (
        Token,
        "match",
        "",
        "there is no `match`: write `if a { .. } else { .. }`",
    ),
    (
        Token,
        "return",
        "",
        "there is no `return`: a block ends at its last statement",
    ),
    (
        Token,
        "break",
        "",
        "there is no `break`: write `if` in the `repeat`",
    ),
    (
        Token,
        "continue",
        "",
        "there is no `continue`: write `if` in the `repeat`",
    ),
    (Token, "throw", "", "write `fail \"TEXT\";`"),
    (Token, "raise", "", "write `fail \"TEXT\";`"),
    (Token, "panic", "", "write `fail \"TEXT\";`"),
    (Token, "new", "", "there are no objects"),
    (
        Token,
        "f",
        "\"",
        "names don't stand in texts: join texts by `++`",
    ),
    (
        Token,
        "try",
        "",
        "there is no `try`: a block ends at its first fault",
    ),
    (
        Token,
        "var",
        "",
        "there are no types: write `let NAME = ..;`",
    ),
    (
        Token,
        "val",
        "",
        "there are no types: write `let NAME = ..;`",
    ),
    (
        Token,
        "int",
        "",
        "there are no types: write `let NAME = ..;`",
    ),
    (
        Token,
        "String",
        "",
        "there are no types: write `let NAME = ..;`",
    ),
    (
        Token,
        "boolean",
        "",
        "there are no types: write `let NAME = ..;`",
    ),
    (
        Token,
        "bool",
        "",
        "there are no types: write `let NAME = ..;`",
    ),
    (
        Token,
        "long",
        "",
        "there are no types: write `let NAME = ..;`",
    ),
    (
        Token,
        "double",
        "",
        "there are no types: write `let NAME = ..;`",
    ),
    (
        Token,
        "mut",
        "",
        "every name can be given another value: leave `mut` out",
    ),
];

/// What these rows tell of a place.
pub(crate) fn control(place: &Place<'_>) -> Option<&'static str>
    ensures { option_map (λ told. told.now) result ≡ hint_in control (view_of place.now) }
{
    hint_in(ROWS, place)
}
