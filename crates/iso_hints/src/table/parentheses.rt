//! Parentheses and commas.
ghost use Rattle.std.specs.Prelude.{◌≡◌, option_map};
ghost use Rattle.iso_hints.specs.Places.{view_of};
ghost use Rattle.iso_hints.specs.Rows.{hint_in};
ghost use Rattle.iso_hints.specs.Tables.{parentheses};

use crate::pattern::Pattern::{Statement, Token};
use crate::place::Place;
use crate::row::hint_in;
use crate::table::Row;

const ROWS: &[Row] = &[
    (
        Statement,
        "test",
        "(",
        "a test has no parentheses: write `test NAME { .. }`",
    ),
    (
        Statement,
        "class",
        "(",
        "a class has no parentheses: write `class NAME { .. }`",
    ),
    (
        Token,
        "before_each",
        "(",
        "a block has no parentheses: write `before_each { .. }`",
    ),
    (
        Token,
        "before_all",
        "(",
        "a block has no parentheses: write `before_all { .. }`",
    ),
    (
        Token,
        "after_each",
        "(",
        "a block has no parentheses: write `after_each { .. }`",
    ),
    (
        Token,
        "after_all",
        "(",
        "a block has no parentheses: write `after_all { .. }`",
    ),
    (
        Token,
        "read",
        "(",
        "`read` has no parentheses: write `read \"KEY\"`",
    ),
    (
        Token,
        "write",
        "(",
        "`write` has no parentheses: write `write \"KEY\"`",
    ),
    (
        Token,
        "disabled",
        "(",
        "`disabled` has no parentheses: write `disabled \"REASON\"`",
    ),
    (
        Statement,
        "concurrent",
        "(",
        "tests and classes have no parentheses",
    ),
    (
        Statement,
        "same_thread",
        "(",
        "tests and classes have no parentheses",
    ),
    (
        Statement,
        "isolated",
        "(",
        "tests and classes have no parentheses",
    ),
    (
        Statement,
        "disabled",
        "(",
        "tests and classes have no parentheses",
    ),
    (
        Statement,
        "read",
        "(",
        "tests and classes have no parentheses",
    ),
    (
        Statement,
        "write",
        "(",
        "tests and classes have no parentheses",
    ),
    (
        Statement,
        "assert_equal(",
        ",",
        "`assert_equal` has no parentheses: write `assert_equal a, b;`",
    ),
    (
        Statement,
        "assert_equal (",
        ",",
        "`assert_equal` has no parentheses: write `assert_equal a, b;`",
    ),
    (
        Statement,
        "assert_equal",
        ",",
        "`assert_equal` takes two expressions and no message",
    ),
    (
        Statement,
        "assert(",
        ",",
        "`assert` takes one expression and no message",
    ),
    (
        Statement,
        "assert",
        ",",
        "`assert` takes one expression and no message",
    ),
    (
        Statement,
        "assume(",
        ",",
        "`assume` has no parentheses: write `assume a, \"REASON\";`",
    ),
    (
        Statement,
        "set_prop(",
        ",",
        "`set_prop` has no parentheses: write `set_prop a, b;`",
    ),
    (
        Statement,
        "write_file(",
        ",",
        "`write_file` has no parentheses: write `write_file a, b;`",
    ),
    (
        Statement,
        "append_file(",
        ",",
        "`append_file` has no parentheses: write `append_file a, b;`",
    ),
    (
        Statement,
        "print",
        ",",
        "`print` takes one expression: join texts by `++`",
    ),
    (Statement, "let", ",", "a value has no comma"),
    (
        Token,
        "before_each",
        "",
        "a block has neither name nor parentheses: write `before_each { .. }`",
    ),
    (
        Token,
        "before_all",
        "",
        "a block has neither name nor parentheses: write `before_all { .. }`",
    ),
    (
        Token,
        "after_each",
        "",
        "a block has neither name nor parentheses: write `after_each { .. }`",
    ),
    (
        Token,
        "after_all",
        "",
        "a block has neither name nor parentheses: write `after_all { .. }`",
    ),
];

/// What these rows tell of a place.
pub(crate) fn parentheses(place: &Place<'_>) -> Option<&'static str>
    ensures { option_map (λ told. told.now) result ≡ hint_in parentheses (view_of place.now) }
{
    hint_in(ROWS, place)
}
