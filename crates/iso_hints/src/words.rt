//! Words of the script language.

/// The reserved words.
pub(crate) const RESERVED: &[&str] = &[
    "team",
    "class",
    "test",
    "same_thread",
    "concurrent",
    "isolated",
    "read",
    "write",
    "static",
    "field",
    "before_all",
    "after_all",
    "before_each",
    "after_each",
    "let",
    "print",
    "assert",
    "assert_equal",
    "assume",
    "fail",
    "if",
    "else",
    "repeat",
    "set_prop",
    "clear_prop",
    "set_locale",
    "write_file",
    "append_file",
    "delete_file",
    "true",
    "false",
    "text",
    "len",
    "prop",
    "has_prop",
    "locale",
    "file",
    "has_file",
    "children",
    "disabled",
];

/// The operators, the longer ones first.
pub(crate) const OPERATORS: &[&str] = &["++", "==", "!=", "+", "-", "*", "<"];

/// The words before what takes a literal alone.
pub(crate) const LITERALS: &[&str] = &["static", "field"];
