//! Where a failure stands.

use iso_model::text::Text;

/// Where what ended a node's block stands, or its own name where it is disabled.
#[derive(Clone, Copy)]
pub struct Located<'a> {
    /// The file as the words of the command have it, or `stdin`.
    pub file: &'a str,
    /// Whether the file was named: standard input wasn't.
    pub named: bool,
    /// From 1 on.
    pub line: u32,
    /// The bytes of this line, without its line end.
    pub source: &'a [u8],
    /// What mends it, a line each.
    pub hints: &'a [Text],
}
