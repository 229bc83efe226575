//! Where a node stands.

/// Where a node stands.
#[derive(Clone, Copy)]
pub struct Placed<'a> {
    /// The file as the words of the command have it, or `stdin`.
    pub file: &'a str,
    /// The line of its name, from 1 on.
    pub line: u32,
    /// The line in this file of what ended it, or of its name where nothing did.
    pub ended: u32,
}
