ghost use Rattle.std.specs.Prelude.{◌≡◌, ◌+◌, ◌-◌, ◌^◌, ◌<◌, ◌≤◌, length};
ghost use Rattle.iso_script_lexer.specs.Positions.{first_line, line_after, position};

use crate::token::Position;
use iso_model::limits::FILE_BYTES;

/// The bytes that are left of a script, and the line that they begin on: its number, and its bytes
/// from its first on.
#[derive(Clone, Copy)]
pub(crate) struct Cursor<'a> {
    pub number: u32,
    pub line: &'a [u8],
    pub rest: &'a [u8],
    ghost room: { number + length line.now < 2 ^ 32 },
    ghost from_one: { 1 ≤ number },
    ghost on_line: { length rest.now ≤ length line.now },
}

impl<'a> Cursor<'a> {
    ghost use Rattle.iso_script_lexer.specs.Cursors.{line_of};

    /// At the first byte of a script.
    pub fn new(bytes: &'a [u8]) -> Cursor<'a>
        requires { length bytes.now ≤ FILE_BYTES }
        ensures line { line_of result ≡ first_line bytes.now }
        ensures rest { result.rest.now ≡ bytes.now }
    {
        Cursor {
            number: 1,
            line: bytes,
            rest: bytes,
        }
    }

    /// The position of the first byte that is left.
    pub fn position(self) -> Position
        ensures { result ≡ position (line_of self.entry) self.entry.rest.now }
    {
        Position {
            line: self.number,
            column: (self.line.len() - self.rest.len()) as u32 + 1,
        }
    }

    /// Further on in the same line, where this is what is left of the script.
    pub fn further(self, rest: &'a [u8]) -> Cursor<'a>
        requires { length rest.now ≤ length self.rest.now }
        ensures line { line_of result ≡ line_of self.entry }
        ensures rest { result.rest.now ≡ rest.now }
    {
        Cursor {
            number: self.number,
            line: self.line,
            rest,
        }
    }

    /// At the beginning of the next line, where this is what is left.
    pub fn next_line(self, rest: &'a [u8]) -> Cursor<'a>
        requires { length rest.now < length self.rest.now }
        ensures line { line_of result ≡ line_after (line_of self.entry) rest.now }
        ensures rest { result.rest.now ≡ rest.now }
    {
        Cursor {
            number: self.number + 1,
            line: rest,
            rest,
        }
    }
}
