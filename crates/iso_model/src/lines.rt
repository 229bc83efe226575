//! The lines that a body prints, in one buffer.
ghost use Rattle.std.specs.Prelude.{◌≡◌, ◌∷◌, ◌++◌, [], ◌==◌, ◌+◌, ◌≤◌, length, vec_capacity, vec_len, OnOk, OnErr, MatchOption};
ghost use Rattle.iso_model.specs.Lines.{IsEnded};

use std::alloc::{AllocError, Global};
use std::marker::Model;

/// Stands after each line. No text has it, since UTF-8 never does.
const LINE_END: u8 = 0xFF;

/// Lines of text, as a body prints them, without their line ends. A line may have line feeds in it.
/// They take a byte for each of their bytes, and one for each line.
pub struct Lines {
    bytes: Vec<u8>,
}

impl Drop for Lines {
    fn drop(self) {
        let Lines { bytes: _ } = self;
    }
}

impl Model for Lines {
    ghost use Rattle.std.specs.Prelude.{List, ℕ};

    ghost Value = { List (List ℕ) };

    ghost use Rattle.iso_model.specs.Lines.{IsEnded, lines_of};

    ghost view = { λ l. lines_of l.bytes.items };

    ghost invariant = { λ l. IsEnded l.bytes.items };
}

impl Lines {
    ghost use Rattle.iso_model.specs.LinesView.{lines_in};

    /// No lines, without taking memory.
    pub fn new(alloc: Global) -> Lines
        ensures { result ≡ [] }
    {
        Lines {
            bytes: Vec::new(alloc),
        }
    }

    /// Adds a line. Where there is no memory for it, the lines stay as they were.
    pub fn push(&mut self, line: &str) -> Result<(), AllocError>
        ensures ok { OnOk result (self.new ≡ self.old ++ line.now ∷ []) }
        ensures err { OnErr result (self.new ≡ self.old) }
    {
        make_room(&mut self.bytes, line.len() + 1)?;
        self.bytes.extend_from_slice(line.as_bytes())?;
        self.bytes.push(LINE_END)?;
        Ok(())
    }

    /// Adds lines after these. Where there is no memory for them, these stay as they were.
    pub fn append(&mut self, more: Lines) -> Result<(), AllocError>
        ensures ok { OnOk result (self.new ≡ self.old ++ more) }
        ensures err { OnErr result (self.new ≡ self.old) }
    {
        let Lines { bytes } = more;
        self.bytes.extend_from_slice(&bytes)
    }

    /// Gives back the memory that is kept for further lines.
    pub fn shrink_to_fit(&mut self)
        ensures { self.new ≡ self.old }
    {
        self.bytes.shrink_to_fit();
    }

    /// The lines in order.
    pub fn as_slice(&self) -> LineSlice<'_>
        ensures { lines_in result ≡ self.now }
    {
        LineSlice { bytes: &self.bytes }
    }
}

/// Makes room for `more` bytes. Most bodies print one line: it takes what it needs, and nothing is
/// given back later.
fn make_room(bytes: &mut Vec<u8>, more: usize) -> Result<(), AllocError>
    ensures items { bytes.new.items ≡ bytes.old.items }
    ensures len { vec_len bytes.new ≡ vec_len bytes.old }
    ensures room { OnOk result (vec_len bytes.new + more ≤ vec_capacity bytes.new) }
{
    if bytes.is_empty() {
        return bytes.reserve_exact(more);
    }
    bytes.reserve(more)
}

/// Lines, lent: all of some, or those that are left of them.
#[derive(Clone, Copy)]
pub struct LineSlice<'a> {
    bytes: &'a [u8],
    ghost ended: { IsEnded bytes.now },
}

impl<'a> LineSlice<'a> {
    ghost use Rattle.iso_model.specs.LinesView.{lines_in};

    /// No lines.
    pub fn empty() -> LineSlice<'a>
        ensures { lines_in result ≡ [] }
    {
        LineSlice { bytes: &[] }
    }

    /// Whether there is no line.
    pub fn is_empty(self) -> bool
        ensures { result ≡ (length (lines_in self.entry) == 0) }
    {
        self.bytes.is_empty()
    }

    /// The bytes of the first line, which are a text, and the lines after it.
    pub fn split_first(self) -> Option<(&'a [u8], LineSlice<'a>)>
        ensures { MatchOption result (lines_in self.entry ≡ [])
            (λ p. lines_in self.entry ≡ p.0.now ∷ lines_in p.1) }
    {
        let end = self.bytes.iter().position(|byte| *byte == LINE_END)?;
        let (line, rest) = (&self.bytes[..end], &self.bytes[end + 1..]);
        Some((line, LineSlice { bytes: rest }))
    }
}
