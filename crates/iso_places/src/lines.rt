//! Lines of scripts.
ghost use Rattle.std.specs.Prelude.{◌≡◌, ◌≤◌, ◌-◌, IfOk, drop, length, take};
ghost use Rattle.std.specs.Str.Lines.{strip_carriage_return};
ghost use Rattle.iso_places.specs.LineStarts.{line_starts};
ghost use Rattle.iso_places.specs.SourceLines.{source_line};

use std::alloc::{AllocError, Global};
use std::marker::Model;

/// Where the lines of a script start, which contracts see as the list of these places.
pub struct LineTable {
    starts: Vec<u32>,
}

impl Drop for LineTable {
    fn drop(self) {
        let LineTable { starts: _ } = self;
    }
}

impl Model for LineTable {
    ghost use Rattle.std.specs.Prelude.{List, ℕ};

    ghost Value = { List ℕ };

    ghost view = { λ t. t.starts.items };
}

impl LineTable {
    /// The table of a script. A text beyond the numbers of 32 bits, which no script is, counts as
    /// out of memory.
    pub fn new(alloc: Global, bytes: &[u8]) -> Result<LineTable, AllocError>
        ensures { IfOk result (λ table. table ≡ line_starts bytes.now) }
    {
        if u32::try_from(bytes.len()).is_err() {
            return Err(AllocError);
        }
        let mut starts = Vec::new(alloc);
        starts.push(0)?;
        'bytes: for at in 0..bytes.len() {
            if bytes[at] == b'\n' {
                starts.push(at as u32 + 1)?;
            }
        }
        Ok(LineTable { starts })
    }

    /// The number of its last line, which is empty where the script ends in a line feed.
    pub fn last(&self) -> u64
        ensures { result ≡ length self.now }
    {
        self.starts.len() as u64
    }

    /// A line of the script of this table by its number, without its line end, LF or CR LF. Lines
    /// count from 1; one that isn't there is empty. Takes no memory, and no longer where the script
    /// or the line is longer.
    pub fn line<'a>(&self, bytes: &'a [u8], number: u64) -> &'a [u8]
        requires { self.now ≡ line_starts bytes.now }
        ensures { result.now ≡ source_line bytes.now number }
    {
        let number = number as usize;
        if number == 0 || number > self.starts.len() {
            return &bytes[..0];
        }
        let start = self.starts[number - 1] as usize;
        match self.starts.get(number) {
            Some(next) => without_return(part(bytes, start, *next as usize - 1)),
            None => part(bytes, start, bytes.len()),
        }
    }
}

/// The bytes of a text from one place to another.
fn part(text: &[u8], from: usize, to: usize) -> &[u8]
    requires order { from ≤ to }
    requires fits { to ≤ length text.now }
    ensures { result.now ≡ take (to - from) (drop from text.now) }
{
    &text[from..to]
}

/// A line without the CR at its end, if it has one.
fn without_return(line: &[u8]) -> &[u8]
    ensures { result.now ≡ strip_carriage_return line.now }
{
    line.strip_suffix(b"\r").unwrap_or(line)
}
