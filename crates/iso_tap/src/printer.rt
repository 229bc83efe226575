//! A printer, which writes texts to a sink one after another.
ghost use Rattle.std.specs.Prelude.{◌≡◌, ◌≤◌, replicate};
ghost use Rattle.std.specs.Fmt.{decimal};
ghost use Rattle.iso_tap.specs.ReportLines.{line_at};

use crate::sink::{Sink, SinkFailed};
use iso_model::place::Place;
use itoa::Buffer;

/// Spaces for one call: a printed line in a test in eight classes stands behind 36.
pub(crate) const SPACES: [u8; 64] = [b' '; 64];

/// A piece of a line.
#[derive(Clone, Copy)]
pub enum Piece<'a> {
    Plain(&'a [u8]),
    /// A number in decimal.
    Number(u64),
    /// A text as it stands in a title or a reason.
    Escaped(&'a str),
    /// The bytes of a text, as it stands between quotes.
    InQuotes(&'a [u8]),
    /// A place as it stands between quotes: it has nothing to escape.
    At(Place),
}

/// Writes texts to a sink, one after another, and counts the bytes that it wrote.
/// Once the sink has failed, it is only dropped.
#[derive(Drop)]
pub struct Printer<'a, W: Sink> {
    sink: &'a mut W,
    written: u64,
    ghost countable: { written ≤ (W.account sink.now).count },
}

impl<'a, W: Sink> Printer<'a, W> {
    ghost use Rattle.iso_tap.specs.Pieces.{piece_text, pieces_text};
    ghost use Rattle.iso_tap.specs.Printers.{Prints};

    /// A printer to this sink, which wrote nothing.
    pub fn new(sink: &'a mut W) -> Printer<'a, W>
        ensures sink { result.sink.ghost_name ≡ sink.entry.ghost_name }
        ensures now { result.sink.now ≡ sink.old }
        ensures written { result.written ≡ 0 }
    {
        Printer { sink, written: 0 }
    }

    /// A printer to this sink that counts on from these bytes.
    pub(crate) fn counting_from(sink: &'a mut W, written: u64) -> Printer<'a, W>
        requires { written ≤ (W.account sink.old).count }
        ensures sink { result.sink.ghost_name ≡ sink.entry.ghost_name }
        ensures now { result.sink.now ≡ sink.old }
        ensures written { result.written ≡ written }
    {
        Printer { sink, written }
    }

    /// How many bytes it wrote.
    pub fn written(&self) -> u64
        ensures { result ≡ self.now.written }
    {
        self.written
    }

    /// Writes bytes, as often as the sink takes only some of them.
    pub fn bytes(&mut self, bytes: &[u8]) -> Result<(), SinkFailed>
        ensures { Prints self.old self.new bytes.now result }
    {
        let mut rest = bytes;
        while !rest.is_empty() {
            let taken = self.sink.write(rest)?;
            if taken == 0 {
                return Err(SinkFailed);
            }
            self.written += taken as u64;
            rest = &rest[taken..];
        }
        Ok(())
    }

    /// Writes `count` spaces.
    fn spaces(&mut self, count: u64) -> Result<(), SinkFailed>
        ensures { Prints self.old self.new (replicate count 32) result }
    {
        let mut left = count;
        while left > 0 {
            let run = left.min(SPACES.len() as u64);
            self.bytes(&SPACES[..run as usize])?;
            left -= run;
        }
        Ok(())
    }

    /// Writes a number in decimal.
    pub fn number(&mut self, number: u64) -> Result<(), SinkFailed>
        ensures { Prints self.old self.new (decimal number) result }
    {
        let mut buffer = Buffer::new();
        self.bytes(buffer.format(number).as_bytes())
    }

    /// Writes a piece.
    pub fn piece(&mut self, piece: &Piece<'_>) -> Result<(), SinkFailed>
        ensures { Prints self.old self.new (piece_text piece.now) result }
    {
        match *piece {
            Piece::Plain(bytes) => self.bytes(bytes),
            Piece::Number(number) => self.number(number),
            Piece::Escaped(text) => self.escaped(b'#', text.as_bytes()),
            Piece::InQuotes(text) => self.escaped(b'"', text),
            Piece::At(place) => self.at(place),
        }
    }

    /// Writes pieces, one after another.
    pub fn pieces(&mut self, pieces: &[Piece<'_>]) -> Result<(), SinkFailed>
        ensures { Prints self.old self.new (pieces_text pieces.now) result }
    {
        for piece in pieces {
            self.piece(piece)?;
        }
        Ok(())
    }
    /// Writes pieces as a line at an indentation.
    pub fn line(&mut self, indent: u64, pieces: &[Piece<'_>]) -> Result<(), SinkFailed>
        ensures { Prints self.old self.new (line_at indent (pieces_text pieces.now)) result }
    {
        self.spaces(indent)?;
        self.pieces(pieces)?;
        self.bytes(b"\n")
    }
}
