//! A printer with a buffer, so that its sink is called seldom.
ghost use Rattle.std.specs.Prelude.{◌≡◌, ◌≤◌, ◌+◌, [], ◌++◌, OnErr, OnOk, codes, replicate};
ghost use Rattle.std.specs.Fmt.{decimal};
ghost use Rattle.iso_tap.specs.Escapes.{quoted_bytes, with_escapes};
ghost use Rattle.iso_tap.specs.Pieces.{pieces_text};
ghost use Rattle.iso_tap.specs.ReportLines.{line_at};
ghost use Rattle.iso_tap.specs.Sinks.{CutOff, Wrote};

use crate::escape::plain_len;
use crate::printer::{Piece, Printer, SPACES};
use crate::sink::{Sink, SinkFailed};
use arrayvec::ArrayVec;
use itoa::Buffer;

/// How many bytes a buffer holds: those of several lines of a report.
const ROOM: usize = 512;

/// A printer whose texts stand in a buffer until it is full or flushed. Once the sink has failed,
/// it is only dropped.
#[derive(Drop)]
pub struct BufferedPrinter<'a, W: Sink> {
    sink: &'a mut W,
    written: u64,
    held: ArrayVec<u8, ROOM>,
    ghost countable: { written ≤ (W.account sink.now).count },
}

impl<'a, W: Sink> BufferedPrinter<'a, W> {
    ghost use Rattle.iso_tap.specs.Buffers.{Buffers, printer_of};
    ghost use Rattle.iso_tap.specs.Printers.{Prints};

    /// A printer to this sink, which wrote nothing, with an empty buffer.
    pub fn new(sink: &'a mut W) -> BufferedPrinter<'a, W>
        ensures sink { result.sink.ghost_name ≡ sink.entry.ghost_name }
        ensures now { result.sink.now ≡ sink.old }
        ensures written { result.written ≡ 0 }
        ensures empty { result.held.items ≡ [] }
    {
        BufferedPrinter {
            sink,
            written: 0,
            held: ArrayVec::new(),
        }
    }

    /// How many bytes it wrote, without those that the buffer holds.
    pub(crate) fn written(&self) -> u64
        ensures { result ≡ self.now.written }
    {
        self.written
    }

    /// Writes what the buffer holds.
    pub fn flush(&mut self) -> Result<(), SinkFailed>
        ensures prints { Prints (printer_of self.old) (printer_of self.new)
            self.old.held.items result }
        ensures empty { OnOk result (self.new.held.items ≡ []) }
    {
        let (result, written) = bytes_to(self.sink, self.written, self.held.as_slice());
        self.written = written;
        result?;
        self.held = ArrayVec::new();
        Ok(())
    }

    /// Adds bytes.
    #[inline(always)]
    pub fn bytes(&mut self, bytes: &[u8]) -> Result<(), SinkFailed>
        ensures { Buffers self.old self.new bytes.now result }
    {
        match self.held.try_extend_from_slice(bytes) {
            Ok(()) => Ok(()),
            Err(_) => self.bytes_without_room(bytes),
        }
    }

    /// Adds bytes for which there is no room.
    #[cold]
    #[inline(never)]
    fn bytes_without_room(&mut self, bytes: &[u8]) -> Result<(), SinkFailed>
        ensures { Buffers self.old self.new bytes.now result }
    {
        self.flush()?;
        match self.held.try_extend_from_slice(bytes) {
            Ok(()) => Ok(()),
            Err(_) => {
                let (result, written) = bytes_to(self.sink, self.written, bytes);
                self.written = written;
                result
            }
        }
    }

    /// Adds `count` spaces.
    pub(crate) fn spaces(&mut self, count: u64) -> Result<(), SinkFailed>
        ensures { Buffers self.old self.new (replicate count 32) result }
    {
        let mut left = count;
        while left > 0 {
            let run = left.min(SPACES.len() as u64);
            self.bytes(&SPACES[..run as usize])?;
            left -= run;
        }
        Ok(())
    }

    /// Adds a number in decimal.
    pub(crate) fn number(&mut self, number: u64) -> Result<(), SinkFailed>
        ensures { Buffers self.old self.new (decimal number) result }
    {
        let mut buffer = Buffer::new();
        self.bytes(buffer.format(number).as_bytes())
    }

    /// Adds a text with a backslash before each backslash and each of this other byte.
    pub(crate) fn escaped(&mut self, other: u8, text: &[u8]) -> Result<(), SinkFailed>
        ensures { Buffers self.old self.new (with_escapes other text.now) result }
    {
        let mut rest = text;
        let mut plain = plain_len(other, rest);
        while plain < rest.len() {
            let (run, special) = rest.split_at(plain);
            self.bytes(run)?;
            self.bytes(&[b'\\', special[0]])?;
            rest = &special[1..];
            plain = plain_len(other, rest);
        }
        self.bytes(rest)
    }

    /// Adds a text as a line at an indentation.
    #[inline]
    pub(crate) fn text_line(&mut self, indent: u64, text: &[u8]) -> Result<(), SinkFailed>
        ensures { Buffers self.old self.new (line_at indent text.now) result }
    {
        self.spaces(indent)?;
        self.bytes(text)?;
        self.bytes(b"\n")
    }

    /// Adds a line at an indentation that ends with a text in quotes, whose first quote is the last
    /// byte of what stands before it.
    #[inline]
    pub(crate) fn quoted_line(
        &mut self,
        indent: u64,
        before: &[u8],
        text: &[u8],
    ) -> Result<(), SinkFailed>
        ensures { Buffers self.old self.new
            (line_at indent (before.now ++ quoted_bytes text.now ++ codes "\"")) result }
    {
        self.spaces(indent)?;
        self.bytes(before)?;
        self.escaped(b'"', text)?;
        self.bytes(b"\"\n")
    }

    /// Writes pieces as a line at an indentation, beside the buffer: for lines that are seldom.
    pub(crate) fn line(&mut self, indent: u64, pieces: &[Piece<'_>]) -> Result<(), SinkFailed>
        ensures { Buffers self.old self.new (line_at indent (pieces_text pieces.now)) result }
    {
        self.flush()?;
        let (result, written) = line_to(self.sink, self.written, indent, pieces);
        self.written = written;
        result
    }
}

/// Writes bytes to a sink that took `written` before, and tells how many it took with them.
fn bytes_to<W: Sink>(sink: &mut W, written: u64, bytes: &[u8]) -> (Result<(), SinkFailed>, u64)
    requires { written ≤ (W.account sink.old).count }
    ensures wrote { OnOk result.0 (Wrote (W.account sink.old) (W.account sink.new) bytes.now) }
    ensures cut { OnErr result.0 (CutOff (W.account sink.old) (W.account sink.new) bytes.now) }
    ensures counted { result.1 + (W.account sink.old).count
        ≡ written + (W.account sink.new).count }
{
    let mut printer = Printer::counting_from(sink, written);
    let result = printer.bytes(bytes);
    (result, printer.written())
}

/// Writes a line to a sink that took `written` bytes before, and tells how many it took then.
fn line_to<W: Sink>(
    sink: &mut W,
    written: u64,
    indent: u64,
    pieces: &[Piece<'_>],
) -> (Result<(), SinkFailed>, u64)
    requires { written ≤ (W.account sink.old).count }
    ensures wrote { OnOk result.0 (Wrote (W.account sink.old) (W.account sink.new)
        (line_at indent (pieces_text pieces.now))) }
    ensures cut { OnErr result.0 (CutOff (W.account sink.old) (W.account sink.new)
        (line_at indent (pieces_text pieces.now))) }
    ensures counted { result.1 + (W.account sink.old).count
        ≡ written + (W.account sink.new).count }
{
    let mut printer = Printer::counting_from(sink, written);
    let result = printer.line(indent, pieces);
    (result, printer.written())
}
