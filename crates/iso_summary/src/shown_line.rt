//! Lines of scripts as they are shown.
ghost use Rattle.std.specs.Prelude.{◌≡◌, length, map, min, take};
ghost use Rattle.iso_summary.specs.ShownLines.{cut_end, shown_byte, shown_bytes, shown_source};
ghost use Rattle.iso_tap.specs.Printers.{Prints};

use iso_tap::printer::Printer;
use iso_tap::sink::{Sink, SinkFailed};

/// How many bytes of a line are shown at most.
const SHOWN: usize = 160;

/// Writes a line of a script: its first 160 bytes, each tab as a space and each other byte that
/// isn't printable ASCII as `?`.
pub(crate) fn source<W: Sink>(printer: &mut Printer<'_, W>, line: &[u8]) -> Result<(), SinkFailed>
    ensures { Prints printer.old printer.new (shown_source line.now) result }
{
    let shown = shown_bytes(line);
    printer.bytes(&shown[..line.len().min(SHOWN)])?;
    printer.bytes(cut_end(line))
}

/// The bytes of a line that are shown: its first 160.
pub fn shown_part(line: &[u8]) -> &[u8]
    ensures { result.now ≡ take 160 line.now }
{
    &line[..line.len().min(SHOWN)]
}

/// Writes bytes as they are shown, however many there are.
pub(crate) fn shown<W: Sink>(printer: &mut Printer<'_, W>, bytes: &[u8]) -> Result<(), SinkFailed>
    ensures { Prints printer.old printer.new (map shown_byte bytes.now) result }
{
    for byte in bytes {
        printer.bytes(&[shown_byte(*byte)])?;
    }
    Ok(())
}

/// The first bytes of a line as they are shown, and spaces behind them.
fn shown_bytes(line: &[u8]) -> [u8; SHOWN]
    ensures { take (min (length line.now) 160) result ≡ shown_bytes line.now }
{
    let mut shown = [b' '; SHOWN];
    let count = line.len().min(SHOWN);
    for i in 0..count {
        shown[i] = shown_byte(line[i]);
    }
    shown
}

/// A byte of a line as it is shown: a tab as a space, and each other one that isn't printable ASCII
/// as `?`.
pub fn shown_byte(byte: u8) -> u8
    ensures { result ≡ shown_byte byte }
{
    match byte {
        b'\t' => b' ',
        b' '..=b'~' => byte,
        _ => b'?',
    }
}

/// What stands in place of the bytes of a line that aren't shown: two dots, or nothing where it has
/// no more than 160.
pub fn cut_end(line: &[u8]) -> &'static [u8]
    ensures { result.now ≡ cut_end line.now }
{
    if line.len() > SHOWN { b".." } else { b"" }
}
