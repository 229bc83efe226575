//! Texts as they stand in XML.
ghost use Rattle.std.specs.Prelude.{◌≡◌};
ghost use Rattle.iso_junit.specs.Escapes.{escaped, escaped_byte, is_special, numbered, plain_len};
ghost use Rattle.iso_tap.specs.Printers.{Prints};

use iso_tap::printer::{Piece, Printer};
use iso_tap::sink::{Sink, SinkFailed};

/// Writes a text as it stands in an attribute or in an element. What stands between special bytes
/// goes to the sink in one call.
pub fn escaped<W: Sink>(printer: &mut Printer<'_, W>, text: &[u8]) -> Result<(), SinkFailed>
    ensures { Prints printer.old printer.new (escaped text.now) result }
{
    let mut rest = text;
    let mut plain = plain_len(rest);
    while plain < rest.len() {
        let (run, special) = rest.split_at(plain);
        printer.bytes(run)?;
        escaped_byte(printer, special[0])?;
        rest = &special[1..];
        plain = plain_len(rest);
    }
    printer.bytes(rest)
}

/// How many bytes stand before the first that doesn't stand there as it is.
fn plain_len(text: &[u8]) -> usize
    ensures { result ≡ plain_len text.now }
{
    let mut len = 0;
    for byte in text {
        if is_special(*byte) {
            return len;
        }
        len += 1;
    }
    len
}

/// Whether a byte doesn't stand there as it is.
fn is_special(byte: u8) -> bool
    ensures { result ≡ is_special byte }
{
    matches!(byte, b'<' | b'>' | b'&' | b'"') || byte.is_ascii_control()
}

/// Writes a byte as it stands there.
fn escaped_byte<W: Sink>(printer: &mut Printer<'_, W>, byte: u8) -> Result<(), SinkFailed>
    ensures { Prints printer.old printer.new (escaped_byte byte) result }
{
    match byte {
        b'<' => printer.bytes(b"&lt;"),
        b'>' => printer.bytes(b"&gt;"),
        b'&' => printer.bytes(b"&amp;"),
        b'"' => printer.bytes(b"&quot;"),
        _ if byte.is_ascii_control() => numbered(printer, byte),
        _ => printer.bytes(&[byte]),
    }
}

/// Writes a byte by its number.
fn numbered<W: Sink>(printer: &mut Printer<'_, W>, byte: u8) -> Result<(), SinkFailed>
    ensures { Prints printer.old printer.new (numbered byte) result }
{
    printer.pieces(&[
        Piece::Plain(b"&#"),
        Piece::Number(u64::from(byte)),
        Piece::Plain(b";"),
    ])
}
