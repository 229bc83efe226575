//! The parts that texts are made of, and how they are written.
ghost use Rattle.std.specs.Prelude.{◌≡◌, OnOk, map};
ghost use Rattle.iso_explain_settings.specs.Parts.{joined, part_text, shown_text};
ghost use Rattle.iso_hints.specs.Pictures.{cut, shown_byte};
ghost use Rattle.iso_tap.specs.Printers.{Prints};
ghost use Rattle.iso_tap.specs.Sinks.{Wrote};

use iso_hints::picture::write_caret;
use iso_summary::name::name;
use iso_tap::memory::MemorySink;
use iso_tap::printer::{Piece, Printer};
use iso_tap::sink::{Sink, SinkFailed};
use std::alloc::AllocError;

/// A part of a text.
#[derive(Clone, Copy)]
pub(crate) enum Part<'a> {
    Plain(&'a str),
    /// A number in decimal.
    Number(u64),
    /// At most this number of bytes of a text, as they are shown.
    Shown(&'a str, usize),
    /// A file's name as it is shown.
    Name(&'a str),
    /// Pieces of a line.
    Pieces(&'a [Piece<'a>]),
    /// The picture of a line.
    Picture(Picture<'a>),
}

/// A line with its number, and below it carets from a column on, with a label.
#[derive(Clone, Copy)]
pub(crate) struct Picture<'a> {
    pub number: u32,
    pub line: &'a [u8],
    pub column: u32,
    /// How many carets there are.
    pub width: u32,
    pub label: &'a [u8],
}

/// Adds these parts to a text, or the beginning of what they are where memory runs out.
pub(crate) fn tell(text: &mut MemorySink, parts: &[Part<'_>]) -> Result<(), AllocError>
    ensures { OnOk result (Wrote text.old text.new (joined (map part_text parts.now))) }
{
    let mut printer = Printer::new(text);
    match write_parts(&mut printer, parts) {
        Ok(()) => Ok(()),
        Err(SinkFailed) => Err(AllocError),
    }
}

/// Writes parts, one after another.
pub(crate) fn write_parts<W: Sink>(
    printer: &mut Printer<'_, W>,
    parts: &[Part<'_>],
) -> Result<(), SinkFailed>
    ensures { Prints printer.old printer.new (joined (map part_text parts.now)) result }
{
    for part in parts {
        write_part(printer, part)?;
    }
    Ok(())
}

/// Writes a part.
fn write_part<W: Sink>(printer: &mut Printer<'_, W>, part: &Part<'_>) -> Result<(), SinkFailed>
    ensures { Prints printer.old printer.new (part_text part.now) result }
{
    match *part {
        Part::Plain(text) => printer.bytes(text.as_bytes()),
        Part::Number(number) => printer.number(number),
        Part::Shown(text, most) => shown(printer, text.as_bytes(), most),
        Part::Name(file) => name(printer, file),
        Part::Pieces(pieces) => printer.pieces(pieces),
        Part::Picture(picture) => draw(printer, &picture),
    }
}

/// Writes the picture of a line.
fn draw<W: Sink>(printer: &mut Printer<'_, W>, picture: &Picture<'_>) -> Result<(), SinkFailed>
    ensures { Prints printer.old printer.new (part_text (Part.Picture picture.now)) result }
{
    write_caret(
        printer,
        picture.number,
        picture.line,
        picture.column,
        picture.width,
        &[Piece::Plain(picture.label)],
    )
}

/// Writes at most `most` bytes as they are shown.
fn shown<W: Sink>(printer: &mut Printer<'_, W>, bytes: &[u8], most: usize) -> Result<(), SinkFailed>
    ensures { Prints printer.old printer.new (shown_text most bytes.now) result }
{
    each(printer, &bytes[..bytes.len().min(most)])?;
    printer.bytes(cut(most < bytes.len()))
}

/// Writes bytes, each as it is shown.
fn each<W: Sink>(printer: &mut Printer<'_, W>, bytes: &[u8]) -> Result<(), SinkFailed>
    ensures { Prints printer.old printer.new (map shown_byte bytes.now) result }
{
    for byte in bytes {
        printer.bytes(&[shown_byte(*byte)])?;
    }
    Ok(())
}

/// A byte as it is shown.
pub(crate) fn shown_byte(byte: u8) -> u8
    ensures { result ≡ shown_byte byte }
{
    match byte {
        b'\t' => b' ',
        b' '..=b'~' => byte,
        _ => b'?',
    }
}

/// What stands where bytes are left out.
fn cut(is_cut: bool) -> &'static [u8]
    ensures { result.now ≡ cut is_cut }
{
    if is_cut { b".." } else { b"" }
}
