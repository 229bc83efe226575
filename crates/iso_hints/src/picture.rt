//! The picture of a line: the line with its number, below it carets at a column, and hints.
ghost use Rattle.std.specs.Prelude.{◌≡◌, ◌≤◌, drop, length, map, replicate};
ghost use Rattle.iso_hints.specs.Pictures.{caret_blanks, caret_count, caret_part, cut, first_shown, hint_line, label_text, margin, picture, place_of, picture_at, shown_byte, shown_rest, source_part};
ghost use Rattle.iso_tap.specs.Printers.{Prints};

use iso_tap::printer::{Piece, Printer};
use iso_tap::sink::{Sink, SinkFailed};

/// How many bytes of a line are shown at most.
const SHOWN: usize = 160;

/// How many of these stand before the column, where the line has more on both sides.
const SHOWN_BEFORE: usize = 80;

/// Writes a line with its number, and below it carets for `width` bytes from a column on, with a
/// label.
pub fn write_caret<W: Sink>(
    printer: &mut Printer<'_, W>,
    number: u32,
    line: &[u8],
    column: u32,
    width: u32,
    label: &[Piece<'_>],
) -> Result<(), SinkFailed>
    ensures { Prints printer.old printer.new
        (picture number line.now column width label.now) result }
{
    write_at(printer, number, line, place_of(line, column), width, label)
}

/// Writes a line with its number, and below it carets at a place.
fn write_at<W: Sink>(
    printer: &mut Printer<'_, W>,
    number: u32,
    line: &[u8],
    place: usize,
    width: u32,
    label: &[Piece<'_>],
) -> Result<(), SinkFailed>
    requires { place ≤ length line.now }
    ensures { Prints printer.old printer.new
        (picture_at number line.now place width label.now) result }
{
    printer.bytes(b" ")?;
    let before = printer.written();
    printer.number(u64::from(number))?;
    let digits = printer.written() - before;
    source_part(printer, first_shown(line, place), line)?;
    margin(printer, digits)?;
    caret_part(
        printer,
        caret_blanks(line, place),
        caret_count(line, place, width),
        label,
    )
}

/// Writes a hint below a picture.
pub fn write_hint<W: Sink>(printer: &mut Printer<'_, W>, hint: &str) -> Result<(), SinkFailed>
    ensures { Prints printer.old printer.new (hint_line hint.now) result }
{
    printer.bytes(b" = ")?;
    printer.bytes(hint.as_bytes())?;
    printer.bytes(b"\n")
}

/// The place of a column in a line.
fn place_of(line: &[u8], column: u32) -> usize
    ensures value { result ≡ place_of (length line.now) column }
    ensures within { result ≤ length line.now }
{
    (column.saturating_sub(1) as usize).min(line.len())
}

/// How many bytes of a line stand before those that are shown.
fn first_shown(line: &[u8], place: usize) -> usize
    ensures value { result ≡ first_shown (length line.now) place }
    ensures before { result ≤ place }
    ensures within { result ≤ length line.now }
{
    place
        .saturating_sub(SHOWN_BEFORE)
        .min(line.len().saturating_sub(SHOWN))
}

/// How many carets stand at a place.
fn caret_count(line: &[u8], place: usize, width: u32) -> u64
    ensures { result ≡ caret_count (length line.now) place width }
{
    let end = line.len().min(first_shown(line, place) + SHOWN);
    (width as u64).min(end.saturating_sub(place) as u64).max(1)
}

/// How many blanks stand before them.
fn caret_blanks(line: &[u8], place: usize) -> u64
    requires { place ≤ length line.now }
    ensures { result ≡ caret_blanks (length line.now) place }
{
    let first = first_shown(line, place);
    (cut(0 < first).len() + (place - first)) as u64
}

/// Writes a line of a script behind its number, from a byte on.
fn source_part<W: Sink>(
    printer: &mut Printer<'_, W>,
    first: usize,
    line: &[u8],
) -> Result<(), SinkFailed>
    requires { first ≤ length line.now }
    ensures { Prints printer.old printer.new (source_part first line.now) result }
{
    printer.bytes(b" | ")?;
    shown_rest(printer, 0 < first, rest_of(line, first))?;
    printer.bytes(b"\n")
}

/// What stands in a line from a byte on.
fn rest_of(line: &[u8], first: usize) -> &[u8]
    requires { first ≤ length line.now }
    ensures { result.now ≡ drop first line.now }
{
    &line[first..]
}

/// Writes what is shown of the rest of a line, behind bytes that are left out or not.
fn shown_rest<W: Sink>(
    printer: &mut Printer<'_, W>,
    is_cut: bool,
    rest: &[u8],
) -> Result<(), SinkFailed>
    ensures { Prints printer.old printer.new (shown_rest is_cut rest.now) result }
{
    printer.bytes(cut(is_cut))?;
    shown(printer, &rest[..rest.len().min(SHOWN)])?;
    printer.bytes(cut(SHOWN < rest.len()))
}

/// Writes bytes as they are shown.
pub(crate) fn shown<W: Sink>(printer: &mut Printer<'_, W>, bytes: &[u8]) -> Result<(), SinkFailed>
    ensures { Prints printer.old printer.new (map shown_byte bytes.now) result }
{
    for byte in bytes {
        printer.bytes(&[shown_byte(*byte)])?;
    }
    Ok(())
}

/// A byte as it is shown.
fn shown_byte(byte: u8) -> u8
    ensures { result ≡ shown_byte byte }
{
    match byte {
        b'\t' => b' ',
        b' '..=b'~' => byte,
        _ => b'?',
    }
}

/// What stands where bytes are left out.
fn cut(is_cut: bool) -> &'static [u8]
    ensures { result.now ≡ cut is_cut }
{
    if is_cut { b".." } else { b"" }
}

/// Writes a margin with blanks for `digits` digits.
fn margin<W: Sink>(printer: &mut Printer<'_, W>, digits: u64) -> Result<(), SinkFailed>
    ensures { Prints printer.old printer.new (margin digits) result }
{
    printer.bytes(b" ")?;
    repeated(printer, b' ', digits)?;
    printer.bytes(b" | ")
}

/// Writes carets behind blanks, with a label.
fn caret_part<W: Sink>(
    printer: &mut Printer<'_, W>,
    blanks: u64,
    carets: u64,
    label: &[Piece<'_>],
) -> Result<(), SinkFailed>
    ensures { Prints printer.old printer.new (caret_part blanks carets label.now) result }
{
    repeated(printer, b' ', blanks)?;
    repeated(printer, b'^', carets)?;
    label_text(printer, label)?;
    printer.bytes(b"\n")
}

/// Writes a label behind carets.
fn label_text<W: Sink>(printer: &mut Printer<'_, W>, label: &[Piece<'_>]) -> Result<(), SinkFailed>
    ensures { Prints printer.old printer.new (label_text label.now) result }
{
    if label.is_empty() {
        return Ok(());
    }
    printer.bytes(b" ")?;
    printer.pieces(label)
}

/// Writes a byte `count` times.
fn repeated<W: Sink>(printer: &mut Printer<'_, W>, byte: u8, count: u64) -> Result<(), SinkFailed>
    ensures { Prints printer.old printer.new (replicate count byte) result }
{
    let mut left = count;
    while left > 0 {
        printer.bytes(&[byte])?;
        left -= 1;
    }
    Ok(())
}
