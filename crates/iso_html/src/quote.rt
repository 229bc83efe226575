//! Lines of scripts, as the page shows them.
ghost use Rattle.std.specs.Prelude.{◌≡◌, ◌<◌, ◌==◌, flat_map, length, map};
ghost use Rattle.iso_html.specs.Quotes.{begin_text, end_text, line_of, line_text, number_text, quote_text, quoted, excerpt_of, shown_text};
ghost use Rattle.iso_junit.specs.Escapes.{escaped};
ghost use Rattle.iso_summary.specs.ShownLines.{shown_byte};
ghost use Rattle.iso_tap.specs.Printers.{Prints};

use iso_junit::escape::escaped;
use iso_junit::part::Part;
use iso_junit::writing::parts;
use iso_summary::shown_line::{cut_end, shown_byte, shown_part};
use iso_tap::printer::Printer;
use iso_tap::sink::{Sink, SinkFailed};

/// A line of a script, without its line end.
#[derive(Clone, Copy)]
pub struct Line<'a> {
    /// From 1 on.
    pub number: u32,
    pub text: &'a [u8],
}

/// The lines that are shown of a node's script.
pub(crate) fn quoted<'q, 'a>(quotes: &'q [Vec<Line<'a>>], node: u32) -> &'q [Line<'a>]
    requires { node < length quotes.now }
    ensures { map line_of result.now ≡ quoted (map excerpt_of quotes.now) node }
{
    &quotes[node as usize]
}

/// Writes lines, of which the one with this number ended a block, and nothing where there are none.
pub(crate) fn quote<W: Sink>(
    printer: &mut Printer<'_, W>,
    ended: u32,
    lines: &[Line<'_>],
) -> Result<(), SinkFailed>
    ensures { Prints printer.old printer.new (quote_text ended (map line_of lines.now)) result }
{
    if lines.is_empty() {
        return Ok(());
    }
    printer.bytes(b"<pre>\n")?;
    all(printer, ended, lines)?;
    printer.bytes(b"</pre>\n")
}

/// Writes lines, one after another.
fn all<W: Sink>(
    printer: &mut Printer<'_, W>,
    ended: u32,
    lines: &[Line<'_>],
) -> Result<(), SinkFailed>
    ensures { Prints printer.old printer.new
        (flat_map (line_text ended) (map line_of lines.now)) result }
{
    for line in lines {
        one(printer, ended, line)?;
    }
    Ok(())
}

/// Writes a line.
fn one<W: Sink>(printer: &mut Printer<'_, W>, ended: u32, line: &Line<'_>) -> Result<(), SinkFailed>
    ensures { Prints printer.old printer.new (line_text ended (line_of line.now)) result }
{
    let marked = line.number == ended;
    number(printer, marked, line.number)?;
    shown(printer, line.text)?;
    printer.bytes(end(marked))
}

/// Writes how a line begins, with its number.
fn number<W: Sink>(
    printer: &mut Printer<'_, W>,
    marked: bool,
    number: u32,
) -> Result<(), SinkFailed>
    ensures { Prints printer.old printer.new (number_text marked number) result }
{
    parts(
        printer,
        &[
            Part::Plain(begin(marked)),
            Part::Number(number),
            Part::Plain(" | "),
        ],
    )
}

/// How a line begins; the one that ended a block is marked, also by a sign.
fn begin(marked: bool) -> &'static str
    ensures { result.now ≡ begin_text marked }
{
    if marked { "<mark>&gt; " } else { "  " }
}

/// How a line ends.
fn end(marked: bool) -> &'static [u8]
    ensures { result.now ≡ end_text marked }
{
    if marked { b"</mark>\n" } else { b"\n" }
}

/// Writes what is shown of a line: its first 160 bytes, and two dots where it has more.
fn shown<W: Sink>(printer: &mut Printer<'_, W>, text: &[u8]) -> Result<(), SinkFailed>
    ensures { Prints printer.old printer.new (shown_text text.now) result }
{
    bytes_shown(printer, shown_part(text))?;
    printer.bytes(cut_end(text))
}

/// Writes bytes as they are shown, however many there are.
fn bytes_shown<W: Sink>(printer: &mut Printer<'_, W>, bytes: &[u8]) -> Result<(), SinkFailed>
    ensures { Prints printer.old printer.new (escaped (map shown_byte bytes.now)) result }
{
    for byte in bytes {
        escaped(printer, &[shown_byte(*byte)])?;
    }
    Ok(())
}
