//! Elements that are written part by part.
ghost use Rattle.std.specs.Prelude.{◌≡◌, ◌<◌, ◌++◌, ◌∷◌, codes, length, map};
ghost use Rattle.iso_junit.specs.Documents.{counts_text, numbers_text};
ghost use Rattle.iso_junit.specs.Elements.{display_name, lines_text};
ghost use Rattle.iso_junit.specs.Escapes.{escaped};
ghost use Rattle.iso_junit.specs.Parts.{part_text};
ghost use Rattle.iso_junit.specs.Texts.{joined};
ghost use Rattle.iso_model.specs.LinesView.{lines_in};
ghost use Rattle.iso_plan.specs.PathTexts.{path_text};
ghost use Rattle.iso_plan.specs.RowView.{tree_of};
ghost use Rattle.iso_tap.specs.Printers.{Prints};

use crate::escape::escaped;
use crate::file::file;
use crate::part::Part;
use crate::path::path;
use crate::seconds::time_attribute;
use crate::tally::Tally;
use iso_model::lines::LineSlice;
use iso_plan::plan::Plan;
use iso_tap::printer::{Piece, Printer};
use iso_tap::sink::{Sink, SinkFailed};

/// Writes parts, one after another.
pub fn parts<W: Sink>(printer: &mut Printer<'_, W>, parts: &[Part<'_>]) -> Result<(), SinkFailed>
    ensures { Prints printer.old printer.new (joined (map part_text parts.now)) result }
{
    for part in parts {
        write_part(printer, part)?;
    }
    Ok(())
}

/// Writes parts with the path of a node between them.
pub fn parts_with_path<W: Sink>(
    printer: &mut Printer<'_, W>,
    before: &[Part<'_>],
    plan: &Plan,
    node: u32,
    after: &[Part<'_>],
) -> Result<(), SinkFailed>
    requires above { 0 < node }
    requires within { node < length plan.now.rows }
    ensures { Prints printer.old printer.new
        (joined (map part_text before.now ++ escaped (path_text (tree_of plan.now) node)
        ∷ map part_text after.now)) result }
{
    for part in before {
        write_part(printer, part)?;
    }
    path(printer, plan, node)?;
    parts(printer, after)
}

/// Writes a part.
fn write_part<W: Sink>(printer: &mut Printer<'_, W>, part: &Part<'_>) -> Result<(), SinkFailed>
    ensures { Prints printer.old printer.new (part_text part.now) result }
{
    match *part {
        Part::Plain(text) => printer.bytes(text.as_bytes()),
        Part::Number(number) => printer.number(u64::from(number)),
        Part::Text(text) => escaped(printer, text.as_bytes()),
        Part::File(name) => file(printer, name),
        Part::Time(time) => time_attribute(printer, time),
        Part::Display(title) => display(printer, title),
        Part::Counts(tally) => counts(printer, tally),
    }
}

/// Writes the line of a display text.
fn display<W: Sink>(printer: &mut Printer<'_, W>, title: &str) -> Result<(), SinkFailed>
    ensures { Prints printer.old printer.new (display_name title.now) result }
{
    printer.bytes(b"display-name: ")?;
    line(printer, title.as_bytes())
}

/// Writes printed lines.
pub fn all_lines<W: Sink>(
    printer: &mut Printer<'_, W>,
    lines: LineSlice<'_>,
) -> Result<(), SinkFailed>
    ensures { Prints printer.old printer.new (lines_text (lines_in lines.entry)) result }
{
    let mut left = lines;
    'lines: while let Some((first, rest)) = left.split_first() {
        line(printer, first)?;
        left = rest;
    }
    Ok(())
}

/// Writes a line.
fn line<W: Sink>(printer: &mut Printer<'_, W>, text: &[u8]) -> Result<(), SinkFailed>
    ensures { Prints printer.old printer.new (escaped text.now ++ codes "\n") result }
{
    escaped(printer, text)?;
    printer.bytes(b"\n")
}

/// Writes the attributes of counts.
fn counts<W: Sink>(printer: &mut Printer<'_, W>, tally: Tally) -> Result<(), SinkFailed>
    ensures { Prints printer.old printer.new (counts_text tally) result }
{
    numbers(printer, tally)?;
    time_attribute(printer, tally.time)
}

/// Writes the attributes of counts without the time.
fn numbers<W: Sink>(printer: &mut Printer<'_, W>, tally: Tally) -> Result<(), SinkFailed>
    ensures { Prints printer.old printer.new (numbers_text tally) result }
{
    printer.pieces(&[
        Piece::Plain(b" tests=\""),
        Piece::Number(tally.tests),
        Piece::Plain(b"\" failures=\""),
        Piece::Number(tally.failures),
        Piece::Plain(b"\" errors=\""),
        Piece::Number(tally.errors),
        Piece::Plain(b"\" skipped=\""),
        Piece::Number(tally.skipped),
        Piece::Plain(b"\""),
    ])
}
