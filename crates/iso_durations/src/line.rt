//! Lines that are written part by part.
ghost use Rattle.std.specs.Prelude.{◌≡◌, ◌<◌, ◌++◌, ◌∷◌, ◌==◌, [], cond, length, map};
ghost use Rattle.iso_durations.specs.Lines.{counted, line};
ghost use Rattle.iso_durations.specs.Parts.{part_text};
ghost use Rattle.iso_plan.specs.PathTexts.{path_text};
ghost use Rattle.iso_plan.specs.RowView.{tree_of};
ghost use Rattle.iso_tap.specs.Printers.{Prints};

use crate::part::Part;
use crate::seconds::seconds;
use iso_plan::plan::Plan;
use iso_tap::printer::Printer;
use iso_tap::sink::{Sink, SinkFailed};

/// Writes a line of parts.
pub(crate) fn line<W: Sink>(
    printer: &mut Printer<'_, W>,
    parts: &[Part<'_>],
) -> Result<(), SinkFailed>
    ensures { Prints printer.old printer.new (line (map part_text parts.now)) result }
{
    for part in parts {
        write_part(printer, part)?;
    }
    printer.bytes(b"\n")
}

/// Writes a line of parts with the path of a node behind them.
pub(crate) fn line_with_path<W: Sink>(
    printer: &mut Printer<'_, W>,
    before: &[Part<'_>],
    plan: &Plan,
    node: u32,
) -> Result<(), SinkFailed>
    requires above { 0 < node }
    requires within { node < length plan.now.rows }
    ensures { Prints printer.old printer.new
        (line (map part_text before.now ++ path_text (tree_of plan.now) node ∷ [])) result }
{
    for part in before {
        write_part(printer, part)?;
    }
    printer.path(plan, node)?;
    printer.bytes(b"\n")
}

/// Writes a part.
fn write_part<W: Sink>(printer: &mut Printer<'_, W>, part: &Part<'_>) -> Result<(), SinkFailed>
    ensures { Prints printer.old printer.new (part_text part.now) result }
{
    match *part {
        Part::Plain(text) => printer.bytes(text.as_bytes()),
        Part::Number(number) => printer.number(number),
        Part::Counted(count, one, many) => counted(printer, count, one, many),
        Part::Seconds(micros) => seconds(printer, micros),
    }
}

/// Writes how many things there are.
fn counted<W: Sink>(
    printer: &mut Printer<'_, W>,
    count: u32,
    one: &str,
    many: &str,
) -> Result<(), SinkFailed>
    ensures { Prints printer.old printer.new (counted count one.now many.now) result }
{
    printer.number(u64::from(count))?;
    printer.bytes(word_for(count, one, many).as_bytes())
}

/// The word for one thing, or the word for several.
fn word_for<'a>(count: u32, one: &'a str, many: &'a str) -> &'a str
    ensures { result.now ≡ cond (count == 1) one.now many.now }
{
    if count == 1 { one } else { many }
}
