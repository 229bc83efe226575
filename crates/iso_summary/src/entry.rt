//! What is told of a node.
ghost use Rattle.std.specs.Prelude.{◌≡◌, ◌<◌, ◌++◌, length};
ghost use Rattle.iso_plan.specs.PathTexts.{path_text};
ghost use Rattle.iso_plan.specs.RowView.{tree_of};
ghost use Rattle.iso_summary.specs.Entries.{blocks_line, failure_text, hint_lines, place_line, skipped_text, source_line, source_lines};
ghost use Rattle.iso_summary.specs.Views.{again_of, located_of};
ghost use Rattle.iso_tap.specs.Printers.{Prints};

use crate::again::{Again, command};
use crate::line::{line, line_with_path};
use crate::located::Located;
use crate::part::Part;
use iso_plan::plan::Plan;
use iso_tap::printer::Printer;
use iso_tap::sink::{Sink, SinkFailed};

/// Writes of a node that failed its path, the place and the message, the line of the script, what
/// mends it, how many tests it blocks, and the command that runs it again.
pub(crate) fn failure<'x, W: Sink>(
    printer: &mut Printer<'_, W>,
    plan: &Plan,
    node: u32,
    at: &Located<'x>,
    message: &'x str,
    blocked: u32,
    again: &Again<'_>,
) -> Result<(), SinkFailed>
    requires above { 0 < node }
    requires within { node < length plan.now.rows }
    ensures { Prints printer.old printer.new
        (failure_text (again_of again.now) (located_of at.now)
        (path_text (tree_of plan.now) node) message.now blocked) result }
{
    line_with_path(printer, &[Part::Plain("not ok ")], plan, node, &[])?;
    place(printer, at, message)?;
    source_lines(printer, at)?;
    blocks(printer, blocked)?;
    command(printer, plan, node, at, again)?;
    printer.bytes(b"\n")
}

/// Writes of a node that was skipped its path, the place and why.
pub(crate) fn skipped<'x, W: Sink>(
    printer: &mut Printer<'_, W>,
    plan: &Plan,
    node: u32,
    at: &Located<'x>,
    reason: &'x str,
) -> Result<(), SinkFailed>
    requires above { 0 < node }
    requires within { node < length plan.now.rows }
    ensures { Prints printer.old printer.new
        (skipped_text (located_of at.now) (path_text (tree_of plan.now) node) reason.now) result }
{
    line_with_path(printer, &[Part::Plain("skipped ")], plan, node, &[])?;
    place(printer, at, reason)?;
    printer.bytes(b"\n")
}

/// Writes the line of a place, with what is said of it.
fn place<'x, W: Sink>(
    printer: &mut Printer<'_, W>,
    at: &Located<'x>,
    message: &'x str,
) -> Result<(), SinkFailed>
    ensures { Prints printer.old printer.new (place_line (located_of at.now) message.now) result }
{
    line(
        printer,
        &[
            Part::Plain("  "),
            Part::Name(at.file),
            Part::Plain(":"),
            Part::Number(at.line),
            Part::Plain(": "),
            Part::Plain(message),
        ],
    )
}

/// Writes the line of the script, and below it what mends it.
fn source_lines<W: Sink>(printer: &mut Printer<'_, W>, at: &Located<'_>) -> Result<(), SinkFailed>
    ensures { Prints printer.old printer.new (source_lines (located_of at.now)) result }
{
    source(printer, at)?;
    hints(printer, at)
}

/// Writes the line of the script.
fn source<W: Sink>(printer: &mut Printer<'_, W>, at: &Located<'_>) -> Result<(), SinkFailed>
    ensures { Prints printer.old printer.new (source_line (located_of at.now)) result }
{
    line(
        printer,
        &[
            Part::Plain("  "),
            Part::Number(at.line),
            Part::Plain(" | "),
            Part::Source(at.source),
        ],
    )
}

/// Writes what mends it, a line each.
fn hints<W: Sink>(printer: &mut Printer<'_, W>, at: &Located<'_>) -> Result<(), SinkFailed>
    ensures { Prints printer.old printer.new (hint_lines (located_of at.now)) result }
{
    for hint in at.hints {
        line(printer, &[Part::Plain("  = "), Part::Shown(hint.as_str())])?;
    }
    Ok(())
}

/// Writes how many tests are blocked, and nothing where none is.
fn blocks<W: Sink>(printer: &mut Printer<'_, W>, blocked: u32) -> Result<(), SinkFailed>
    ensures { Prints printer.old printer.new (blocks_line blocked) result }
{
    if blocked == 0 {
        return Ok(());
    }
    line(
        printer,
        &[
            Part::Plain("  blocks "),
            Part::Counted(blocked, " test", " tests"),
        ],
    )
}
