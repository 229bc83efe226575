//! Commands that are written part by part.
ghost use Rattle.std.specs.Prelude.{◌≡◌, ◌<◌, ◌++◌, ◌∷◌, length, map};
ghost use Rattle.iso_github.specs.Parts.{part_text};
ghost use Rattle.iso_junit.specs.Texts.{joined};
ghost use Rattle.iso_plan.specs.PathTexts.{path_text};
ghost use Rattle.iso_plan.specs.RowView.{tree_of};
ghost use Rattle.iso_tap.specs.Printers.{Prints};

use crate::escape::{message, property};
use crate::part::Part;
use iso_plan::plan::Plan;
use iso_tap::printer::Printer;
use iso_tap::sink::{Sink, SinkFailed};

/// Writes parts, one after another.
pub(crate) fn parts<W: Sink>(
    printer: &mut Printer<'_, W>,
    parts: &[Part<'_>],
) -> Result<(), SinkFailed>
    ensures { Prints printer.old printer.new (joined (map part_text parts.now)) result }
{
    for part in parts {
        write_part(printer, part)?;
    }
    Ok(())
}

/// Writes parts with the path of a node between them.
pub(crate) fn parts_with_path<W: Sink>(
    printer: &mut Printer<'_, W>,
    before: &[Part<'_>],
    plan: &Plan,
    node: u32,
    after: &[Part<'_>],
) -> Result<(), SinkFailed>
    requires above { 0 < node }
    requires within { node < length plan.now.rows }
    ensures { Prints printer.old printer.new
        (joined (map part_text before.now ++ path_text (tree_of plan.now) node
        ∷ map part_text after.now)) result }
{
    for part in before {
        write_part(printer, part)?;
    }
    printer.path(plan, node)?;
    parts(printer, after)
}

/// Writes a part.
fn write_part<W: Sink>(printer: &mut Printer<'_, W>, part: &Part<'_>) -> Result<(), SinkFailed>
    ensures { Prints printer.old printer.new (part_text part.now) result }
{
    match *part {
        Part::Plain(text) => printer.bytes(text.as_bytes()),
        Part::Number(number) => printer.number(u64::from(number)),
        Part::Property(text) => property(printer, text.as_bytes()),
        Part::Message(text) => message(printer, text.as_bytes()),
    }
}
