//! What nodes printed.
ghost use Rattle.std.specs.Prelude.{◌≡◌, ◌<◌, ◌==◌, length};
ghost use Rattle.iso_junit.specs.Elements.{display_line, is_called_by_name, is_silent, output_text};
ghost use Rattle.iso_junit.specs.Parts.{part_text};
ghost use Rattle.iso_lifecycle.specs.ResultViews.{outcome_of_view};
ghost use Rattle.iso_plan.specs.Paths.{row_at};
ghost use Rattle.iso_plan.specs.RowView.{tree_of};
ghost use Rattle.iso_tap.specs.Printers.{Prints};

use crate::part::Part;
use crate::writing::{all_lines, parts};
use iso_lifecycle::view::View;
use iso_plan::plan::Plan;
use iso_tap::printer::Printer;
use iso_tap::sink::{Sink, SinkFailed};

/// Writes the display text of a node and the lines that its blocks printed, where it has any of
/// them.
pub(crate) fn output<'x, W: Sink>(
    printer: &mut Printer<'_, W>,
    indent: &'x str,
    plan: &'x Plan,
    node: u32,
    view: View<'x>,
) -> Result<(), SinkFailed>
    requires { node < length plan.now.rows }
    ensures { Prints printer.old printer.new
        (output_text indent.now (row_at (tree_of plan.now) node)
        (outcome_of_view view.entry).output) result }
{
    if is_silent(plan, node, view) {
        return Ok(());
    }
    parts(
        printer,
        &[
            Part::Plain(indent),
            Part::Plain("<system-out>"),
            display_line(plan, node),
        ],
    )?;
    all_lines(printer, view.lines)?;
    all_lines(printer, view.more)?;
    printer.bytes(b"</system-out>\n")
}

/// The line of a node's display text, where it has one.
fn display_line(plan: &Plan, node: u32) -> Part<'_>
    requires { node < length plan.now.rows }
    ensures { part_text result ≡ display_line (row_at (tree_of plan.now) node) }
{
    if is_called_by_name(plan, node) {
        Part::Plain("")
    } else {
        Part::Display(plan.title(node))
    }
}

/// Whether a node has neither a display text nor printed lines.
pub(crate) fn is_silent(plan: &Plan, node: u32, view: View<'_>) -> bool
    requires { node < length plan.now.rows }
    ensures { result ≡ is_silent (row_at (tree_of plan.now) node)
        (outcome_of_view view.entry).output }
{
    is_called_by_name(plan, node) && printed_nothing(view)
}

/// Whether a node has no display text, or one that is its name.
fn is_called_by_name(plan: &Plan, node: u32) -> bool
    requires { node < length plan.now.rows }
    ensures { result ≡ is_called_by_name (row_at (tree_of plan.now) node) }
{
    plan.title(node) == plan.name(node)
}

/// Whether nothing was printed.
pub(crate) fn printed_nothing(view: View<'_>) -> bool
    ensures { result ≡ (length (outcome_of_view view.entry).output == 0) }
{
    view.lines.is_empty() && view.more.is_empty()
}
