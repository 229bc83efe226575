//! Testcases.
ghost use Rattle.std.specs.Prelude.{◌≡◌, ◌<◌, ◌&&◌, [], codes, cond, length};
ghost use Rattle.iso_failures.specs.Nodes.{has_passed};
ghost use Rattle.iso_junit.specs.Documents.{case_head, case_rest, case_text};
ghost use Rattle.iso_junit.specs.Elements.{is_silent, output_text, problem, result_text, skipped_text};
ghost use Rattle.iso_junit.specs.Runs.{placed_of, run_of};
ghost use Rattle.iso_lifecycle.specs.ResultViews.{AreComplete, outcome_of_view, verdict_of_view};
ghost use Rattle.iso_plan.specs.Paths.{is_test, row_at};
ghost use Rattle.iso_plan.specs.PathTexts.{path_text};
ghost use Rattle.iso_plan.specs.RowView.{tree_of};
ghost use Rattle.iso_tap.specs.Printers.{Prints};

use crate::output::{is_silent, output};
use crate::part::Part;
use crate::placed::Placed;
use crate::run::Run;
use crate::writing::{parts, parts_with_path};
use iso_lifecycle::view::{View, ViewVerdict};
use iso_plan::plan::Plan;
use iso_tap::printer::Printer;
use iso_tap::sink::{Sink, SinkFailed};

/// Writes a testcase of a class: that of a test in it, or its own.
pub(crate) fn case<W: Sink>(
    printer: &mut Printer<'_, W>,
    run: &Run<'_, '_>,
    class: u32,
    node: u32,
) -> Result<(), SinkFailed>
    requires complete { AreComplete run.now.results.now }
    requires class { 0 < class }
    requires inside { class < length run.now.plan.now.rows }
    requires above { 0 < node }
    requires within { node < length run.now.plan.now.rows }
    ensures { Prints printer.old printer.new (case_text (run_of run.now) class node) result }
{
    let place = run.place(node);
    let name = case_name(run.plan, node);
    head(printer, name, run.plan, class, &place, run.time(node))?;
    rest(printer, run, node)
}

/// Writes the beginning of a testcase with this name, in this class.
fn head<'x, W: Sink>(
    printer: &mut Printer<'_, W>,
    name: &'x str,
    plan: &Plan,
    class: u32,
    at: &Placed<'x>,
    time: Option<u64>,
) -> Result<(), SinkFailed>
    requires above { 0 < class }
    requires within { class < length plan.now.rows }
    ensures { Prints printer.old printer.new
        (case_head name.now (path_text (tree_of plan.now) class) (placed_of at.now) time) result }
{
    parts_with_path(
        printer,
        &[
            Part::Plain("    <testcase name=\""),
            Part::Text(name),
            Part::Plain("\" classname=\""),
        ],
        plan,
        class,
        &[
            Part::Plain("\" file=\""),
            Part::File(at.file),
            Part::Plain("\" line=\""),
            Part::Number(at.line),
            Part::Plain("\""),
            Part::Time(time),
        ],
    )
}

/// The name of a testcase.
fn case_name(plan: &Plan, node: u32) -> &str
    requires { node < length plan.now.rows }
    ensures { let row = row_at (tree_of plan.now) node in result.now
        ≡ cond (is_test row.kind) row.name (codes "class") }
{
    if plan.is_test(node) {
        plan.name(node)
    } else {
        "class"
    }
}

/// Writes the rest of a testcase.
fn rest<W: Sink>(
    printer: &mut Printer<'_, W>,
    run: &Run<'_, '_>,
    node: u32,
) -> Result<(), SinkFailed>
    requires complete { AreComplete run.now.results.now }
    requires above { 0 < node }
    requires within { node < length run.now.plan.now.rows }
    ensures { Prints printer.old printer.new (case_rest (run_of run.now) node) result }
{
    let view = run.view(node);
    if is_bare(run.plan, node, view) {
        return printer.bytes(b"/>\n");
    }
    let place = run.place(node);
    printer.bytes(b">\n")?;
    ended(printer, &place, view.verdict)?;
    case_output(printer, run.plan, node, view)?;
    printer.bytes(b"    </testcase>\n")
}

/// Whether nothing stands in a testcase: a test passed, has no display text and printed nothing.
fn is_bare(plan: &Plan, node: u32, view: View<'_>) -> bool
    requires { node < length plan.now.rows }
    ensures { let outcome = outcome_of_view view.entry in
        result ≡ (has_passed outcome.verdict
        && is_silent (row_at (tree_of plan.now) node) outcome.output) }
{
    matches!(view.verdict, ViewVerdict::Pass) && is_silent(plan, node, view)
}

/// Writes what a testcase came to, and nothing where it passed.
fn ended<'x, W: Sink>(
    printer: &mut Printer<'_, W>,
    at: &Placed<'x>,
    verdict: ViewVerdict<'x>,
) -> Result<(), SinkFailed>
    ensures { Prints printer.old printer.new
        (result_text (placed_of at.now) (verdict_of_view verdict.entry)) result }
{
    match verdict {
        ViewVerdict::Pass => Ok(()),
        ViewVerdict::Fail(note) => problem(printer, "failure", "fail", at, note.message.as_str()),
        ViewVerdict::Fault(_, note) => {
            problem(printer, "error", "fault", at, note.message.as_str())
        }
        ViewVerdict::Skipped(note) => skipped(printer, note.message.as_str()),
        ViewVerdict::Blocked(note) => {
            problem(printer, "error", "blocked", at, note.message.as_str())
        }
    }
}

/// Writes a failure or an error of a type.
fn problem<'x, W: Sink>(
    printer: &mut Printer<'_, W>,
    element: &'x str,
    kind: &'x str,
    at: &Placed<'x>,
    message: &'x str,
) -> Result<(), SinkFailed>
    ensures { Prints printer.old printer.new
        (problem element.now kind.now (placed_of at.now) message.now) result }
{
    parts(
        printer,
        &[
            Part::Plain("      <"),
            Part::Plain(element),
            Part::Plain(" message=\""),
            Part::Text(message),
            Part::Plain("\" type=\""),
            Part::Plain(kind),
            Part::Plain("\">"),
            Part::File(at.file),
            Part::Plain(":"),
            Part::Number(at.ended),
            Part::Plain(": "),
            Part::Text(message),
            Part::Plain("</"),
            Part::Plain(element),
            Part::Plain(">\n"),
        ],
    )
}

/// Writes that a testcase was skipped.
fn skipped<W: Sink>(printer: &mut Printer<'_, W>, reason: &str) -> Result<(), SinkFailed>
    ensures { Prints printer.old printer.new (skipped_text reason.now) result }
{
    parts(
        printer,
        &[
            Part::Plain("      <skipped message=\""),
            Part::Text(reason),
            Part::Plain("\"/>\n"),
        ],
    )
}

/// Writes what a test printed.
fn case_output<W: Sink>(
    printer: &mut Printer<'_, W>,
    plan: &Plan,
    node: u32,
    view: View<'_>,
) -> Result<(), SinkFailed>
    requires { node < length plan.now.rows }
    ensures { Prints printer.old printer.new
        (cond (is_test (row_at (tree_of plan.now) node).kind)
        (output_text (codes "      ") (row_at (tree_of plan.now) node)
        (outcome_of_view view.entry).output) []) result }
{
    if plan.is_test(node) {
        return output(printer, "      ", plan, node, view);
    }
    Ok(())
}
