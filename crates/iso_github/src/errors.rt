//! Errors, as GitHub shows them beside the lines of a change.
ghost use Rattle.std.specs.Prelude.{◌≡◌, ◌<◌, length, map};
ghost use Rattle.iso_github.specs.Commands.{error_line, refusal_line};
ghost use Rattle.iso_github.specs.Errors.{error_of, errors_text};
ghost use Rattle.iso_junit.specs.Runs.{placed_of};
ghost use Rattle.iso_lifecycle.specs.ResultViews.{AreComplete, outcome_in, verdict_of_view};
ghost use Rattle.iso_plan.specs.PathTexts.{path_text};
ghost use Rattle.iso_plan.specs.RowView.{tree_of};
ghost use Rattle.iso_tap.specs.Printers.{Prints, Writes};

use crate::part::Part;
use crate::writing::{parts, parts_with_path};
use iso_junit::placed::Placed;
use iso_lifecycle::results::Results;
use iso_lifecycle::view::ViewVerdict;
use iso_plan::plan::Plan;
use iso_tap::fault::TapFault;
use iso_tap::printer::Printer;
use iso_tap::sink::{Sink, SinkFailed};

/// Writes an error for each test and each class that failed by itself, in the order in which they
/// are written: its path, the message, and the line of what ended it. Nothing is told of what is
/// blocked. All nodes but the root must have results. Each node, the root too, has its place at its
/// number. Takes no memory.
///
/// The sink is asked again where it takes only some bytes, and no more once it has failed.
pub fn write_errors<W: Sink>(
    plan: &Plan,
    results: &Results<'_>,
    places: &[Placed<'_>],
    sink: &mut W,
) -> Result<(), TapFault>
    requires plan { results.now.plan ≡ plan.now }
    requires complete { AreComplete results.now }
    requires places { length places.now ≡ length plan.now.rows }
    ensures { Writes (W.account sink.old) (W.account sink.new)
        (errors_text (tree_of plan.now) (outcome_in results.now)
        (map placed_of places.now)) result }
{
    let mut printer = Printer::new(sink);
    match errors(&mut printer, plan, results, places) {
        Ok(()) => Ok(()),
        Err(_) => Err(TapFault {
            written: printer.written(),
        }),
    }
}

/// Writes the error of a file that is refused: where, and why. Takes no memory.
///
/// The sink is asked again where it takes only some bytes, and no more once it has failed.
pub fn write_refusal<W: Sink>(
    file: &str,
    line: u32,
    column: u32,
    kind: &str,
    sink: &mut W,
) -> Result<(), TapFault>
    ensures { Writes (W.account sink.old) (W.account sink.new)
        (refusal_line file.now line column kind.now) result }
{
    let mut printer = Printer::new(sink);
    match refusal(&mut printer, file, line, column, kind) {
        Ok(()) => Ok(()),
        Err(_) => Err(TapFault {
            written: printer.written(),
        }),
    }
}

/// Writes the errors of all nodes.
fn errors<W: Sink>(
    printer: &mut Printer<'_, W>,
    plan: &Plan,
    results: &Results<'_>,
    places: &[Placed<'_>],
) -> Result<(), SinkFailed>
    requires plan { results.now.plan ≡ plan.now }
    requires complete { AreComplete results.now }
    requires places { length places.now ≡ length plan.now.rows }
    ensures { Prints printer.old printer.new
        (errors_text (tree_of plan.now) (outcome_in results.now)
        (map placed_of places.now)) result }
{
    'nodes: for node in 1..plan.len() {
        let at = places[node as usize];
        error(printer, plan, node, &at, verdict(results, node))?;
    }
    Ok(())
}

/// The verdict of a node.
fn verdict<'r>(results: &'r Results<'_>, node: u32) -> ViewVerdict<'r>
    requires complete { AreComplete results.now }
    requires above { 0 < node }
    requires within { node < length results.now.plan.rows }
    ensures { verdict_of_view result ≡ (outcome_in results.now node).verdict }
{
    results.get(node).unwrap().verdict
}

/// Writes the error of a node with this verdict, and nothing where it didn't fail.
fn error<'x, W: Sink>(
    printer: &mut Printer<'_, W>,
    plan: &Plan,
    node: u32,
    at: &Placed<'x>,
    verdict: ViewVerdict<'x>,
) -> Result<(), SinkFailed>
    requires above { 0 < node }
    requires within { node < length plan.now.rows }
    ensures { Prints printer.old printer.new
        (error_of (path_text (tree_of plan.now) node) (placed_of at.now)
        (verdict_of_view verdict.entry)) result }
{
    match verdict {
        ViewVerdict::Fail(note) | ViewVerdict::Fault(_, note) => {
            failed(printer, plan, node, at, note.message.as_str())
        }
        ViewVerdict::Pass | ViewVerdict::Skipped(_) | ViewVerdict::Blocked(_) => Ok(()),
    }
}

/// Writes the error of a node that failed.
fn failed<'x, W: Sink>(
    printer: &mut Printer<'_, W>,
    plan: &Plan,
    node: u32,
    at: &Placed<'x>,
    message: &'x str,
) -> Result<(), SinkFailed>
    requires above { 0 < node }
    requires within { node < length plan.now.rows }
    ensures { Prints printer.old printer.new
        (error_line (placed_of at.now).file (placed_of at.now).ended
        (path_text (tree_of plan.now) node) message.now) result }
{
    parts_with_path(
        printer,
        &[
            Part::Plain("::error file="),
            Part::Property(at.file),
            Part::Plain(",line="),
            Part::Number(at.ended),
            Part::Plain(",title="),
        ],
        plan,
        node,
        &[Part::Plain("::"), Part::Message(message), Part::Plain("\n")],
    )
}

/// Writes the error of a file that is refused.
fn refusal<'x, W: Sink>(
    printer: &mut Printer<'_, W>,
    file: &'x str,
    line: u32,
    column: u32,
    kind: &'x str,
) -> Result<(), SinkFailed>
    ensures { Prints printer.old printer.new (refusal_line file.now line column kind.now) result }
{
    parts(
        printer,
        &[
            Part::Plain("::error file="),
            Part::Property(file),
            Part::Plain(",line="),
            Part::Number(line),
            Part::Plain(",col="),
            Part::Number(column),
            Part::Plain(",title=jtap::"),
            Part::Message(kind),
            Part::Plain("\n"),
        ],
    )
}
