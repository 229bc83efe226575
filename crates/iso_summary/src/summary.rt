//! The summary of a run.
ghost use Rattle.std.specs.Prelude.{◌≡◌, ◌<◌, All, length, map};
ghost use Rattle.iso_lifecycle.specs.ResultViews.{AreComplete, outcome_in, verdict_of_view};
ghost use Rattle.iso_plan.specs.RowView.{tree_of};
ghost use Rattle.iso_summary.specs.Summaries.{IsNode, counts_line, entry_text, summary_text};
ghost use Rattle.iso_summary.specs.Views.{again_of, located_of};
ghost use Rattle.iso_tap.specs.Printers.{Prints, Writes};

use crate::again::Again;
use crate::entry::{failure, skipped};
use crate::line::line;
use crate::located::Located;
use crate::part::Part;
use iso_failures::blocked::blocked_by;
use iso_failures::counts::{Counts, count};
use iso_lifecycle::results::Results;
use iso_lifecycle::view::ViewVerdict;
use iso_plan::plan::Plan;
use iso_tap::fault::TapFault;
use iso_tap::printer::Printer;
use iso_tap::sink::{Sink, SinkFailed};

/// Writes the summary of results: an entry for each of these nodes, in their order, and a last line
/// with the counts of all tests and classes. An entry of a node that failed, by a fault or blocked
/// too, has its path, its place and message, the line of the script, what mends it, how many tests
/// it blocks where it blocks any, and the command that runs it again where that can be told; of a
/// skipped one its path, its place and why; of a node that passed there is none. Each node has its
/// place at the same index. All nodes but the root must have results. Takes no memory.
///
/// The sink is asked again where it takes only some bytes, and no more once it has failed.
pub fn write_summary<W: Sink>(
    plan: &Plan,
    results: &Results<'_>,
    nodes: &[u32],
    places: &[Located<'_>],
    again: &Again<'_>,
    sink: &mut W,
) -> Result<(), TapFault>
    requires plan { results.now.plan ≡ plan.now }
    requires complete { AreComplete results.now }
    requires nodes { All (IsNode plan.now) nodes.now }
    requires places { length places.now ≡ length nodes.now }
    ensures { Writes (W.account sink.old) (W.account sink.new)
        (summary_text (tree_of plan.now) (outcome_in results.now) (again_of again.now) nodes.now
        (map located_of places.now)) result }
{
    let mut printer = Printer::new(sink);
    match summary(&mut printer, plan, results, nodes, places, again) {
        Ok(()) => Ok(()),
        Err(_) => Err(TapFault {
            written: printer.written(),
        }),
    }
}

/// Writes a summary.
fn summary<W: Sink>(
    printer: &mut Printer<'_, W>,
    plan: &Plan,
    results: &Results<'_>,
    nodes: &[u32],
    places: &[Located<'_>],
    again: &Again<'_>,
) -> Result<(), SinkFailed>
    requires plan { results.now.plan ≡ plan.now }
    requires complete { AreComplete results.now }
    requires nodes { All (IsNode plan.now) nodes.now }
    requires places { length places.now ≡ length nodes.now }
    ensures { Prints printer.old printer.new
        (summary_text (tree_of plan.now) (outcome_in results.now) (again_of again.now) nodes.now
        (map located_of places.now)) result }
{
    'nodes: for (i, node) in nodes.iter().enumerate() {
        entry(printer, plan, results, *node, &places[i], again)?;
    }
    counts(printer, count(plan, results))
}

/// Writes what is told of a node.
fn entry<W: Sink>(
    printer: &mut Printer<'_, W>,
    plan: &Plan,
    results: &Results<'_>,
    node: u32,
    at: &Located<'_>,
    again: &Again<'_>,
) -> Result<(), SinkFailed>
    requires plan { results.now.plan ≡ plan.now }
    requires complete { AreComplete results.now }
    requires above { 0 < node }
    requires within { node < length plan.now.rows }
    ensures { Prints printer.old printer.new
        (entry_text (tree_of plan.now) (outcome_in results.now) (again_of again.now) node
        (located_of at.now)) result }
{
    match verdict(results, node) {
        ViewVerdict::Pass => Ok(()),
        ViewVerdict::Skipped(note) => skipped(printer, plan, node, at, note.message.as_str()),
        ViewVerdict::Fail(note) | ViewVerdict::Fault(_, note) | ViewVerdict::Blocked(note) => {
            let blocked = blocked_by(plan, results, node);
            failure(
                printer,
                plan,
                node,
                at,
                note.message.as_str(),
                blocked,
                again,
            )
        }
    }
}

/// The verdict of a node.
fn verdict<'r>(results: &'r Results<'_>, node: u32) -> ViewVerdict<'r>
    requires complete { AreComplete results.now }
    requires above { 0 < node }
    requires within { node < length results.now.plan.rows }
    ensures { verdict_of_view result ≡ (outcome_in results.now node).verdict }
{
    results.get(node).unwrap().verdict
}

/// Writes the last line.
fn counts<W: Sink>(printer: &mut Printer<'_, W>, counts: Counts) -> Result<(), SinkFailed>
    ensures { Prints printer.old printer.new (counts_line counts) result }
{
    line(
        printer,
        &[
            Part::Counted(counts.tests, " test", " tests"),
            Part::Plain(" in "),
            Part::Counted(counts.classes, " class", " classes"),
            Part::Plain(": "),
            Part::Number(counts.ok),
            Part::Plain(" ok, "),
            Part::Number(counts.skipped),
            Part::Plain(" skipped, "),
            Part::Number(counts.not_ok),
            Part::Plain(" not ok, "),
            Part::Number(counts.blocked),
            Part::Plain(" blocked"),
            Part::FailedClasses(counts.classes_not_ok),
        ],
    )
}
