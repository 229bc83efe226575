//! The paths of what failed, as a text.
ghost use Rattle.std.specs.Prelude.{◌≡◌, ◌<◌, [], cond, length};
ghost use Rattle.iso_failures.specs.Failures.{failed_text, is_failure, path_line};
ghost use Rattle.iso_lifecycle.specs.ResultViews.{AreComplete, outcome_in};
ghost use Rattle.iso_plan.specs.RowView.{tree_of};
ghost use Rattle.iso_tap.specs.Printers.{Prints, Writes};

use crate::node::is_failure;
use iso_lifecycle::results::Results;
use iso_plan::laws;
use iso_plan::plan::Plan;
use iso_tap::fault::TapFault;
use iso_tap::printer::Printer;
use iso_tap::sink::{Sink, SinkFailed};

/// Writes the path of each node that failed, as `jtap plan` prints it, in the order in which the
/// nodes are written, each with a line feed after it. All nodes but the root must have results.
/// Takes no memory.
///
/// The sink is asked again where it takes only some bytes, and no more once it has failed.
pub fn write_failed<W: Sink>(
    plan: &Plan,
    results: &Results<'_>,
    sink: &mut W,
) -> Result<(), TapFault>
    requires plan { results.now.plan ≡ plan.now }
    requires complete { AreComplete results.now }
    ensures { Writes (W.account sink.old) (W.account sink.new)
        (failed_text (tree_of plan.now) (outcome_in results.now)) result }
{
    let mut printer = Printer::new(sink);
    match lines(&mut printer, plan, results) {
        Ok(()) => Ok(()),
        Err(_) => Err(TapFault {
            written: printer.written(),
        }),
    }
}

/// Writes the line of each node that failed.
fn lines<W: Sink>(
    printer: &mut Printer<'_, W>,
    plan: &Plan,
    results: &Results<'_>,
) -> Result<(), SinkFailed>
    requires plan { results.now.plan ≡ plan.now }
    requires complete { AreComplete results.now }
    ensures { Prints printer.old printer.new
        (failed_text (tree_of plan.now) (outcome_in results.now)) result }
{
    laws::nodes_are_a_tree(plan);
    'nodes: for node in 1..plan.len() {
        line(printer, plan, results, node)?;
    }
    Ok(())
}

/// Writes the line of a node that failed, and nothing of another.
fn line<W: Sink>(
    printer: &mut Printer<'_, W>,
    plan: &Plan,
    results: &Results<'_>,
    node: u32,
) -> Result<(), SinkFailed>
    requires plan { results.now.plan ≡ plan.now }
    requires complete { AreComplete results.now }
    requires above { 0 < node }
    requires within { node < length plan.now.rows }
    ensures { Prints printer.old printer.new
        (cond (is_failure (outcome_in results.now) node) (path_line (tree_of plan.now) node) [])
        result }
{
    if !is_failure(results, node) {
        return Ok(());
    }
    printer.path(plan, node)?;
    printer.bytes(b"\n")
}
