//! What a run came to, as JUnit XML.
ghost use Rattle.std.specs.Prelude.{◌≡◌, length, map};
ghost use Rattle.iso_junit.specs.Documents.{document_head, junit_text};
ghost use Rattle.iso_junit.specs.Runs.{placed_of, run_of};
ghost use Rattle.iso_lifecycle.specs.ResultViews.{AreComplete, outcome_in};
ghost use Rattle.iso_plan.specs.RowView.{tree_of};
ghost use Rattle.iso_tap.specs.Printers.{Prints, Writes};

use crate::count::count_all;
use crate::part::Part;
use crate::placed::Placed;
use crate::run::Run;
use crate::suite::suite;
use crate::tally::Tally;
use crate::writing::parts;
use iso_lifecycle::results::Results;
use iso_plan::laws;
use iso_plan::plan::Plan;
use iso_tap::fault::TapFault;
use iso_tap::printer::Printer;
use iso_tap::sink::{Sink, SinkFailed};

/// Writes results as JUnit XML: a testsuite for each class that has tests or whose own blocks
/// failed or printed, in the order in which they are written, with a testcase for each test in it,
/// and one for the class where its own blocks failed. All nodes but the root must have results.
/// Each node, the root too, has its place at its number. So have times, in microseconds: what isn't
/// there wasn't measured. Takes no memory.
///
/// The sink is asked again where it takes only some bytes, and no more once it has failed.
pub fn write_junit<W: Sink>(
    plan: &Plan,
    results: &Results<'_>,
    places: &[Placed<'_>],
    times: &[Option<u64>],
    sink: &mut W,
) -> Result<(), TapFault>
    requires plan { results.now.plan ≡ plan.now }
    requires complete { AreComplete results.now }
    requires places { length places.now ≡ length plan.now.rows }
    ensures { Writes (W.account sink.old) (W.account sink.new) (junit_text (record {
      tree = tree_of plan.now;
      outcome = outcome_in results.now;
      places = map placed_of places.now;
      times = times.now;
    })) result }
{
    let run = Run {
        plan,
        results,
        places,
        times,
    };
    let mut printer = Printer::new(sink);
    match document(&mut printer, &run) {
        Ok(()) => Ok(()),
        Err(_) => Err(TapFault {
            written: printer.written(),
        }),
    }
}

/// Writes the document.
fn document<W: Sink>(printer: &mut Printer<'_, W>, run: &Run<'_, '_>) -> Result<(), SinkFailed>
    requires complete { AreComplete run.now.results.now }
    ensures { Prints printer.old printer.new (junit_text (run_of run.now)) result }
{
    laws::nodes_are_a_tree(run.plan);
    head(printer, count_all(run))?;
    'nodes: for node in 1..run.plan.len() {
        suite(printer, run, node)?;
    }
    printer.bytes(b"</testsuites>\n")
}

/// Writes the beginning of a document with these counts.
fn head<W: Sink>(printer: &mut Printer<'_, W>, counts: Tally) -> Result<(), SinkFailed>
    ensures { Prints printer.old printer.new (document_head counts) result }
{
    parts(
        printer,
        &[
            Part::Plain("<?xml version=\"1.0\" encoding=\"UTF-8\"?>\n<testsuites name=\"jtap\""),
            Part::Counts(counts),
            Part::Plain(">\n"),
        ],
    )
}
