//! Testsuites.
ghost use Rattle.std.specs.Prelude.{◌≡◌, ◌<◌, [], cond, flat_map, length};
ghost use Rattle.iso_junit.specs.Cases.{cases, failed_itself, is_a_test, is_suite};
ghost use Rattle.iso_junit.specs.Documents.{case_text, suite_head, suite_text};
ghost use Rattle.iso_junit.specs.Runs.{run_of};
ghost use Rattle.iso_junit.specs.Tallies.{tally};
ghost use Rattle.iso_lifecycle.specs.ResultViews.{AreComplete};
ghost use Rattle.iso_plan.specs.PathTexts.{path_text};
ghost use Rattle.iso_plan.specs.RowView.{tree_of};
ghost use Rattle.iso_tap.specs.Printers.{Prints};

use crate::case::case;
use crate::count::{count, failed_itself};
use crate::output::{output, printed_nothing};
use crate::part::Part;
use crate::run::Run;
use crate::tally::Tally;
use crate::writing::parts_with_path;
use iso_plan::laws;
use iso_plan::plan::Plan;
use iso_tap::printer::Printer;
use iso_tap::sink::{Sink, SinkFailed};

/// Writes the testsuite of a class, and nothing of a class that has none and of a test.
pub(crate) fn suite<W: Sink>(
    printer: &mut Printer<'_, W>,
    run: &Run<'_, '_>,
    node: u32,
) -> Result<(), SinkFailed>
    requires complete { AreComplete run.now.results.now }
    requires above { 0 < node }
    requires within { node < length run.now.plan.now.rows }
    ensures { Prints printer.old printer.new
        (cond (is_suite (run_of run.now) node) (suite_text (run_of run.now) node) []) result }
{
    let counts = count(run, node);
    if !is_suite(run, node, counts) {
        return Ok(());
    }
    head(printer, run.plan, node, counts)?;
    cases(printer, run, node)?;
    output(printer, "    ", run.plan, node, run.view(node))?;
    printer.bytes(b"  </testsuite>\n")
}

/// Whether a node with these counts has a testsuite.
fn is_suite(run: &Run<'_, '_>, node: u32, counts: Tally) -> bool
    requires complete { AreComplete run.now.results.now }
    requires above { 0 < node }
    requires within { node < length run.now.plan.now.rows }
    requires counts { counts ≡ tally (run_of run.now) (cases (run_of run.now) node) }
    ensures { result ≡ is_suite (run_of run.now) node }
{
    !run.plan.is_test(node) && !(counts.tests == 0 && printed_nothing(run.view(node)))
}

/// Writes the beginning of the testsuite of a class with these counts.
fn head<W: Sink>(
    printer: &mut Printer<'_, W>,
    plan: &Plan,
    class: u32,
    counts: Tally,
) -> Result<(), SinkFailed>
    requires above { 0 < class }
    requires within { class < length plan.now.rows }
    ensures { Prints printer.old printer.new
        (suite_head (path_text (tree_of plan.now) class) counts) result }
{
    parts_with_path(
        printer,
        &[Part::Plain("  <testsuite name=\"")],
        plan,
        class,
        &[Part::Plain("\""), Part::Counts(counts), Part::Plain(">\n")],
    )
}

/// Writes the testcases of a class.
fn cases<W: Sink>(
    printer: &mut Printer<'_, W>,
    run: &Run<'_, '_>,
    class: u32,
) -> Result<(), SinkFailed>
    requires complete { AreComplete run.now.results.now }
    requires above { 0 < class }
    requires within { class < length run.now.plan.now.rows }
    ensures { Prints printer.old printer.new
        (flat_map (case_text (run_of run.now) class) (cases (run_of run.now) class)) result }
{
    laws::nodes_are_a_tree(run.plan);
    own_case(printer, run, class)?;
    'children: for child in run.plan.children(class) {
        test_case(printer, run, class, *child)?;
    }
    Ok(())
}

/// Writes a class's own testcase, where its own blocks failed.
fn own_case<W: Sink>(
    printer: &mut Printer<'_, W>,
    run: &Run<'_, '_>,
    class: u32,
) -> Result<(), SinkFailed>
    requires complete { AreComplete run.now.results.now }
    requires above { 0 < class }
    requires within { class < length run.now.plan.now.rows }
    ensures { Prints printer.old printer.new
        (cond (failed_itself (run_of run.now) class) (case_text (run_of run.now) class class) [])
        result }
{
    if !failed_itself(run, class) {
        return Ok(());
    }
    case(printer, run, class, class)
}

/// Writes the testcase of a child of a class, where it is a test.
fn test_case<W: Sink>(
    printer: &mut Printer<'_, W>,
    run: &Run<'_, '_>,
    class: u32,
    node: u32,
) -> Result<(), SinkFailed>
    requires complete { AreComplete run.now.results.now }
    requires class { 0 < class }
    requires inside { class < length run.now.plan.now.rows }
    requires above { 0 < node }
    requires within { node < length run.now.plan.now.rows }
    ensures { Prints printer.old printer.new
        (cond (is_a_test (run_of run.now) node) (case_text (run_of run.now) class node) []) result }
{
    if !run.plan.is_test(node) {
        return Ok(());
    }
    case(printer, run, class, node)
}
