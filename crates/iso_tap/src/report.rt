//! The report of a run's results (TAP version 14).
ghost use Rattle.std.specs.Prelude.{◌≡◌, ◌<◌, ◌≤◌, ◌+◌, ◌*◌, [], IfOk, length};
ghost use Rattle.std.specs.List.{list_all};
ghost use Rattle.iso_lifecycle.specs.ResultViews.{AreComplete, outcome_in};
ghost use Rattle.iso_plan.specs.Paths.{children, row_at};
ghost use Rattle.iso_plan.specs.RowView.{tree_of};
ghost use Rattle.iso_tap.specs.Printers.{Writes, only};
ghost use Rattle.iso_tap.specs.Reports.{is_ok, level, report, reported, subtest};

use crate::buffered::BufferedPrinter;
use crate::fault::TapFault;
use crate::ok::{is_ok_verdict, outcome};
use crate::sink::{Sink, SinkFailed};
use iso_lifecycle::results::Results;
use iso_plan::laws;
use iso_plan::plan::Plan;

/// Writes the report of results (TAP version 14): the version, then the points of the plan's nodes
/// in order, a class's level before its point (subtests). A block stands under each point whose
/// node has something to tell (YAML diagnostics). All nodes but the root must have results. Takes
/// no memory.
///
/// The sink is asked again where it takes only some bytes, and no more once it has failed.
pub fn write_report<W: Sink>(
    plan: &Plan,
    results: &Results<'_>,
    sink: &mut W,
) -> Result<(), TapFault>
    requires plan { results.now.plan ≡ plan.now }
    requires complete { AreComplete results.now }
    ensures { Writes (W.account sink.old) (W.account sink.new)
        (report (tree_of plan.now) (outcome_in results.now)) result }
{
    let mut printer = BufferedPrinter::new(sink);
    match printer.report(plan, results) {
        Ok(()) => Ok(()),
        Err(_) => Err(TapFault {
            written: printer.written(),
        }),
    }
}

impl<'a, W: Sink> BufferedPrinter<'a, W> {
    ghost use Rattle.iso_tap.specs.Buffers.{Buffers, printer_of};
    ghost use Rattle.iso_tap.specs.Printers.{Prints};

    /// Writes a report.
    fn report(&mut self, plan: &Plan, results: &Results<'_>) -> Result<(), SinkFailed>
        requires plan { results.now.plan ≡ plan.now }
        requires complete { AreComplete results.now }
        requires empty { self.old.held.items ≡ [] }
        ensures { Prints (printer_of self.old) (printer_of self.new)
            (report (tree_of plan.now) (outcome_in results.now)) result }
    {
        self.levels(plan, results)?;
        self.flush()
    }

    /// Adds the version and all levels.
    fn levels(&mut self, plan: &Plan, results: &Results<'_>) -> Result<(), SinkFailed>
        requires plan { results.now.plan ≡ plan.now }
        requires complete { AreComplete results.now }
        ensures { Buffers self.old self.new
            (report (tree_of plan.now) (outcome_in results.now)) result }
    {
        laws::nodes_are_a_tree(plan);
        self.text_line(0, b"TAP version 14")?;
        self.level(plan, results, 0, 0)?;
        Ok(())
    }

    /// Adds the level of a node: its plan, and what is reported of its children. Tells whether all
    /// its children's points are ok.
    #[cycle(levels)]
    fn level(
        &mut self,
        plan: &Plan,
        results: &Results<'_>,
        indent: u64,
        node: u32,
    ) -> Result<bool, SinkFailed>
        requires plan { results.now.plan ≡ plan.now }
        requires complete { AreComplete results.now }
        requires within { node < length plan.now.rows }
        requires indent { indent ≤ 4 * node }
        ensures prints { Buffers self.old self.new
            (level indent (reported (tree_of plan.now) (outcome_in results.now) indent)
            (children (tree_of plan.now) node)) (only result) }
        ensures ok { IfOk result (λ ok. ok ≡ list_all (is_ok (tree_of plan.now)
            (outcome_in results.now)) (children (tree_of plan.now) node)) }
    {
        laws::nodes_are_a_tree(plan);
        let children = plan.children(node);
        self.plan_line(indent, children.len())?;
        let mut all_ok = true;
        'children: for (i, child) in children.iter().enumerate() {
            let ok = self.reported(plan, results, indent, i as u64 + 1, *child)?;
            all_ok &= ok;
        }
        Ok(all_ok)
    }

    /// Adds what is reported of a node, which has this number in its level. Tells whether its
    /// point is ok.
    #[cycle(levels)]
    fn reported(
        &mut self,
        plan: &Plan,
        results: &Results<'_>,
        indent: u64,
        number: u64,
        node: u32,
    ) -> Result<bool, SinkFailed>
        requires plan { results.now.plan ≡ plan.now }
        requires complete { AreComplete results.now }
        requires above { 0 < node }
        requires within { node < length plan.now.rows }
        requires indent { indent + 4 ≤ 4 * node }
        ensures prints { Buffers self.old self.new
            (reported (tree_of plan.now) (outcome_in results.now) indent number node)
            (only result) }
        ensures ok { IfOk result
            (λ ok. ok ≡ is_ok (tree_of plan.now) (outcome_in results.now) node) }
    {
        laws::nodes_are_a_tree(plan);
        let children_ok = self.subtest(plan, results, indent, node)?;
        let outcome = outcome(results, node);
        let ok = is_ok_verdict(outcome.verdict) & children_ok;
        self.point(indent, number, ok, plan.title(node), outcome)?;
        Ok(ok)
    }

    /// Adds the level of a class, with its comment above. Tells whether all its children's points
    /// are ok; a test has none.
    #[cycle(levels)]
    fn subtest(
        &mut self,
        plan: &Plan,
        results: &Results<'_>,
        indent: u64,
        node: u32,
    ) -> Result<bool, SinkFailed>
        requires plan { results.now.plan ≡ plan.now }
        requires complete { AreComplete results.now }
        requires within { node < length plan.now.rows }
        requires indent { indent + 4 ≤ 4 * node }
        ensures prints { Buffers self.old self.new
            (subtest indent (row_at (tree_of plan.now) node)
            (reported (tree_of plan.now) (outcome_in results.now) (indent + 4))
            (children (tree_of plan.now) node)) (only result) }
        ensures ok { IfOk result (λ ok. ok ≡ list_all (is_ok (tree_of plan.now)
            (outcome_in results.now)) (children (tree_of plan.now) node)) }
    {
        laws::nodes_are_a_tree(plan);
        if plan.is_test(node) {
            return Ok(true);
        }
        self.subtest_line(indent, plan.title(node))?;
        self.level(plan, results, indent + 4, node)
    }
}
