//! Which points of a report are ok.
ghost use Rattle.std.specs.Prelude.{◌≡◌, ◌<◌, length};
ghost use Rattle.std.specs.List.{list_all};
ghost use Rattle.iso_lifecycle.specs.ResultViews.{AreComplete, outcome_in, outcome_of_view, verdict_of_view};
ghost use Rattle.iso_plan.specs.Paths.{children};
ghost use Rattle.iso_plan.specs.RowView.{tree_of};
ghost use Rattle.iso_tap.specs.ReportLines.{is_ok_verdict};
ghost use Rattle.iso_tap.specs.Reports.{all_ok, is_ok};

use iso_lifecycle::results::Results;
use iso_lifecycle::view::{View, ViewVerdict};
use iso_plan::laws;
use iso_plan::plan::Plan;

/// Whether all points of the report are ok: a test's where it passed or was skipped, a class's
/// where its own verdict is one of these and all its children's points are ok. Takes no memory.
pub fn all_ok(plan: &Plan, results: &Results<'_>) -> bool
    requires plan { results.now.plan ≡ plan.now }
    requires complete { AreComplete results.now }
    ensures { result ≡ all_ok (tree_of plan.now) (outcome_in results.now) }
{
    laws::nodes_are_a_tree(plan);
    children_are_ok(plan, results, 0)
}

/// Whether the points of all children of a node are ok.
#[cycle(being_ok)]
fn children_are_ok(plan: &Plan, results: &Results<'_>, node: u32) -> bool
    requires plan { results.now.plan ≡ plan.now }
    requires complete { AreComplete results.now }
    requires within { node < length plan.now.rows }
    ensures { result ≡ list_all (is_ok (tree_of plan.now) (outcome_in results.now))
        (children (tree_of plan.now) node) }
{
    laws::nodes_are_a_tree(plan);
    'children: for child in plan.children(node) {
        if !is_ok(plan, results, *child) {
            return false;
        }
    }
    true
}

/// Whether the point of a node is ok.
#[cycle(being_ok)]
pub fn is_ok(plan: &Plan, results: &Results<'_>, node: u32) -> bool
    requires plan { results.now.plan ≡ plan.now }
    requires complete { AreComplete results.now }
    requires above { 0 < node }
    requires within { node < length plan.now.rows }
    ensures { result ≡ is_ok (tree_of plan.now) (outcome_in results.now) node }
{
    laws::nodes_are_a_tree(plan);
    is_ok_verdict(outcome(results, node).verdict) && children_are_ok(plan, results, node)
}

/// What a node came to.
pub(crate) fn outcome<'r>(results: &'r Results<'_>, node: u32) -> View<'r>
    requires complete { AreComplete results.now }
    requires above { 0 < node }
    requires within { node < length results.now.plan.rows }
    ensures { outcome_of_view result ≡ outcome_in results.now node }
{
    results.get(node).unwrap()
}

/// Whether a verdict by itself lets a point be ok.
pub(crate) fn is_ok_verdict(verdict: ViewVerdict<'_>) -> bool
    ensures { result ≡ is_ok_verdict (verdict_of_view verdict.entry) }
{
    matches!(verdict, ViewVerdict::Pass | ViewVerdict::Skipped(_))
}
