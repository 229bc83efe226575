//! How many tests a failed class blocks.
ghost use Rattle.std.specs.Prelude.{◌≡◌, ◌<◌, length};
ghost use Rattle.iso_failures.specs.BlockedInside.{blocked_at, blocked_within};
ghost use Rattle.iso_failures.specs.Blocking.{blocked_by};
ghost use Rattle.iso_failures.specs.Nodes.{is_test_with, was_blocked};
ghost use Rattle.iso_lifecycle.specs.ResultViews.{AreComplete, outcome_in};
ghost use Rattle.iso_plan.specs.RowView.{tree_of};

use crate::node::{is_failure, nodes_are_countable, verdict};
use iso_lifecycle::results::Results;
use iso_lifecycle::view::ViewVerdict;
use iso_plan::laws;
use iso_plan::plan::Plan;

/// How many tests a class blocks: the blocked tests in it that no failed class nearer to them
/// blocks. A node that didn't fail blocks none. All nodes but the root must have results. It looks
/// at each node in the class once at most, and takes no memory.
pub fn blocked_by(plan: &Plan, results: &Results<'_>, class: u32) -> u32
    requires plan { results.now.plan ≡ plan.now }
    requires complete { AreComplete results.now }
    requires within { class < length plan.now.rows }
    ensures { result ≡ blocked_by (tree_of plan.now) (outcome_in results.now) class }
{
    if class > 0 && is_failure(results, class) {
        blocked_within(plan, results, class)
    } else {
        0
    }
}

/// How many descendants of a node are blocked tests, without those in a failed class in it.
#[cycle(blocking)]
fn blocked_within(plan: &Plan, results: &Results<'_>, node: u32) -> u32
    requires plan { results.now.plan ≡ plan.now }
    requires complete { AreComplete results.now }
    requires above { 0 < node }
    requires within { node < length plan.now.rows }
    ensures { result ≡ blocked_within (tree_of plan.now) (outcome_in results.now) node }
{
    laws::nodes_are_a_tree(plan);
    nodes_are_countable(plan);
    let mut count = 0;
    'children: for child in plan.children(node) {
        count += blocked_at(plan, results, *child);
    }
    count
}

/// How many blocked tests a node is or has in it, where it didn't fail.
#[cycle(blocking)]
fn blocked_at(plan: &Plan, results: &Results<'_>, node: u32) -> u32
    requires plan { results.now.plan ≡ plan.now }
    requires complete { AreComplete results.now }
    requires above { 0 < node }
    requires within { node < length plan.now.rows }
    ensures { result ≡ blocked_at (tree_of plan.now) (outcome_in results.now) node }
{
    laws::nodes_are_a_tree(plan);
    nodes_are_countable(plan);
    if is_failure(results, node) {
        return 0;
    }
    let inside = blocked_within(plan, results, node);
    if is_blocked_test(plan, results, node) {
        inside + 1
    } else {
        inside
    }
}

/// Whether a node is a test that is blocked.
fn is_blocked_test(plan: &Plan, results: &Results<'_>, node: u32) -> bool
    requires plan { results.now.plan ≡ plan.now }
    requires complete { AreComplete results.now }
    requires above { 0 < node }
    requires within { node < length plan.now.rows }
    ensures { result ≡ is_test_with (tree_of plan.now) (outcome_in results.now) was_blocked node }
{
    plan.is_test(node) && matches!(verdict(results, node), ViewVerdict::Blocked(_))
}
