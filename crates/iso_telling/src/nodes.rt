//! Which nodes a summary tells of.
ghost use Rattle.std.specs.Prelude.{◌≡◌, ◌<◌, All, IfOk, length};
ghost use Rattle.iso_lifecycle.specs.ResultViews.{AreComplete, outcome_in};
ghost use Rattle.iso_plan.specs.RowView.{tree_of};
ghost use Rattle.iso_summary.specs.Summaries.{IsNode};
ghost use Rattle.iso_telling.specs.ToldNodes.{is_told, told_nodes};

use crate::verdict::verdict;
use iso_lifecycle::results::Results;
use iso_lifecycle::view::ViewVerdict;
use iso_plan::laws;
use iso_plan::plan::Plan;
use std::alloc::{AllocError, Global};

/// The nodes that are told of, in the order in which they are written: those that failed, and
/// skipped tests where they are told of, too.
pub(crate) fn told_nodes(
    alloc: Global,
    plan: &Plan,
    results: &Results<'_>,
    skipped: bool,
) -> Result<Vec<u32>, AllocError>
    requires plan { results.now.plan ≡ plan.now }
    requires complete { AreComplete results.now }
    ensures told { IfOk result (λ v. v.items
        ≡ told_nodes (tree_of plan.now) (outcome_in results.now) skipped) }
    ensures nodes { IfOk result (λ v. All (IsNode plan.now) v.items) }
{
    laws::nodes_are_a_tree(plan);
    let mut told = Vec::new(alloc);
    'nodes: for node in 1..plan.len() {
        if is_told(plan, results, skipped, node) {
            told.push(node)?;
        }
    }
    Ok(told)
}

/// Whether a node is told of.
fn is_told(plan: &Plan, results: &Results<'_>, skipped: bool, node: u32) -> bool
    requires plan { results.now.plan ≡ plan.now }
    requires complete { AreComplete results.now }
    requires above { 0 < node }
    requires within { node < length plan.now.rows }
    ensures { result ≡ is_told (tree_of plan.now) (outcome_in results.now) skipped node }
{
    match verdict(results, node) {
        ViewVerdict::Fail(_) | ViewVerdict::Fault(_, _) => true,
        ViewVerdict::Skipped(_) => skipped && plan.is_test(node),
        ViewVerdict::Pass | ViewVerdict::Blocked(_) => false,
    }
}
