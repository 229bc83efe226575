//! The nodes that failed.
ghost use Rattle.std.specs.Prelude.{◌≡◌, IfOk};
ghost use Rattle.iso_failures.specs.Failures.{failures};
ghost use Rattle.iso_lifecycle.specs.ResultViews.{AreComplete, outcome_in};
ghost use Rattle.iso_plan.specs.RowView.{tree_of};

use crate::node::is_failure;
use iso_lifecycle::results::Results;
use iso_plan::laws;
use iso_plan::plan::Plan;
use std::alloc::{AllocError, Global};

/// For a runner of one's own: the nodes that failed, in the order in which they are written. These
/// are each test and each class whose own verdict is a fail or a fault. A class's own verdict is
/// that of its own blocks. Descendants of a class that wasn't opened well are blocked or skipped,
/// and none of these. All nodes but the root must have results.
pub fn failures(alloc: Global, plan: &Plan, results: &Results<'_>) -> Result<Vec<u32>, AllocError>
    requires plan { results.now.plan ≡ plan.now }
    requires complete { AreComplete results.now }
    ensures { IfOk result (λ v. v.items ≡ failures (tree_of plan.now) (outcome_in results.now)) }
{
    laws::nodes_are_a_tree(plan);
    let mut failures = Vec::new(alloc);
    'nodes: for node in 1..plan.len() {
        if is_failure(results, node) {
            failures.push(node)?;
        }
    }
    Ok(failures)
}
