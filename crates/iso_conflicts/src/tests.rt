//! How many tests are descendants of each node.
ghost use Rattle.std.specs.Prelude.{◌≡◌, ◌<◌, ◌+◌, ◌^◌, ℕ, IfOk, cond, length, slice_index_or};
ghost use Rattle.iso_conflicts.specs.Chains.{tests_in};
ghost use Rattle.iso_plan.specs.Paths.{column, is_test, is_under, parent, row_at};
ghost use Rattle.iso_plan.specs.RowView.{tree_of};

use iso_plan::laws;
use iso_plan::plan::Plan;
use std::alloc::{AllocError, Global};

/// How many tests each node is or has in it, by its number; 0 for the root, which counts for none.
/// Takes memory for one number a node, which may be refused.
pub fn tests_in(alloc: Global, plan: &Plan) -> Result<Vec<u32>, AllocError>
    ensures { IfOk result (λ v. v.items ≡ column (tests_in (tree_of plan.now))
        (length plan.now.rows)) }
{
    laws::nodes_are_a_tree(plan);
    let mut counts = vec![in alloc; 0; plan.len() as usize]?;
    'nodes: for node in 1..plan.len() {
        count_node(&mut counts, plan, node);
    }
    Ok(counts)
}

/// Counts a node, where it is a test, for each node of which it is a descendant.
fn count_node(counts: &mut Vec<u32>, plan: &Plan, node: u32)
    requires within { node < length plan.now.rows }
    requires each { length counts.old.items ≡ length plan.now.rows }
    requires fits { (m : ℕ) → slice_index_or counts.old.items m 0 < node }
    ensures counted { (m : ℕ) → slice_index_or counts.new.items m 0
        ≡ slice_index_or counts.old.items m 0
        + cond (is_test (row_at (tree_of plan.now) node).kind)
        (cond (is_under (tree_of plan.now) m node) 1 0) 0 }
    ensures each { length counts.new.items ≡ length plan.now.rows }
{
    if plan.is_test(node) {
        count_up(counts, plan, node);
    }
}

/// Counts one test more in each node of a path.
fn count_up(counts: &mut Vec<u32>, plan: &Plan, test: u32)
    requires within { test < length plan.now.rows }
    requires each { length counts.old.items ≡ length plan.now.rows }
    requires fits { (m : ℕ) → slice_index_or counts.old.items m 0 < test }
    ensures counted { (m : ℕ) → slice_index_or counts.new.items m 0
        ≡ slice_index_or counts.old.items m 0 + cond (is_under (tree_of plan.now) m test) 1 0 }
    ensures each { length counts.new.items ≡ length plan.now.rows }
{
    laws::parents_come_first(plan);
    laws::paths_lead_up(plan);
    let mut node = test;
    'up: while node > 0 {
        counts[node as usize] += 1;
        node = class_of(plan, node);
    }
}

/// The class of which a node is a child, or the root.
fn class_of(plan: &Plan, node: u32) -> u32
    requires above { 0 < node }
    requires within { node < length plan.now.rows }
    ensures { result ≡ parent (tree_of plan.now) node }
{
    plan.parent(node).unwrap_or(0)
}

/// A plan has fewer nodes than 32 bits number.
pub(crate) fn hold_few_nodes(plan: &Plan)
    ensures { length plan.now.rows < 2 ^ 32 }
{
    let _nodes = plan.len();
}
