//! Where a node stands, and how far its descendants go.
ghost use Rattle.std.specs.Prelude.{◌≡◌, ◌<◌, ◌≤◌, ◌+◌, ◌^◌, ℕ, true, IfOk, length, slice_index_or};
ghost use Rattle.iso_plan.specs.Paths.{is_under, parent};
ghost use Rattle.iso_plan.specs.RowView.{tree_of};
ghost use Rattle.iso_why.specs.Reach.{IsReach};

use iso_plan::laws;
use iso_plan::plan::Plan;
use std::alloc::{AllocError, Global};

/// For each node but the root a number past its own and those of all its descendants. Takes memory
/// for one number a node, which may be refused.
pub fn reach(alloc: Global, plan: &Plan) -> Result<Vec<u32>, AllocError>
    ensures { IfOk result (λ v. IsReach (tree_of plan.now) v.items) }
{
    laws::nodes_are_a_tree(plan);
    let mut ends = vec![in alloc; 0; plan.len() as usize]?;
    'nodes: for node in 1..plan.len() {
        reach_to(&mut ends, plan, node);
    }
    Ok(ends)
}

/// Has each node of a path reach past its end, where none reaches further yet.
fn reach_to(ends: &mut Vec<u32>, plan: &Plan, last: u32)
    requires within { last < length plan.now.rows }
    requires few { length plan.now.rows < 2 ^ 32 }
    requires each { length ends.old.items ≡ length plan.now.rows }
    requires before { (m : ℕ) → slice_index_or ends.old.items m 0 ≤ last }
    ensures each { length ends.new.items ≡ length plan.now.rows }
    ensures before { (m : ℕ) → slice_index_or ends.new.items m 0 ≤ last + 1 }
    ensures grows { (m : ℕ) → slice_index_or ends.old.items m 0
        ≤ slice_index_or ends.new.items m 0 }
    ensures reached { (m : ℕ) → is_under (tree_of plan.now) m last ≡ true
        → last < slice_index_or ends.new.items m 0 }
{
    laws::parents_come_first(plan);
    laws::paths_lead_up(plan);
    let mut node = last;
    'up: while node > 0 {
        ends[node as usize] = last + 1;
        node = class_of(plan, node);
    }
}

/// Whether a node is another, or a descendant of it.
pub(crate) fn stands_in(plan: &Plan, node: u32, other: u32) -> bool
    requires above { 0 < other }
    requires within { node < length plan.now.rows }
    ensures { result ≡ is_under (tree_of plan.now) other node }
{
    laws::parents_come_first(plan);
    laws::paths_lead_up(plan);
    let mut node = node;
    'up: while node > other {
        node = class_of(plan, node);
    }
    node == other
}

/// A node's parent, a class or the root.
pub(crate) fn class_of(plan: &Plan, node: u32) -> u32
    requires above { 0 < node }
    requires within { node < length plan.now.rows }
    ensures { result ≡ parent (tree_of plan.now) node }
{
    plan.parent(node).unwrap_or(0)
}
