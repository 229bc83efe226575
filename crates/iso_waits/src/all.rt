//! The waits of all nodes.
ghost use Rattle.std.specs.Prelude.{◌≡◌, IfOk};
ghost use Rattle.iso_plan.specs.RowView.{tree_of};
ghost use Rattle.iso_waits.specs.AllWaits.{all_waits};

use crate::sums::{add_up, append};
use crate::wait::NodeWait;
use crate::waits::Waits;
use iso_plan::laws;
use iso_plan::plan::Plan;
use iso_times::times::Times;
use std::alloc::{AllocError, Global};

/// The waits of all nodes of a run of this plan, whose bodies had these times, one for each node
/// and key that it waited for: in the order of the nodes, and of each in the order of keys. The
/// single waits of a node are kept until they are added up; so this takes memory in proportion to
/// the nodes and their locks.
pub fn all_waits(alloc: Global, plan: &Plan, times: &Times) -> Result<Vec<NodeWait>, AllocError>
    ensures { IfOk result (λ v. v.items ≡ all_waits
        (tree_of plan.now) plan.now.settings times.now) }
{
    laws::nodes_are_a_tree(plan);
    let mut waits = Waits::new(alloc, plan, times)?;
    let mut sums = vec![in alloc; None; plan.key_count() as usize]?;
    let mut all = Vec::new(alloc);
    'nodes: for node in 1..plan.len() {
        let found = waits.waits(alloc, node)?;
        add_up(&mut sums, &waits, node, &found);
        append(&mut all, &sums, plan.locks(node), node)?;
    }
    Ok(all)
}
