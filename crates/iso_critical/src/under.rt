//! What classes have in them.
ghost use Rattle.std.specs.Prelude.{◌≡◌, ◌<◌, length};
ghost use Rattle.iso_plan.specs.Paths.{is_under, parent};
ghost use Rattle.iso_plan.specs.RowView.{tree_of};

use iso_plan::laws;
use iso_plan::plan::Plan;

/// Whether a node is this class or a descendant of it.
pub(crate) fn is_under(plan: &Plan, class: u32, node: u32) -> bool
    requires { node < length plan.now.rows }
    ensures { result ≡ is_under (tree_of plan.now) class node }
{
    laws::parents_come_first(plan);
    laws::paths_lead_up(plan);
    let mut at = node;
    'up: while at > 0 {
        if at == class {
            return true;
        }
        at = class_of(plan, at);
    }
    false
}

/// A node's parent, a class or the root.
fn class_of(plan: &Plan, node: u32) -> u32
    requires above { 0 < node }
    requires within { node < length plan.now.rows }
    ensures { result ≡ parent (tree_of plan.now) node }
{
    match plan.parent(node) {
        Some(class) => class,
        None => 0,
    }
}
