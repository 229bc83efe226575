//! The nodes of a plan, by any numbers.
ghost use Rattle.std.specs.Prelude.{◌≡◌, ◌<◌, ◌≤◌, [], MatchOption, false, length, slice_index_or, true};
ghost use Rattle.iso_floor.specs.Successions.{AreConcurrent};
ghost use Rattle.iso_model.specs.declared.script.Mode.TheVariants.{Concurrent, SameThread};
ghost use Rattle.iso_plan.specs.Modes.{mode};
ghost use Rattle.iso_plan.specs.Paths.{children, parent};
ghost use Rattle.iso_plan.specs.RowView.{tree_of};

use iso_model::script::Mode;
use iso_plan::plan::Plan;

/// Whether a node may run beside what its class's owner does.
pub(crate) fn is_concurrent(plan: &Plan, node: u32) -> bool
    ensures yes { result ≡ true → mode (tree_of plan.now) plan.now.settings node ≡ Concurrent }
    ensures no { node < length plan.now.rows → result ≡ false
        → mode (tree_of plan.now) plan.now.settings node ≡ SameThread }
{
    if node >= plan.len() {
        return false;
    }
    match plan.mode(node) {
        Mode::Concurrent => true,
        Mode::SameThread => false,
    }
}

/// The children of a class.
pub(crate) fn children_of(plan: &Plan, class: u32) -> &[u32]
    ensures children { class < length plan.now.rows
        → result.now ≡ children (tree_of plan.now) class }
    ensures past { length plan.now.rows ≤ class → result.now ≡ [] }
{
    if class < plan.len() {
        plan.children(class)
    } else {
        &[]
    }
}

/// The class of which a node is a child; the root's is the root.
pub(crate) fn parent_of(plan: &Plan, node: u32) -> u32
    ensures { 0 < node → node < length plan.now.rows → result ≡ parent (tree_of plan.now) node }
{
    if node < plan.len() {
        plan.parent(node).unwrap_or(0)
    } else {
        0
    }
}

/// The place of the first child, from a place on, that its class's owner alone may enter.
pub(crate) fn next_alone(plan: &Plan, children: &[u32], from: usize) -> Option<usize>
    ensures { MatchOption result
        (AreConcurrent plan.now children.now from (length children.now))
        (λ i. (i < length children.now) × AreConcurrent plan.now children.now from i
        × (slice_index_or children.now i 0 < length plan.now.rows
        → mode (tree_of plan.now) plan.now.settings (slice_index_or children.now i 0)
        ≡ SameThread)) }
{
    'children: for place in from..children.len() {
        if !is_concurrent(plan, children[place]) {
            return Some(place);
        }
    }
    None
}
