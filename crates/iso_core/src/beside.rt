//! What is entered beside a node. The function does nothing: its contract is the law, and is
//! proved.
ghost use Rattle.std.specs.Prelude.{◌≡◌, ℕ, Some, true};
ghost use Rattle.iso_core.specs.FlatMaps.{FlatView, IsFlatOf, IsInnermost};
ghost use Rattle.iso_isolation.specs.Events as E;
ghost use Rattle.iso_isolation.specs.States.{body_in, is_waiting};
ghost use Rattle.iso_model.specs.Bodies.{Stage};
ghost use Rattle.iso_settings.specs.Worlds.{Start};
ghost use Rattle.iso_suites.specs.ScriptLanguage.{scripts};
ghost use Rattle.iso_suites.specs.SuiteStates.{RunState, IsReached, suite_at};

use iso_plan::laws;
use iso_plan::plan::Plan;

/// What is entered beside a node: where a node is entered, or its last body has ended, each other
/// entered node that may change a key which this one may change stands above it.
pub(crate) fn entered_nodes_are_apart(plan: &Plan)
    ensures enter { (world : Start) (v : FlatView) (s : RunState) (w n : ℕ)
        → IsReached plan.now world s → v.tray.plan ≡ plan.now → IsFlatOf v s.nodes
        → IsReached plan.now world (E.after scripts (suite_at plan.now world) s (E.Enter w n))
        → is_waiting (s.nodes.status n) ≡ true → IsInnermost v n }
    ensures leave { (world : Start) (v : FlatView) (s : RunState) (n : ℕ) (b : Stage)
        → IsReached plan.now world s → v.tray.plan ≡ plan.now → IsFlatOf v s.nodes
        → body_in (s.nodes.status n) ≡ Some b → IsInnermost v n }
{
    laws::nodes_are_a_tree(plan);
}
