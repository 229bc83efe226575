//! Laws of reasons.
ghost use Rattle.std.specs.Prelude.{◌<◌, ℕ};
ghost use Rattle.iso_plan.specs.RowView.{tree_of};
ghost use Rattle.iso_why.specs.ReasonLaws.{GivesMode};
ghost use Rattle.iso_why.specs.ModeReasons.{reason};

use iso_plan::laws;
use iso_plan::plan::Plan;

/// The reason that is told of a node gives it its mode: who forces it stands above it and takes the
/// key for READ_WRITE; and where nothing does, who is marked with the mode is the node or stands
/// above it, or else there is no mark, and the default gives it.
pub fn reasons_give_the_mode(plan: &Plan)
    ensures { (n : ℕ) → 0 < n → GivesMode (tree_of plan.now) plan.now.settings n
        (reason (tree_of plan.now) plan.now.settings n) }
{
    laws::nodes_are_a_tree(plan);
}
