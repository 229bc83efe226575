//! Laws of what is told of keys.
ghost use Rattle.std.specs.Prelude.{◌≡◌, ◌<◌, ℕ, [], length, slice_index_or};
ghost use Rattle.iso_conflicts.specs.Takers.{is_as, takes};
ghost use Rattle.iso_model.specs.declared.access.Access.{Access};
ghost use Rattle.iso_plan.specs.KeyTable.{keys};
ghost use Rattle.iso_plan.specs.Locks.{taken};
ghost use Rattle.iso_plan.specs.RowView.{tree_of};

use iso_plan::plan::Plan;

/// The nodes that are listed with a key are those that take it so, by the definition of gathered
/// locks.
pub fn listed_nodes_take_the_key(plan: &Plan)
    ensures { (a : Access) (key n : ℕ) → key < length (keys (tree_of plan.now))
        → takes (tree_of plan.now) a key n
        ≡ is_as a (taken (tree_of plan.now) n (slice_index_or (keys (tree_of plan.now)) key [])) }
{}
