//! Laws of what is told. Each function does nothing: its contract is the law, and is proved.
ghost use Rattle.std.specs.Prelude.{◌≡◌, ◌<◌, ℕ, Some, length, true};
ghost use Rattle.std.specs.List.{All, Contains};
ghost use Rattle.iso_affected.specs.Agreeing.{MayComeTo};
ghost use Rattle.iso_affected.specs.Fates.{AreFates, gone, suites};
ghost use Rattle.iso_affected.specs.Listed.{is_listed};
ghost use Rattle.iso_affected.specs.Namesakes.{namesake};
ghost use Rattle.iso_affected_text.specs.Affected.{affected_rows};
ghost use Rattle.iso_affected_text.specs.Changes.{change_of};
ghost use Rattle.iso_affected_text.specs.Meanings.{SaysSo};
ghost use Rattle.iso_affected_text.specs.Rows.{node_row};
ghost use Rattle.iso_affected_text.specs.declared.row.Became.TheVariants.{Changed};
ghost use Rattle.iso_model.specs.declared.outcome.Outcome.{Outcome};
ghost use Rattle.iso_plan.specs.PathTexts.{path_text};
ghost use Rattle.iso_plan.specs.Paths.{row_at};
ghost use Rattle.iso_plan.specs.RowView.{tree_of};
ghost use Rattle.iso_settings.specs.Worlds.{Start};
ghost use Rattle.iso_suites.specs.PlanSuites.{head_of};

use crate::change::Change;
use iso_affected::laws::same_nodes_have_the_outcomes_that_they_had;
use iso_plan::laws::nodes_are_a_tree;

/// Nothing is told for nothing: a node that is told to be changed doesn't agree with its namesake,
/// one that is new has none in the old suite, and one that is gone none in the new one.
pub fn rows_say_what_is_so(change: &Change<'_>)
    ensures { (before after : Start) → AreFates
        (suites change.now.old.plan.now before change.now.new.plan.now after) change.now.fates.now
        → change.now.gone.now ≡ gone (tree_of change.now.old.plan.now)
        (tree_of change.now.new.plan.now)
        → All (SaysSo (suites change.now.old.plan.now before change.now.new.plan.now after))
        (affected_rows (change_of change.now)) }
{
    nodes_are_a_tree(change.old.plan);
    nodes_are_a_tree(change.new.plan);
}

/// What isn't told can't differ: a test, or a class with blocks of its own, that isn't told to be
/// changed has in each run of the new suite the outcome that its namesake has in each run of the
/// old one.
pub fn what_is_not_told_has_the_outcomes_that_it_had(change: &Change<'_>)
    ensures { (before after : Start) (n m : ℕ) (p q : Outcome)
        → AreFates (suites change.now.old.plan.now before change.now.new.plan.now after)
        change.now.fates.now
        → n < length change.now.new.plan.now.rows
        → is_listed (head_of (row_at (tree_of change.now.new.plan.now) n).kind) ≡ true
        → namesake (tree_of change.now.old.plan.now) (tree_of change.now.new.plan.now) n ≡ Some m
        → (Contains (affected_rows (change_of change.now))
        (node_row Changed (path_text (tree_of change.now.new.plan.now) n)) → ⊥)
        → MayComeTo change.now.old.plan.now before m p
        → MayComeTo change.now.new.plan.now after n q → p ≡ q }
{
    same_nodes_have_the_outcomes_that_they_had(change.old.plan, change.new.plan);
}
