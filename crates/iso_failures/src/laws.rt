//! Laws of what failed.
ghost use Rattle.std.specs.Prelude.{◌≡◌, ◌<◌, ◌↔◌, ◌+◌, [], ℕ, List, length, map, true};
ghost use Rattle.std.specs.List.{sum_by};
ghost use Rattle.iso_failures.specs.Blocking.{blocked_by};
ghost use Rattle.iso_failures.specs.Counting.{counts};
ghost use Rattle.iso_failures.specs.Failures.{failed_text, failures, is_failure};
ghost use Rattle.iso_lifecycle.specs.ResultViews.{outcome_in};
ghost use Rattle.iso_model.specs.declared.outcome.Outcome.{Outcome};
ghost use Rattle.iso_plan.specs.PathTexts.{path_text};
ghost use Rattle.iso_plan.specs.RowView.{tree_of};
ghost use Rattle.iso_plan.specs.KeptNodes.{is_kept};
ghost use Rattle.iso_plan.specs.Tree.{Row};
ghost use Rattle.iso_tap.specs.Reports.{all_ok};

use iso_lifecycle::results::Results;
use iso_plan::laws;
use iso_plan::plan::Plan;

/// Each test passed, was skipped, failed or was blocked, and did only one of these.
pub fn each_test_came_to_one_of_four()
    ensures { (tree : List Row) (outcome : ℕ → Outcome) → let all = counts tree outcome in
        all.ok + all.skipped + all.not_ok + all.blocked ≡ all.tests }
{}

/// All points of the report of a run are ok just where nothing failed, so just where there is no
/// line of what failed.
pub fn report_is_ok_where_nothing_failed(plan: &Plan, results: &Results<'_>)
    requires { results.now.plan ≡ plan.now }
    ensures nodes { (all_ok (tree_of plan.now) (outcome_in results.now) ≡ true)
        ↔ (failures (tree_of plan.now) (outcome_in results.now) ≡ []) }
    ensures lines { (all_ok (tree_of plan.now) (outcome_in results.now) ≡ true)
        ↔ (failed_text (tree_of plan.now) (outcome_in results.now) ≡ []) }
{
    laws::nodes_are_a_tree(plan);
}

/// The tests that the failures block, of each as many as it blocks, are together all blocked tests
/// of a run: each is blocked by just one.
pub fn failures_block_what_is_blocked(plan: &Plan, results: &Results<'_>)
    requires { results.now.plan ≡ plan.now }
    ensures { sum_by (blocked_by (tree_of plan.now) (outcome_in results.now))
        (failures (tree_of plan.now) (outcome_in results.now))
        ≡ (counts (tree_of plan.now) (outcome_in results.now)).blocked }
{
    laws::nodes_are_a_tree(plan);
}

/// The paths of what failed, given as a selection, keep each node that failed.
pub fn paths_of_failures_keep_them(plan: &Plan)
    ensures { (outcome : ℕ → Outcome) (n : ℕ) → n < length (tree_of plan.now)
        → is_failure outcome n ≡ true
        → is_kept (tree_of plan.now)
        (map (path_text (tree_of plan.now)) (failures (tree_of plan.now) outcome)) n ≡ true }
{
    laws::nodes_are_a_tree(plan);
}
