//! The counts of testcases.
ghost use Rattle.std.specs.Prelude.{◌≡◌, ◌<◌, ◌^◌, ◌∷◌, [], filter, length};
ghost use Rattle.iso_junit.specs.Cases.{all_cases, cases, failed_itself, is_case};
ghost use Rattle.iso_junit.specs.Runs.{run_of};
ghost use Rattle.iso_junit.specs.Tallies.{tally};
ghost use Rattle.iso_lifecycle.specs.ResultViews.{AreComplete};

use crate::run::Run;
use crate::tally::Tally;
use iso_lifecycle::view::ViewVerdict;
use iso_plan::laws;
use iso_plan::plan::Plan;

/// Counts all testcases.
pub(crate) fn count_all(run: &Run<'_, '_>) -> Tally
    requires complete { AreComplete run.now.results.now }
    ensures { result ≡ tally (run_of run.now) (all_cases (run_of run.now)) }
{
    laws::nodes_are_a_tree(run.plan);
    let mut counts = Tally::none();
    'nodes: for node in 1..run.plan.len() {
        if is_case(run, node) {
            counts.add(run.view(node).verdict, run.time(node));
        }
    }
    counts
}

/// Whether a node has a testcase.
fn is_case(run: &Run<'_, '_>, node: u32) -> bool
    requires complete { AreComplete run.now.results.now }
    requires above { 0 < node }
    requires within { node < length run.now.plan.now.rows }
    ensures { result ≡ is_case (run_of run.now) node }
{
    run.plan.is_test(node) || failed_itself(run, node)
}

/// Whether a node failed by itself.
pub(crate) fn failed_itself(run: &Run<'_, '_>, node: u32) -> bool
    requires complete { AreComplete run.now.results.now }
    requires above { 0 < node }
    requires within { node < length run.now.plan.now.rows }
    ensures { result ≡ failed_itself (run_of run.now) node }
{
    matches!(
        run.view(node).verdict,
        ViewVerdict::Fail(_) | ViewVerdict::Fault(_, _)
    )
}

/// Counts the testcases of a class.
pub(crate) fn count(run: &Run<'_, '_>, class: u32) -> Tally
    requires complete { AreComplete run.now.results.now }
    requires above { 0 < class }
    requires within { class < length run.now.plan.now.rows }
    ensures { result ≡ tally (run_of run.now) (cases (run_of run.now) class) }
{
    laws::nodes_are_a_tree(run.plan);
    nodes_are_countable(run.plan);
    let mut counts = count_own(run, class);
    'children: for child in run.plan.children(class) {
        if run.plan.is_test(*child) {
            counts.add(run.view(*child).verdict, run.time(*child));
        }
    }
    counts
}

/// Counts a class's own testcase, where it has one.
fn count_own(run: &Run<'_, '_>, class: u32) -> Tally
    requires complete { AreComplete run.now.results.now }
    requires above { 0 < class }
    requires within { class < length run.now.plan.now.rows }
    ensures { result ≡ tally (run_of run.now)
        (filter (failed_itself (run_of run.now)) (class ∷ [])) }
{
    let mut counts = Tally::none();
    if failed_itself(run, class) {
        counts.add(run.view(class).verdict, run.time(class));
    }
    counts
}

/// The nodes of a plan can be counted.
fn nodes_are_countable(plan: &Plan)
    ensures { length plan.now.rows < 2 ^ 32 }
{
    let _count = plan.len();
}
