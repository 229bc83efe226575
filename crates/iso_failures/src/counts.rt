//! How many tests and classes a run had, and what they came to.
ghost use Rattle.std.specs.Prelude.{◌≡◌, ◌<◌};
ghost use Rattle.iso_failures.specs.Counting.{counts};
ghost use Rattle.iso_lifecycle.specs.ResultViews.{AreComplete, outcome_in, verdict_of_view};
ghost use Rattle.iso_plan.specs.RowView.{tree_of};

use crate::node::verdict;
use iso_lifecycle::results::Results;
use iso_lifecycle::view::ViewVerdict;
use iso_plan::laws;
use iso_plan::plan::Plan;

/// How many tests and classes there are, and of the tests how many passed, were skipped, failed and
/// were blocked. Each test did one of these.
#[derive(Clone, Copy)]
pub struct Counts {
    pub tests: u32,
    /// Tests that passed.
    pub ok: u32,
    /// Tests that ended by a false assumption, their own or that of a class around them, or that
    /// are disabled.
    pub skipped: u32,
    /// Tests that ended by a fail or a fault.
    pub not_ok: u32,
    /// Tests in a class whose `before_all`, or that of a class around it, ended by a fail or a
    /// fault.
    pub blocked: u32,
    /// The root is none.
    pub classes: u32,
    /// Classes whose own verdict is a fail or a fault.
    pub classes_not_ok: u32,
}

/// Counts the tests and classes of results by what they came to. All nodes but the root must have
/// results. Takes no memory.
pub fn count(plan: &Plan, results: &Results<'_>) -> Counts
    requires plan { results.now.plan ≡ plan.now }
    requires complete { AreComplete results.now }
    ensures { result ≡ counts (tree_of plan.now) (outcome_in results.now) }
{
    laws::nodes_are_a_tree(plan);
    let mut counts = Counts::none();
    'nodes: for node in 1..plan.len() {
        counts.add(plan.is_test(node), verdict(results, node));
    }
    counts
}

impl Counts {
    ghost use Rattle.std.specs.Prelude.{◌-◌, ◌^◌, false, true};
    ghost use Rattle.iso_failures.specs.CountingSteps.{AreBelow, with_node};

    /// The counts of no nodes.
    fn none() -> Counts
        ensures { result ≡ record {
          tests = 0;
          ok = 0;
          skipped = 0;
          not_ok = 0;
          blocked = 0;
          classes = 0;
          classes_not_ok = 0;
        } }
    {
        Counts {
            tests: 0,
            ok: 0,
            skipped: 0,
            not_ok: 0,
            blocked: 0,
            classes: 0,
            classes_not_ok: 0,
        }
    }

    /// Counts a test or a class with this verdict.
    fn add(&mut self, is_test: bool, verdict: ViewVerdict<'_>)
        requires { AreBelow (2 ^ 32 - 1) self.old }
        ensures { self.new ≡ with_node is_test (verdict_of_view verdict.entry) self.old }
    {
        if is_test {
            self.add_test(verdict);
        } else {
            self.add_class(verdict);
        }
    }

    /// Counts a test with this verdict.
    fn add_test(&mut self, verdict: ViewVerdict<'_>)
        requires { AreBelow (2 ^ 32 - 1) self.old }
        ensures { self.new ≡ with_node true (verdict_of_view verdict.entry) self.old }
    {
        self.tests += 1;
        match verdict {
            ViewVerdict::Pass => self.ok += 1,
            ViewVerdict::Skipped(_) => self.skipped += 1,
            ViewVerdict::Fail(_) | ViewVerdict::Fault(_, _) => self.not_ok += 1,
            ViewVerdict::Blocked(_) => self.blocked += 1,
        }
    }

    /// Counts a class with this verdict.
    fn add_class(&mut self, verdict: ViewVerdict<'_>)
        requires { AreBelow (2 ^ 32 - 1) self.old }
        ensures { self.new ≡ with_node false (verdict_of_view verdict.entry) self.old }
    {
        self.classes += 1;
        if let ViewVerdict::Fail(_) | ViewVerdict::Fault(_, _) = verdict {
            self.classes_not_ok += 1;
        }
    }
}
