//! How much was measured.
ghost use Rattle.std.specs.Prelude.{◌≡◌};
ghost use Rattle.iso_durations.specs.Times.{measured};
ghost use Rattle.iso_durations.specs.Tallies.{tally};
ghost use Rattle.iso_plan.specs.RowView.{tree_of};

use crate::times::time;
use iso_plan::laws;
use iso_plan::plan::Plan;

/// How many tests and classes were measured, and how many microseconds all their bodies took.
#[derive(Clone, Copy)]
pub(crate) struct Tally {
    pub(crate) tests: u32,
    pub(crate) classes: u32,
    pub(crate) micros: u64,
}

/// Counts the nodes that were measured.
pub(crate) fn count(plan: &Plan, times: &[Option<u64>]) -> Tally
    ensures { result ≡ tally (tree_of plan.now) times.now (measured (tree_of plan.now) times.now) }
{
    laws::nodes_are_a_tree(plan);
    let mut all = Tally::none();
    'nodes: for node in 1..plan.len() {
        if let Some(micros) = time(times, node) {
            all.add(plan.is_test(node), micros);
        }
    }
    all
}

impl Tally {
    ghost use Rattle.std.specs.Prelude.{◌<◌, ◌^◌, ◌-◌};
    ghost use Rattle.iso_durations.specs.Tallies.{with_node};

    /// Nothing was measured.
    fn none() -> Tally
        ensures { result ≡ record {
          tests = 0;
          classes = 0;
          micros = 0;
        } }
    {
        Tally {
            tests: 0,
            classes: 0,
            micros: 0,
        }
    }

    /// Counts a test or a class whose bodies took this time.
    fn add(&mut self, is_test: bool, micros: u64)
        requires tests { self.old.tests < 2 ^ 32 - 1 }
        requires classes { self.old.classes < 2 ^ 32 - 1 }
        ensures { self.new ≡ with_node is_test micros self.old }
    {
        self.micros = self.micros.saturating_add(micros);
        if is_test {
            self.tests += 1;
        } else {
            self.classes += 1;
        }
    }
}
