//! A run that is told of.
ghost use Rattle.std.specs.Prelude.{◌≡◌, ◌<◌, length};
ghost use Rattle.iso_lifecycle.specs.ResultViews.{AreComplete, outcome_of_view};

use crate::placed::Placed;
use iso_lifecycle::results::Results;
use iso_lifecycle::view::View;
use iso_plan::plan::Plan;

/// A plan, the results of all its nodes, and by node where they stand and how many microseconds
/// their bodies took.
#[derive(Clone, Copy)]
pub struct Run<'r, 'p> {
    pub plan: &'r Plan,
    pub results: &'r Results<'p>,
    pub places: &'r [Placed<'r>],
    pub times: &'r [Option<u64>],
    ghost planned: { results.now.plan ≡ plan.now },
    ghost placed: { length places.now ≡ length plan.now.rows },
}

impl<'r, 'p> Run<'r, 'p> {
    ghost use Rattle.iso_junit.specs.Runs.{place, placed_of, run_of, time};

    /// What a node came to.
    pub fn view(&self, node: u32) -> View<'_>
        requires complete { AreComplete self.now.results.now }
        requires above { 0 < node }
        requires within { node < length self.now.plan.now.rows }
        ensures { outcome_of_view result ≡ (run_of self.now).outcome node }
    {
        self.results.get(node).unwrap()
    }

    /// Where a node stands.
    pub fn place(&self, node: u32) -> Placed<'r>
        requires { node < length self.now.plan.now.rows }
        ensures { placed_of result ≡ place (run_of self.now) node }
    {
        self.places[node as usize]
    }

    /// How many microseconds its bodies took.
    pub fn time(&self, node: u32) -> Option<u64>
        ensures { result ≡ time (run_of self.now) node }
    {
        match self.times.get(node as usize) {
            Some(time) => *time,
            None => None,
        }
    }
}
