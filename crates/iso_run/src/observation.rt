//! Runs that were observed.
ghost use Rattle.std.specs.Prelude.{◌≡◌};

use iso_lifecycle::results::Results;
use iso_plan::plan::Plan;
use iso_times::times::Times;

/// A run that was observed: its plan, its results, the times of its bodies, and how many workers
/// were started of how many.
#[derive(Clone, Copy)]
pub(crate) struct Observed<'r, 'p> {
    pub plan: &'r Plan,
    pub results: &'r Results<'p>,
    pub times: &'r Times,
    pub started: u32,
    pub of: u32,
    ghost planned: { results.now.plan ≡ plan.now },
}
