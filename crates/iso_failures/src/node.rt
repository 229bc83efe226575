//! What a node came to.
ghost use Rattle.std.specs.Prelude.{◌≡◌, ◌<◌, ◌^◌, length};
ghost use Rattle.iso_failures.specs.Failures.{is_failure};
ghost use Rattle.iso_lifecycle.specs.ResultViews.{AreComplete, outcome_in, verdict_of_view};

use iso_lifecycle::results::Results;
use iso_lifecycle::view::ViewVerdict;
use iso_plan::plan::Plan;

/// The verdict of a node.
pub(crate) fn verdict<'r>(results: &'r Results<'_>, node: u32) -> ViewVerdict<'r>
    requires complete { AreComplete results.now }
    requires above { 0 < node }
    requires within { node < length results.now.plan.rows }
    ensures { verdict_of_view result ≡ (outcome_in results.now node).verdict }
{
    results.get(node).unwrap().verdict
}

/// Whether a node failed: its own verdict is a fail or a fault.
pub(crate) fn is_failure(results: &Results<'_>, node: u32) -> bool
    requires complete { AreComplete results.now }
    requires above { 0 < node }
    requires within { node < length results.now.plan.rows }
    ensures { result ≡ is_failure (outcome_in results.now) node }
{
    matches!(
        verdict(results, node),
        ViewVerdict::Fail(_) | ViewVerdict::Fault(_, _)
    )
}

/// The nodes of a plan can be counted.
pub(crate) fn nodes_are_countable(plan: &Plan)
    ensures { length plan.now.rows < 2 ^ 32 }
{
    let _count = plan.len();
}
