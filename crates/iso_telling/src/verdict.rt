//! What a node came to.
ghost use Rattle.std.specs.Prelude.{◌≡◌, ◌<◌, length};
ghost use Rattle.iso_lifecycle.specs.ResultViews.{AreComplete, outcome_in, verdict_of_view};

use iso_lifecycle::results::Results;
use iso_lifecycle::view::ViewVerdict;

/// The verdict of a node.
pub(crate) fn verdict<'r>(results: &'r Results<'_>, node: u32) -> ViewVerdict<'r>
    requires complete { AreComplete results.now }
    requires above { 0 < node }
    requires within { node < length results.now.plan.rows }
    ensures { verdict_of_view result ≡ (outcome_in results.now node).verdict }
{
    results.get(node).unwrap().verdict
}
