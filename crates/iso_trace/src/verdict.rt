//! What nodes came to, in a word.
ghost use Rattle.std.specs.Prelude.{◌≡◌, ◌<◌, length};
ghost use Rattle.iso_lifecycle.specs.ResultViews.{result_in, verdict_of_view};
ghost use Rattle.iso_tap.specs.ReportBlocks.{verdict_word};
ghost use Rattle.iso_trace.specs.TraceText.{word_of};

use iso_lifecycle::results::Results;
use iso_lifecycle::view::ViewVerdict;

/// The word of what a node came to.
pub(crate) fn word(results: &Results<'_>, node: u32) -> &'static str
    requires { node < length results.now.plan.rows }
    ensures { result.now ≡ word_of (result_in results.now node) }
{
    match results.get(node) {
        Some(view) => verdict_word(view.verdict),
        None => "none",
    }
}

/// The word of a verdict.
fn verdict_word(verdict: ViewVerdict<'_>) -> &'static str
    ensures { result.now ≡ verdict_word (verdict_of_view verdict.entry) }
{
    match verdict {
        ViewVerdict::Pass => "pass",
        ViewVerdict::Fail(_) => "fail",
        ViewVerdict::Fault(..) => "fault",
        ViewVerdict::Skipped(_) => "skipped",
        ViewVerdict::Blocked(_) => "blocked",
    }
}
