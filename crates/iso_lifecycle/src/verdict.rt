//! What the endings of a body's blocks come to.
ghost use Rattle.std.specs.Prelude.{◌≡◌};
ghost use Rattle.iso_model.specs.Statements.{is_well};
ghost use Rattle.iso_model.specs.Verdicts.{verdict};
ghost use Rattle.iso_lifecycle.specs.Combining.{or_skipped, with_first};
ghost use Rattle.iso_lifecycle.specs.Ends.{is_unfailed};
ghost use Rattle.iso_lifecycle.specs.ResultViews.{verdict_of_view};

use crate::view::ViewVerdict;
use iso_model::outcome::{Ending, Note};

/// The combined verdict, from the last ending to the first.
pub(crate) fn verdict(endings: &[Ending]) -> ViewVerdict<'_>
    ensures { verdict_of_view result ≡ verdict endings.now }
{
    let mut verdict = ViewVerdict::Pass;
    let mut left = endings;
    'endings: while let Some((last, before)) = left.split_last() {
        verdict = with_first(last, verdict);
        left = before;
    }
    verdict
}

/// The verdict with an ending before those that came to this.
pub(crate) fn with_first<'a>(ending: &'a Ending, rest: ViewVerdict<'a>) -> ViewVerdict<'a>
    ensures { verdict_of_view result ≡ with_first ending.now (verdict_of_view rest.entry) }
{
    match ending {
        Ending::Well => rest,
        Ending::Fail(note) => ViewVerdict::Fail(note),
        Ending::Fault(kind, note) => ViewVerdict::Fault(*kind, note),
        Ending::Assumed(note) => or_skipped(rest, note),
    }
}

/// A fail or fault, or else Skipped by this note.
fn or_skipped<'a>(verdict: ViewVerdict<'a>, note: &'a Note) -> ViewVerdict<'a>
    ensures { verdict_of_view result ≡ or_skipped (verdict_of_view verdict.entry) note.now }
{
    match verdict {
        ViewVerdict::Fail(_) | ViewVerdict::Fault(_, _) => verdict,
        ViewVerdict::Pass | ViewVerdict::Skipped(_) | ViewVerdict::Blocked(_) => {
            ViewVerdict::Skipped(note)
        }
    }
}

/// Whether a block came to its end.
pub(crate) fn is_well(ending: &Ending) -> bool
    ensures { result ≡ is_well ending.now }
{
    matches!(ending, Ending::Well)
}

/// Whether a test that came to this was done without a fail or fault.
pub(crate) fn is_unfailed(verdict: ViewVerdict<'_>) -> bool
    ensures { result ≡ is_unfailed (verdict_of_view verdict.entry) }
{
    matches!(verdict, ViewVerdict::Pass | ViewVerdict::Skipped(_))
}
