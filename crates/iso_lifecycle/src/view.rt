//! The result of a node, borrowed.
ghost use Rattle.std.specs.Prelude.{◌≡◌, ◌∷◌, ◌++◌, []};
ghost use Rattle.iso_model.specs.Verdicts.{barred_verdict, verdict};
ghost use Rattle.iso_lifecycle.specs.Combining.{with_first};
ghost use Rattle.iso_lifecycle.specs.ResultViews.{outcome_of_view, verdict_of_view};

use crate::done::{Closed, Opened};
use crate::kept::{KeptEnding, KeptOutcome};
use crate::verdict::with_first;
use iso_model::fault::FaultKind;
use iso_model::lines::LineSlice;
use iso_model::outcome::{Ending, Note};

/// A verdict whose note is borrowed.
#[derive(Clone, Copy)]
pub enum ViewVerdict<'a> {
    Pass,
    Fail(&'a Note),
    Fault(FaultKind, &'a Note),
    /// By a false assumption, its own or that of an enclosing class's `before_all`.
    Skipped(&'a Note),
    /// By the fail or fault of an enclosing class's `before_all`.
    Blocked(&'a Note),
}

/// What a node came to: its verdict, and the lines that it printed, first these and then more. A
/// class's own `before_all` printed the first and its `after_all` the others; a test has no more.
#[derive(Clone, Copy)]
pub struct View<'a> {
    pub verdict: ViewVerdict<'a>,
    pub lines: LineSlice<'a>,
    pub more: LineSlice<'a>,
}

impl<'a> ViewVerdict<'a> {
    /// The combined verdict of two endings: the first fail or fault, else the first false
    /// assumption, else Pass.
    fn combined(first: &'a KeptEnding, last: &'a KeptEnding) -> ViewVerdict<'a>
        ensures { verdict_of_view result ≡ verdict (first.now ∷ last.now ∷ []) }
    {
        ViewVerdict::Pass.behind(last).behind(first)
    }

    /// The verdict with an ending before those that came to this.
    fn behind(self, first: &'a KeptEnding) -> ViewVerdict<'a>
        ensures { verdict_of_view result ≡ with_first first.now (verdict_of_view self.entry) }
    {
        match first.other() {
            Some(ending) => with_first(ending, self),
            None => self,
        }
    }

    /// The verdict of a descendant of a class whose `before_all` ended so: Blocked after a fail or
    /// fault, Skipped after a false assumption.
    fn barred(ending: &'a Ending) -> ViewVerdict<'a>
        ensures { verdict_of_view result ≡ barred_verdict ending.now }
    {
        match ending {
            Ending::Well => ViewVerdict::Pass,
            Ending::Fail(note) | Ending::Fault(_, note) => ViewVerdict::Blocked(note),
            Ending::Assumed(note) => ViewVerdict::Skipped(note),
        }
    }
}

impl<'a> View<'a> {
    /// The outcome of a test.
    pub(crate) fn of_test(outcome: &'a KeptOutcome) -> View<'a>
        ensures { outcome_of_view result ≡ outcome.now }
    {
        View {
            verdict: outcome.verdict(),
            lines: outcome.lines(),
            more: LineSlice::empty(),
        }
    }

    /// The outcome of a class whose two bodies have ended.
    pub(crate) fn of_class(opened: &'a Opened, closed: &'a Closed) -> View<'a>
        ensures { outcome_of_view result ≡ record {
          verdict = verdict (opened.now.ending ∷ closed.now.ending ∷ []);
          output = opened.now.lines ++ closed.now.lines;
        } }
    {
        View {
            verdict: ViewVerdict::combined(&opened.ending, &closed.ending),
            lines: opened.lines.as_slice(),
            more: closed.lines.as_slice(),
        }
    }

    /// The outcome of a descendant of a class whose `before_all` ended so.
    pub(crate) fn barred(ending: &'a KeptEnding) -> View<'a>
        ensures { outcome_of_view result
            ≡ record { verdict = barred_verdict ending.now; output = [] } }
    {
        let verdict = match ending.other() {
            Some(ending) => ViewVerdict::barred(ending),
            None => ViewVerdict::Pass,
        };
        View {
            verdict,
            lines: LineSlice::empty(),
            more: LineSlice::empty(),
        }
    }
}
