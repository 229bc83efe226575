//! How many testcases there are, and what they came to.
ghost use Rattle.std.specs.Prelude.{◌≡◌, None};
ghost use Rattle.iso_junit.specs.TallySteps.{added};
ghost use Rattle.iso_lifecycle.specs.ResultViews.{verdict_of_view};

use iso_lifecycle::view::ViewVerdict;

/// Counts of testcases, and the sum of their times.
#[derive(Clone, Copy)]
pub struct Tally {
    pub tests: u64,
    /// By a fail.
    pub failures: u64,
    /// By a fault, or blocked.
    pub errors: u64,
    pub skipped: u64,
    /// In microseconds, none where none was measured.
    pub time: Option<u64>,
}

impl Tally {
    ghost use Rattle.std.specs.Prelude.{◌-◌, ◌^◌};
    ghost use Rattle.iso_junit.specs.TallySteps.{AreBelow, with_case};

    /// The counts of no testcases.
    pub(crate) fn none() -> Tally
        ensures { result ≡ record {
          tests = 0;
          failures = 0;
          errors = 0;
          skipped = 0;
          time = None;
        } }
    {
        Tally {
            tests: 0,
            failures: 0,
            errors: 0,
            skipped: 0,
            time: None,
        }
    }

    /// Counts a testcase with this verdict, which took this time.
    pub(crate) fn add(&mut self, verdict: ViewVerdict<'_>, time: Option<u64>)
        requires { AreBelow (2 ^ 64 - 1) self.old }
        ensures { self.new ≡ with_case (verdict_of_view verdict.entry) time self.old }
    {
        self.tests += 1;
        self.time = added(self.time, time);
        match verdict {
            ViewVerdict::Pass => {}
            ViewVerdict::Fail(_) => self.failures += 1,
            ViewVerdict::Fault(_, _) | ViewVerdict::Blocked(_) => self.errors += 1,
            ViewVerdict::Skipped(_) => self.skipped += 1,
        }
    }
}

/// A sum of times with one more, where it was measured.
fn added(sum: Option<u64>, time: Option<u64>) -> Option<u64>
    ensures { result ≡ added sum time }
{
    match time {
        None => sum,
        Some(time) => Some(sum.unwrap_or(0).saturating_add(time)),
    }
}
