//! The report of a run, by whatever way its results came about.
ghost use Rattle.std.specs.Prelude.{◌≡◌, MatchResult, OnOk};
ghost use Rattle.std.specs.Option.{option_map};
ghost use Rattle.iso_lifecycle.specs.ResultViews.{AreComplete, outcome_in};
ghost use Rattle.iso_plan.specs.RowView.{tree_of};
ghost use Rattle.iso_run.specs.Runs.{IsUnwritten, as_written};
ghost use Rattle.iso_tap.specs.Reports.{all_ok, report};
ghost use Rattle.iso_tap.specs.Sinks.{Wrote};
ghost use Rattle.iso_telling.specs.Pages.{watched_of};
ghost use Rattle.iso_telling.specs.Telling.{HasTold};

use crate::inputs::Suite;
use crate::run_fault::RunFault;
use iso_lifecycle::results::Results;
use iso_tap::ok::all_ok;
use iso_tap::report::write_report;
use iso_tap::sink::Sink;
use iso_telling::tells::Tells;
use iso_telling::watched::Watched;
use iso_telling::written::Written;
use std::alloc::Global;

/// What a run answers beside its report.
#[derive(Clone, Copy, PartialEq, Eq)]
pub struct Summary {
    /// Whether every top-level point is ok.
    pub all_ok: bool,
}

/// A run that is over: its results, how many microseconds the bodies of its nodes took, as far as
/// that was measured, and what was watched of it.
#[derive(Clone, Copy)]
pub(crate) struct Finished<'r, 't, 'p> {
    pub results: &'r Results<'p>,
    pub times: &'t [Option<u64>],
    pub watched: Option<Watched<'t>>,
}

/// Tells what is asked for besides, and writes the report of the results of all nodes of a suite,
/// whose scripts have these bytes.
pub(crate) fn write_results<W: Sink>(
    alloc: Global,
    suite: &Suite,
    texts: &[&[u8]],
    run: &Finished<'_, '_, '_>,
    tells: &mut Tells<'_>,
    sink: &mut W,
) -> Result<Summary, RunFault>
    requires plan { run.now.results.now.plan ≡ suite.now.plan }
    requires complete { AreComplete run.now.results.now }
    ensures report { MatchResult result
        (λ s. Wrote (W.account sink.old) (W.account sink.new)
        (report (tree_of suite.now.plan) (outcome_in run.now.results.now))
        × (s.all_ok ≡ all_ok (tree_of suite.now.plan) (outcome_in run.now.results.now)))
        (IsUnwritten (report (tree_of suite.now.plan) (outcome_in run.now.results.now))
        (W.account sink.old) (W.account sink.new)) }
    ensures told { OnOk result (HasTold (as_written suite.now texts.now) (tree_of suite.now.plan)
        suite.now.plan.settings (outcome_in run.now.results.now) run.now.times.now
        (option_map watched_of run.now.watched) tells.old tells.new) }
{
    let written = Written {
        scripts: &suite.scripts,
        places: &suite.places,
        texts,
    };
    let Finished {
        results,
        times,
        watched,
    } = *run;
    tells.tell(alloc, &written, &suite.plan, results, times, watched)?;
    match write_report(&suite.plan, results, sink) {
        Ok(()) => Ok(Summary {
            all_ok: all_ok(&suite.plan, results),
        }),
        Err(fault) => Err(RunFault::Write(fault.written)),
    }
}
