//! Runs of a suite on one thread, from its inputs to its report.
ghost use Rattle.std.specs.Prelude.{◌≡◌, ◌≤◌, IfOk, OnOk, is_some};
ghost use Rattle.std.specs.Option.{option_map};
ghost use Rattle.iso_run.specs.Courses.{AreEvents, IsCourse, TellsCourse};
ghost use Rattle.iso_lifecycle.specs.ResultViews.{AreComplete};
ghost use Rattle.iso_run.specs.Runs.{Writes, suite_report};
ghost use Rattle.iso_run.specs.Watches.{TellsRun, WasWatched, watched_with};
ghost use Rattle.iso_run.specs.declared.way.Way.TheVariants.{Serial};

use crate::afterwards::Afterwards;
use crate::counts::CountingGate;
use crate::course::Course;
use crate::inputs::{Inputs, Suite, read_inputs};
use crate::observation::Observed;
use crate::observed::observe;
use crate::progress::{Progress, Unshown};
use crate::recorded::tell_alone;
use crate::report::{Finished, Summary, write_results};
use crate::run_fault::RunFault;
use crate::times::node_times;
use crate::watch::{Watch, watched};
use iso_lifecycle::gate::{Gate, OpenGate};
use iso_lifecycle::results::Results;
use iso_serial::run::run_at;
use iso_tap::sink::Sink;
use iso_telling::tells::Tells;
use iso_times::gate::TimesGate;
use iso_times::times::Times;
use std::alloc::{AllocError, Global};
use std::rt::Clock;

/// Runs a suite on one thread, depth first, tells what is asked for besides, and writes its report
/// to the sink. The clock is read only where times are told.
///
/// The settings are read first, then the world, the scripts in turn, and the plan of the scripts is
/// made: the first fault is answered. Nothing is written before the suite has run; with any fault
/// but `Write` the sink is asked nothing. Out of memory may be answered at each growth.
pub fn run_serial<C: Clock, W: Sink>(
    clock: &C,
    alloc: Global,
    inputs: Inputs<'_>,
    tells: &mut Tells<'_>,
    course: &mut Course,
    sink: &mut W,
) -> Result<Summary, RunFault>
    requires { 1 ≤ inputs.processors }
    ensures report { Writes (λ s. s.all_ok) suite_report inputs.entry Serial (W.account sink.old)
        (W.account sink.new) result }
    ensures told { OnOk result (TellsRun inputs.entry Serial tells.old tells.new) }
    ensures course { OnOk result (TellsCourse inputs.entry Serial course.old course.new) }
{
    let afterwards = Afterwards::LetGo;
    run_serial_shown(
        clock,
        alloc,
        inputs,
        afterwards,
        &mut Unshown,
        tells,
        course,
        sink,
    )
}

/// Runs a suite as `run_serial` does, and shows how far it has come. What it has made when the
/// report is written is let go or left, as the caller says.
pub(crate) fn run_serial_shown<C: Clock, P: Progress, W: Sink>(
    clock: &C,
    alloc: Global,
    inputs: Inputs<'_>,
    afterwards: Afterwards,
    progress: &mut P,
    tells: &mut Tells<'_>,
    course: &mut Course,
    sink: &mut W,
) -> Result<Summary, RunFault>
    requires { 1 ≤ inputs.processors }
    ensures report { Writes (λ s. s.all_ok) suite_report inputs.entry Serial (W.account sink.old)
        (W.account sink.new) result }
    ensures told { OnOk result (TellsRun inputs.entry Serial tells.old tells.new) }
    ensures course { OnOk result (TellsCourse inputs.entry Serial course.old course.new) }
{
    let suite = read_inputs(alloc, inputs, tells.wants_places())?;
    let gate = CountingGate::new(alloc, &OpenGate, &suite.plan, progress.counts());
    let ran = run_timed(clock, alloc, &suite, &gate, tells, course);
    drop(gate);
    progress.ends();
    match ran {
        Ok(ran) => {
            let run = Finished {
                results: &ran.results,
                times: &ran.node_times,
                watched: watched(&ran.times, &ran.watch),
            };
            let written = write_results(alloc, &suite, inputs.scripts, &run, tells, sink);
            afterwards.of(ran);
            afterwards.of(suite);
            written
        }
        Err(_) => Err(RunFault::Memory),
    }
}

/// The results of a suite, when its bodies ran, how many microseconds those of its nodes took, and
/// what was watched, where that was measured.
#[derive(Drop)]
struct Ran<'s> {
    results: Results<'s>,
    times: Times,
    node_times: Vec<Option<u64>>,
    watch: Option<Watch>,
}

/// Runs a suite at a gate, tells of its course, and measures and watches it as far as what is told
/// asks for it.
fn run_timed<'s, C: Clock, G: Gate>(
    clock: &C,
    alloc: Global,
    suite: &'s Suite,
    counting: &G,
    tells: &Tells<'_>,
    course: &mut Course,
) -> Result<Ran<'s>, AllocError>
    requires { 1 ≤ suite.now.settings.worker_count }
    ensures plan { IfOk result (λ r. r.results.plan ≡ suite.now.plan) }
    ensures start { IfOk result (λ r. r.results.start ≡ suite.now.world) }
    ensures complete { IfOk result (λ r. AreComplete r.results) }
    ensures watched { IfOk result
        (λ r. WasWatched Serial suite.now.plan suite.now.world suite.now.settings.worker_count
        (is_some tells.now.html) (option_map (watched_with r.times) r.watch)) }
    ensures course { OnOk result
        (IsCourse (AreEvents Serial suite.now.plan suite.now.world suite.now.settings.worker_count)
        Serial suite.now.plan suite.now.world suite.now.settings.worker_count
        course.old course.new) }
{
    let timed = tells.wants_times();
    let gate = if timed || course.wants_times() {
        TimesGate::new(alloc, clock, counting, suite.plan.len())?
    } else {
        TimesGate::untimed(alloc, clock, counting)
    };
    let results = run_at(alloc, &suite.plan, &suite.world, &gate)?;
    let times = gate.into_times();
    let run = Observed {
        plan: &suite.plan,
        results: &results,
        times: &times,
        started: 1,
        of: suite.settings.workers(),
    };
    let watch = observe(alloc, &run, tells.wants_watched(), course)?;
    tell_alone(alloc, suite, &mut course.schedule)?;
    let node_times = node_times(alloc, timed, &times, &suite.plan)?;
    Ok(Ran {
        results,
        times,
        node_times,
        watch,
    })
}
