//! Replays of recorded schedules, from their inputs to the report.
ghost use Rattle.std.specs.Borrow.{Bor};
ghost use Rattle.std.specs.Prelude.{◌≤◌, [], List, None, Ok, OnOk, ℕ};
ghost use Rattle.iso_run.specs.declared.way.Way.TheVariants.{BySchedule};
ghost use Rattle.iso_run.specs.Runs.{IsRead, TellsOf, Writes, suite_report};
ghost use Rattle.iso_schedule.specs.Schedules.{AreRead};
ghost use Rattle.iso_telling.specs.Telling.{wants_places};

use crate::inputs::{Inputs, Suite, read_inputs};
use crate::report::{Finished, Summary, write_results};
use crate::run_fault::RunFault;
use iso_core::run_events::run_events;
use iso_schedule::reader::read_schedule;
use iso_standing::event::Event;
use iso_tap::sink::Sink;
use iso_telling::tells::Tells;
use std::alloc::Global;

/// Replays a recorded schedule on one thread, event by event, with as many workers as the settings
/// give, tells what is asked for besides, without times, and writes the suite's report to the sink.
/// It is the report that `run_serial` writes.
///
/// The inputs are read as by `run_serial`, and the schedule after their plan: the first fault is
/// answered. Then comes the first event that is refused, and `Unfinished` where a node but the root
/// is left after the last event. Nothing is written before: with any fault but `Write` the sink is
/// asked nothing. Out of memory may be answered at each growth.
pub fn run_schedule<W: Sink>(
    alloc: Global,
    inputs: Inputs<'_>,
    schedule: &[u8],
    tells: &mut Tells<'_>,
    sink: &mut W,
) -> Result<Summary, RunFault>
    requires { 1 ≤ inputs.processors }
    ensures report { Writes (λ s. s.all_ok) suite_report inputs.entry (BySchedule schedule.entry)
        (W.account sink.old) (W.account sink.new) result }
    ensures told { OnOk result (TellsOf inputs.entry [] None tells.old tells.new) }
{
    let suite = read_inputs(alloc, inputs, tells.wants_places())?;
    replay_on(alloc, inputs, &suite, schedule, tells, sink)
}

/// Replays a schedule of the suite that these inputs are.
fn replay_on<W: Sink>(
    alloc: Global,
    inputs: Inputs<'_>,
    suite: &Suite,
    schedule: &[u8],
    tells: &mut Tells<'_>,
    sink: &mut W,
) -> Result<Summary, RunFault>
    requires { IsRead inputs (wants_places tells.old) suite.now }
    ensures report { Writes (λ s. s.all_ok) suite_report inputs.entry (BySchedule schedule.entry)
        (W.account sink.old) (W.account sink.new) result }
    ensures told { OnOk result (TellsOf inputs.entry [] None tells.old tells.new) }
{
    let events = read_schedule(alloc, schedule)?;
    replay_events(alloc, inputs, suite, &events, tells, sink)
}

/// Replays the events of a schedule.
fn replay_events<W: Sink>(
    alloc: Global,
    inputs: Inputs<'_>,
    suite: &Suite,
    events: &[Event],
    tells: &mut Tells<'_>,
    sink: &mut W,
) -> Result<Summary, RunFault>
    requires { IsRead inputs (wants_places tells.old) suite.now }
    ensures report { (schedule : Bor (List ℕ)) → AreRead schedule.now (Ok events.now)
        → Writes (λ s. s.all_ok) suite_report inputs.entry (BySchedule schedule)
        (W.account sink.old) (W.account sink.new) result }
    ensures told { OnOk result (TellsOf inputs.entry [] None tells.old tells.new) }
{
    let workers = suite.settings.workers();
    let core = run_events(alloc, &suite.plan, &suite.world, workers, events)?;
    if !core.is_complete() {
        Err(RunFault::Unfinished)
    } else {
        let run = Finished {
            results: core.results(),
            times: &[],
            watched: None,
        };
        write_results(alloc, suite, inputs.scripts, &run, tells, sink)
    }
}
