//! What a run tells of its times: a trace, and figures.
ghost use Rattle.std.specs.Prelude.{◌≡◌, IfOk, OnOk, Some};
ghost use Rattle.iso_plan.specs.RowView.{tree_of};
ghost use Rattle.iso_run.specs.Courses.{HasObserved, IsCounted, observed_of, trace_of, waits_of};
ghost use Rattle.iso_run.specs.Watches.{IsWatch};
ghost use Rattle.iso_tap.specs.Sinks.{Wrote};
ghost use Rattle.iso_telling.specs.Telling.{IsTold};
ghost use Rattle.iso_waits.specs.AllWaits.{all_waits};

use crate::course::Course;
use crate::observation::Observed;
use crate::watch::Watch;
use iso_critical::critical::critical;
use iso_stats::measures::figures;
use iso_stats::text::write_stats;
use iso_tap::memory::MemorySink;
use iso_trace::names::Names;
use iso_trace::trace::{Run, write_trace};
use iso_waits::all::all_waits;
use iso_waits::wait::NodeWait;
use std::alloc::{AllocError, Global};

/// Tells what is asked for of the times of a run, and answers what was watched of it, if that is
/// asked for. What nodes waited for is worked out only where it is.
pub(crate) fn observe(
    alloc: Global,
    run: &Observed<'_, '_>,
    asked: bool,
    course: &mut Course,
) -> Result<Option<Watch>, AllocError>
    ensures course { OnOk result (HasObserved (observed_of run.now) course.old course.new) }
    ensures watch { IfOk result (λ w. IsWatch (observed_of run.now) asked w) }
{
    if !asked && !course.wants_times() {
        return Ok(None);
    }
    let waits = all_waits(alloc, run.plan, run.times)?;
    tell_trace(alloc, run, &waits, &mut course.trace)?;
    tell_stats(alloc, run, &waits, &mut course.stats)?;
    watch(alloc, run, asked, waits)
}

/// What was watched of a run whose nodes had these waits, if that is asked for.
fn watch(
    alloc: Global,
    run: &Observed<'_, '_>,
    asked: bool,
    waits: Vec<NodeWait>,
) -> Result<Option<Watch>, AllocError>
    requires { waits.items ≡ waits_of (observed_of run.now) }
    ensures { IfOk result (λ w. IsWatch (observed_of run.now) asked w) }
{
    if !asked {
        return Ok(None);
    }
    let figures = figures(alloc, run.plan, run.times, &waits, run.started, run.of)?;
    let critical = critical(alloc, run.plan, run.times, &waits)?;
    Ok(Some(Watch {
        figures,
        waits,
        critical,
    }))
}

/// Tells the trace of a run whose nodes had these waits, where it is asked for.
fn tell_trace(
    alloc: Global,
    run: &Observed<'_, '_>,
    waits: &[NodeWait],
    asked: &mut Option<MemorySink>,
) -> Result<(), AllocError>
    requires { waits.now ≡ all_waits (tree_of run.now.plan.now) run.now.plan.now.settings
        run.now.times.now }
    ensures { OnOk result (IsTold (trace_of (observed_of run.now)) asked.old asked.new) }
{
    match asked {
        Some(sink) => add_trace(alloc, run, waits, sink),
        None => Ok(()),
    }
}

/// Adds the trace of a run to its text.
fn add_trace(
    alloc: Global,
    run: &Observed<'_, '_>,
    waits: &[NodeWait],
    sink: &mut MemorySink,
) -> Result<(), AllocError>
    requires { waits.now ≡ all_waits (tree_of run.now.plan.now) run.now.plan.now.settings
        run.now.times.now }
    ensures { OnOk result (Wrote sink.old sink.new (trace_of (observed_of run.now))) }
{
    let names = Names::new(alloc, run.plan)?;
    let critical = critical(alloc, run.plan, run.times, waits)?;
    let traced = Run {
        plan: run.plan,
        results: run.results,
        times: run.times,
        critical: &critical,
        names: &names,
    };
    match write_trace(&traced, run.started, waits, sink) {
        Ok(()) => Ok(()),
        Err(_) => Err(AllocError),
    }
}

/// Tells the figures of a run whose nodes had these waits, where they are asked for.
fn tell_stats(
    alloc: Global,
    run: &Observed<'_, '_>,
    waits: &[NodeWait],
    asked: &mut Option<MemorySink>,
) -> Result<(), AllocError>
    ensures { OnOk result (IsCounted (observed_of run.now) asked.old asked.new) }
{
    match asked {
        Some(sink) => add_stats(alloc, run, waits, sink),
        None => Ok(()),
    }
}

/// Adds the figures of a run to their text.
fn add_stats(
    alloc: Global,
    run: &Observed<'_, '_>,
    waits: &[NodeWait],
    sink: &mut MemorySink,
) -> Result<(), AllocError>
    ensures { OnOk result (IsCounted (observed_of run.now) (Some sink.old) (Some sink.new)) }
{
    let told = figures(alloc, run.plan, run.times, waits, run.started, run.of)?;
    match write_stats(run.plan, &told, sink) {
        Ok(()) => Ok(()),
        Err(_) => Err(AllocError),
    }
}
