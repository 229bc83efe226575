//! A run on one thread, and what is written of it.
ghost use Rattle.std.specs.Prelude.{◌≡◌};
ghost use Rattle.iso_lifecycle.specs.ResultViews.{AreComplete};

use crate::answer::{Answer, expect};
use crate::calls::Calls;
use crate::host::Host;
use crate::sink::CountingSink;
use iso_lifecycle::results::Results;
use iso_plan::plan::Plan;
use iso_serial::run::run;
use iso_settings::world::World;
use iso_tap::escape::escape;
use iso_tap::plan::write_plan;
use iso_tap::report::write_report;
use std::snapshot::Snapshot;

/// Runs a plan, and writes what came of it.
pub(crate) fn report<H: Host>(
    calls: &Calls<'_, H>,
    plan: &Plan,
    world: &World,
) -> Result<(), Answer> {
    calls.begin("Results::new");
    let none = Results::new(calls.alloc(), plan, Snapshot::of(world));
    calls.end("Results::new");
    none?;
    calls.begin("run");
    let ran = run(calls.alloc(), plan, world);
    calls.end("run");
    write_all(calls, plan, &ran?)
}

/// Writes a report, a plan and an escaped text.
fn write_all<H: Host>(
    calls: &Calls<'_, H>,
    plan: &Plan,
    results: &Results<'_>,
) -> Result<(), Answer>
    requires plan { results.now.plan ≡ plan.now }
    requires complete { AreComplete results.now }
{
    let mut sink = CountingSink::new();
    calls.begin("write_report");
    let report = write_report(plan, results, &mut sink);
    calls.end("write_report");
    calls.begin("write_plan");
    let nodes = write_plan(plan, 2, &mut sink);
    calls.end("write_plan");
    calls.begin("escape");
    let text = escape("a \\\\ and a #", &mut sink);
    calls.end("escape");
    expect(
        report.is_ok() && nodes.is_ok() && text.is_ok(),
        "a failed write",
    )
}
