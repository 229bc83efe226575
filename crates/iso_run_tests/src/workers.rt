//! Suites that are run by workers.
ghost use Rattle.std.specs.Prelude.{◌≤◌};

mod meeting;
mod turns;

use crate::suites::expect;
use iso_lifecycle::gate::Gate;
use iso_run::course::Course;
use iso_run::inputs::Inputs;
use iso_run::workers::run_workers;
use iso_tap::memory::MemorySink;
use iso_telling::tells::Tells;
use std::alloc::Global;
use std::process::Abort;
use std::rt::Clock;
use std::sync::Wait;
use std::thread::Threads;

/// Runs inputs by workers whose bodies come to a gate, and asserts the report and whether all is ok
/// in it.
fn expect_report<R: Abort + Clock + Threads + Wait + Sync, G: Gate + Sync>(
    rt: &R,
    alloc: Global,
    inputs: Inputs<'_>,
    gate: &G,
    report: &str,
    all_ok: bool,
)
    requires { 1 ≤ inputs.processors }
{
    let mut sink = MemorySink::new(alloc);
    let mut tells = Tells::nothing();
    let mut course = Course::nothing();
    let ran = run_workers(rt, alloc, inputs, gate, &mut tells, &mut course, &mut sink);
    let is_so = matches!(ran, Ok(summary) if summary.all_ok == all_ok);
    expect(rt, is_so, "the run ends otherwise");
    let is_so = sink.bytes() == report.as_bytes();
    expect(rt, is_so, "the report is another");
}
