//! Whole runs of many workers, which give the report of the serial run.
use crate::crew::{Crew, Nothing, run_suite};
use crate::gates::Pauses;
use crate::reports::{expect_report, serial_report};
use crate::suites::{HELD_UP, Suite, contended, read_suite};
use iso_lifecycle::gate::{Gate, OpenGate};
use iso_tap::memory::MemorySink;
use std::alloc::Global;
use std::process::Abort;
use std::sync::Wait;
use std::thread::Threads;

/// As many as a run may have.
const WORKERS: u32 = 64;

/// How many runs a test makes.
const RUNS: u32 = 100;

/// A run of a crew gives this report.
fn expect_run<R: Abort + Threads + Wait + Sync, T: Gate + Sync>(
    rt: &R,
    alloc: Global,
    suite: &Suite,
    crew: Crew,
    gate: &T,
    serial: &MemorySink,
) {
    let ran = run_suite(rt, alloc, suite, crew, gate, &Nothing);
    expect_report(rt, &ran.closed, serial);
}

/// `runs` runs of a suite give the report of the serial run.
fn expect_runs<R: Abort + Threads + Wait + Sync, T: Gate + Sync>(
    rt: &R,
    alloc: Global,
    suite: &Suite,
    crew: Crew,
    gate: &T,
    runs: u32,
) {
    let serial = serial_report(rt, alloc, suite);
    for _ in 0..runs {
        expect_run(rt, alloc, suite, crew, gate, &serial);
    }
}

/// `runs` runs of the contended suite give the report of the serial run.
fn expect_contended<R: Abort + Threads + Wait + Sync, T: Gate + Sync>(
    rt: &R,
    alloc: Global,
    gate: &T,
) {
    let suite = contended(rt, alloc);
    expect_runs(rt, alloc, &suite, Crew::of(WORKERS), gate, RUNS);
}

#[test]
fn contended_suite_is_reported_as_by_one_thread(rt: HostRuntime) {
    expect_contended(&rt, rt.alloc(), &OpenGate);
}

#[test]
fn contended_suite_with_pauses_is_reported_as_by_one_thread(rt: HostRuntime) {
    expect_contended(&rt, rt.alloc(), &Pauses::new(&rt));
}

#[test]
fn worker_who_is_held_up_looks_into_the_deques_again(rt: HostRuntime) {
    let suite = read_suite(&rt, rt.alloc(), HELD_UP);
    expect_runs(&rt, rt.alloc(), &suite, Crew::of(1), &OpenGate, 1);
}
