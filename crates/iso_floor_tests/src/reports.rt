//! What a floor hands out when it is closed, and reports of runs, by which they are compared.
ghost use Rattle.std.specs.Prelude.{◌≡◌};
ghost use Rattle.iso_lifecycle.specs.ResultViews.{AreComplete};

use crate::shared::{check, expect};
use crate::suites::Suite;
use iso_book::book::Book;
use iso_floor::fault::CloseFault;
use iso_floor::floor::Floor;
use iso_floor::ground::Ground;
use iso_floor::seat::Seat;
use iso_lifecycle::results::Results;
use iso_plan::plan::Plan;
use iso_serial::run::run;
use iso_tap::memory::MemorySink;
use iso_tap::report::write_report;
use std::alloc::Global;
use std::process::Abort;

/// What a book tells that a floor has handed out.
#[derive(Drop)]
pub(crate) struct Told {
    /// How long its history is.
    pub events: usize,
    pub report: MemorySink,
}

/// Closes a floor: what its book tells, or why there is none.
pub(crate) fn close<'a, G: Ground, R: Abort>(
    rt: &R,
    alloc: Global,
    floor: Floor<'a, G>,
    seats: Vec<Seat<'a, G>>,
) -> Result<Told, CloseFault> {
    match floor.close(seats) {
        Ok(book) => Ok(told_by(rt, alloc, &book)),
        Err(fault) => Err(fault),
    }
}

/// Closes a floor, which hands out no book, for this cause.
pub(crate) fn expect_no_book<'a, G: Ground, R: Abort>(
    rt: &R,
    alloc: Global,
    floor: Floor<'a, G>,
    seats: Vec<Seat<'a, G>>,
    fault: CloseFault,
) {
    let closed = close(rt, alloc, floor, seats);
    expect_fault(rt, &closed, fault);
}

/// What a book tells, which is to be complete.
fn told_by<R: Abort>(rt: &R, alloc: Global, book: &Book<'_>) -> Told {
    assert!(rt; book.complete());
    Told {
        events: book.history().len(),
        report: report_of(rt, alloc, book.plan(), book.results()),
    }
}

/// The report of a plan's results.
fn report_of<R: Abort>(rt: &R, alloc: Global, plan: &Plan, results: &Results<'_>) -> MemorySink
    requires plan { results.now.plan ≡ plan.now }
    requires complete { AreComplete results.now }
{
    let mut report = MemorySink::new(alloc);
    let written = write_report(plan, results, &mut report);
    expect(rt, written.is_ok(), "a report");
    report
}

/// The report of a suite's run on one thread.
pub(crate) fn serial_report<R: Abort>(rt: &R, alloc: Global, suite: &Suite) -> MemorySink {
    let results = run(alloc, &suite.plan, &suite.world).expect(rt, "memory");
    report_of(rt, alloc, &suite.plan, &results)
}

/// A floor that was closed handed out a book whose report is this one.
pub(crate) fn expect_report(
    rt: &impl Abort,
    closed: &Result<Told, CloseFault>,
    report: &MemorySink,
) {
    match closed {
        Ok(told) => expect(rt, told.report.bytes() == report.bytes(), "the report"),
        Err(fault) => panic!(rt; "no book: {fault}"),
    }
}

/// A floor that was closed handed out no book, for this cause.
pub(crate) fn expect_fault(rt: &impl Abort, closed: &Result<Told, CloseFault>, fault: CloseFault) {
    match closed {
        Ok(_) => panic!(rt; "a book, and not {fault}"),
        Err(other) => check(rt, "why there is no book", other, &fault),
    }
}

/// A floor that was closed handed out a book with `events` events.
pub(crate) fn expect_events(rt: &impl Abort, closed: &Result<Told, CloseFault>, events: usize) {
    match closed {
        Ok(told) => check(rt, "the events", &told.events, &events),
        Err(fault) => panic!(rt; "no book: {fault}"),
    }
}
