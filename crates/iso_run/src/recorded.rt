//! The events of a run, as a replay takes them.
ghost use Rattle.std.specs.Prelude.{◌≡◌, ◌≤◌, OnOk, Some, true};
ghost use Rattle.iso_book.specs.Books.{is_complete};
ghost use Rattle.iso_record.specs.Texts.{schedule_text};
ghost use Rattle.iso_run.specs.Courses.{AreEvents, IsScheduled};
ghost use Rattle.iso_run.specs.declared.way.Way.TheVariants.{ByWorkers, Serial};
ghost use Rattle.iso_tap.specs.Sinks.{Wrote};

use crate::inputs::Suite;
use iso_book::book::Book;
use iso_record::record::record;
use iso_record::serial::record_serial;
use iso_record::text::write_schedule;
use iso_standing::event::Event;
use iso_tap::memory::MemorySink;
use std::alloc::{AllocError, Global};

/// Tells the events of a book's run, where they are asked for.
pub(crate) fn tell_book(
    alloc: Global,
    book: &Book<'_>,
    asked: &mut Option<MemorySink>,
) -> Result<(), AllocError>
    requires { is_complete book.now ≡ true }
    ensures { OnOk result (IsScheduled
        (AreEvents ByWorkers book.now.plan book.now.world book.now.workers) asked.old asked.new) }
{
    match asked {
        Some(sink) => add_book(alloc, book, sink),
        None => Ok(()),
    }
}

/// Adds the events of a book's run to their text.
fn add_book(alloc: Global, book: &Book<'_>, sink: &mut MemorySink) -> Result<(), AllocError>
    requires { is_complete book.now ≡ true }
    ensures { OnOk result (IsScheduled (AreEvents ByWorkers book.now.plan book.now.world
        book.now.workers) (Some sink.old) (Some sink.new)) }
{
    let events = record(alloc, book)?;
    add_events(&events, sink)
}

/// Tells the events of a run of a suite by worker 0 alone, where they are asked for.
pub(crate) fn tell_alone(
    alloc: Global,
    suite: &Suite,
    asked: &mut Option<MemorySink>,
) -> Result<(), AllocError>
    requires { 1 ≤ suite.now.settings.worker_count }
    ensures { OnOk result (IsScheduled (AreEvents Serial suite.now.plan suite.now.world
        suite.now.settings.worker_count) asked.old asked.new) }
{
    match asked {
        Some(sink) => add_alone(alloc, suite, sink),
        None => Ok(()),
    }
}

/// Adds the events of a run of a suite by worker 0 alone to their text.
fn add_alone(alloc: Global, suite: &Suite, sink: &mut MemorySink) -> Result<(), AllocError>
    requires { 1 ≤ suite.now.settings.worker_count }
    ensures { OnOk result (IsScheduled (AreEvents Serial suite.now.plan suite.now.world
        suite.now.settings.worker_count) (Some sink.old) (Some sink.new)) }
{
    let workers = suite.settings.workers();
    let events = record_serial(alloc, &suite.plan, &suite.world, workers)?;
    add_events(&events, sink)
}

/// Adds events to their text.
fn add_events(events: &[Event], sink: &mut MemorySink) -> Result<(), AllocError>
    ensures { OnOk result (Wrote sink.old sink.new (schedule_text events.now)) }
{
    match write_schedule(events, sink) {
        Ok(()) => Ok(()),
        Err(_) => Err(AllocError),
    }
}
