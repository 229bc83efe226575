//! Records of runs.
ghost use Rattle.std.specs.Prelude.{◌≡◌, ◌<◌, IfOk, OnOk, length};
ghost use Rattle.iso_book.specs.Books as Books;
ghost use Rattle.iso_core.specs.Cores.{is_complete};
ghost use Rattle.iso_core.specs.EventRuns.{core_after, event_at};
ghost use Rattle.iso_isolation.specs.Histories.{IsHistory};
ghost use Rattle.iso_record.specs.Recordings.{AreRecordOf, GoesOnBy, HasGoneOnBy, HasTaken, OfSameSuite, history_in};
ghost use Rattle.iso_standing.specs.CodeEvents.{events_of};
ghost use Rattle.iso_suites.specs.ScriptLanguage.{scripts};
ghost use Rattle.iso_suites.specs.SuiteStates.{suite_at};

use crate::recording::Recording;
use iso_book::book::Book;
use iso_plan::plan::Plan;
use iso_settings::world::World;
use iso_standing::event::Event;
use std::alloc::{AllocError, Global};

/// The events of a book's run: its history, with the steps of each body right before its Leave. A
/// core takes them, so it does each step once more. Out of memory is the only error.
pub fn record(alloc: Global, book: &Book<'_>) -> Result<Vec<Event>, AllocError>
    ensures record { IfOk result (λ es. AreRecordOf book.now.plan book.now.world book.now.workers
        book.now.history es.items) }
    ensures complete { IfOk result
        (λ es. is_complete (core_after book.now.plan book.now.world book.now.workers es.items)
        ≡ Books.is_complete book.now) }
{
    in_full(
        alloc,
        book.plan(),
        book.world(),
        book.workers(),
        book.history(),
    )
}

/// A history in full.
fn in_full(
    alloc: Global,
    plan: &Plan,
    world: &World,
    workers: u32,
    history: &[Event],
) -> Result<Vec<Event>, AllocError>
    requires { IsHistory scripts (suite_at plan.now world.now) workers (events_of history.now) }
    ensures { IfOk result (λ es. AreRecordOf plan.now world.now workers history.now es.items) }
{
    let mut recording = Recording::new(alloc, plan, world, workers)?;
    'history: for index in 0..history.len() {
        go_on_at(&mut recording, history, index)?;
    }
    Ok(recording.into_events())
}

/// Takes the event at a place of a history.
fn go_on_at(
    recording: &mut Recording<'_>,
    history: &[Event],
    index: usize,
) -> Result<(), AllocError>
    requires within { index < length history.now }
    requires goes_on { GoesOnBy recording.old (event_at history.now index) }
    requires taken { HasTaken recording.old (history_in recording.old) }
    ensures gone_on { OnOk result
        (HasGoneOnBy (event_at history.now index) recording.old recording.new) }
    ensures same { OfSameSuite recording.old recording.new }
{
    recording.go_on_by(history[index])
}
