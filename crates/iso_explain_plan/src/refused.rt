//! Why an event of a schedule is refused.
ghost use Rattle.std.specs.Prelude.{◌≡◌, OnOk, option_map, slice_get};
ghost use Rattle.iso_explain_plan.specs.RefusedEvents.{IsRefusedText, at_line_text, refused_text, why_text};
ghost use Rattle.iso_explain_plan.specs.Told.{IsWritten};
ghost use Rattle.iso_plan.specs.RowView.{tree_of};
ghost use Rattle.iso_tap.specs.Printers.{Prints};
ghost use Rattle.iso_tap.specs.Sinks.{Wrote};

use crate::error::ExplainError;
use crate::line::{Line, event_line};
use crate::refusal::why_notes;
use crate::schedule::line_text;
use iso_model::limits::FILE_BYTES;
use iso_plan::plan::Plan;
use iso_schedule::fault::ScheduleError;
use iso_schedule::reader::read_schedule;
use iso_standing::event::Event;
use iso_standing::refused::Refused;
use iso_tap::printer::Printer;
use iso_tap::sink::{Sink, SinkFailed};
use std::alloc::Global;

/// Writes what mends a schedule of which the event with this number, counted from 0, was refused:
/// its line, and what would have to come before it, or isn't there. Nothing is written of bytes
/// that are no schedule or have no such event.
///
/// It takes memory from `alloc`, and none is left taken.
pub fn explain_refused<W: Sink>(
    alloc: Global,
    index: usize,
    refused: Refused,
    schedule: &[u8],
    plan: &Plan,
    sink: &mut W,
) -> Result<(), ExplainError>
    ensures { OnOk result (IsWritten (IsRefusedText index refused schedule.now (tree_of plan.now))
        (W.account sink.old) (W.account sink.new)) }
{
    let events = match read_schedule(alloc, schedule) {
        Ok(events) => events,
        Err(ScheduleError::OutOfMemory) => return Err(ExplainError::OutOfMemory),
        Err(ScheduleError::Fault(_)) => return Ok(()),
    };
    if schedule.len() > FILE_BYTES as usize {
        return Ok(());
    }
    let line = event_line(schedule, index);
    let event = event_at(&events, index);
    Ok(tell(line, event, refused, plan, sink)?)
}

/// The event with this number.
fn event_at(events: &[Event], index: usize) -> Option<Event>
    ensures { result ≡ slice_get events.now index }
{
    events.get(index).copied()
}

/// Writes why an event is refused that stands on this line; nothing where there is no such event or
/// line.
fn tell<W: Sink>(
    line: Option<Line<'_>>,
    event: Option<Event>,
    refused: Refused,
    plan: &Plan,
    sink: &mut W,
) -> Result<(), SinkFailed>
    ensures { OnOk result (Wrote (W.account sink.old) (W.account sink.new)
        (refused_text (option_map (λ l. (l.number, l.text.now)) line.entry) event refused
        (tree_of plan.now))) }
{
    let mut printer = Printer::new(sink);
    write(&mut printer, line, event, refused, plan)
}

/// Writes it.
fn write<W: Sink>(
    printer: &mut Printer<'_, W>,
    line: Option<Line<'_>>,
    event: Option<Event>,
    refused: Refused,
    plan: &Plan,
) -> Result<(), SinkFailed>
    ensures { Prints printer.old printer.new
        (refused_text (option_map (λ l. (l.number, l.text.now)) line.entry) event refused
        (tree_of plan.now)) result }
{
    match line {
        Some(line) => at_line(printer, line, event, refused, plan),
        None => Ok(()),
    }
}

/// The same of a line that is there.
fn at_line<W: Sink>(
    printer: &mut Printer<'_, W>,
    line: Line<'_>,
    event: Option<Event>,
    refused: Refused,
    plan: &Plan,
) -> Result<(), SinkFailed>
    ensures { Prints printer.old printer.new
        (at_line_text line.entry.number line.entry.text.now event refused
        (tree_of plan.now)) result }
{
    match event {
        Some(event) => why(printer, line, event, refused, plan),
        None => Ok(()),
    }
}

/// Writes why an event is refused.
fn why<W: Sink>(
    printer: &mut Printer<'_, W>,
    line: Line<'_>,
    event: Event,
    refused: Refused,
    plan: &Plan,
) -> Result<(), SinkFailed>
    ensures { Prints printer.old printer.new
        (why_text line.entry.number line.entry.text.now event refused (tree_of plan.now)) result }
{
    line_text(printer, line.number, line.text, "this event is refused")?;
    why_notes(printer, plan, event, refused)
}
