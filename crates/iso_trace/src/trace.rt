//! The trace of a run.
ghost use Rattle.std.specs.Prelude.{◌≡◌, ◌-◌, length, map};
ghost use Rattle.iso_plan.specs.RowView.{tree_of};
ghost use Rattle.iso_tap.specs.Printers.{Prints, Writes};
ghost use Rattle.iso_trace.specs.Names.{AreNames};
ghost use Rattle.iso_trace.specs.Parts.{joined};
ghost use Rattle.iso_trace.specs.TraceText.{body_events, section_text, thread_event, thread_events, trace_text};

use crate::body::node_events;
use crate::names::Names;
use crate::wait::wait_events;
use iso_critical::critical::CriticalBodies;
use iso_lifecycle::results::Results;
use iso_plan::plan::Plan;
use iso_tap::fault::TapFault;
use iso_tap::printer::{Piece, Printer};
use iso_tap::sink::{Sink, SinkFailed};
use iso_times::times::Times;
use iso_waits::wait::NodeWait;

/// A run that is told of: its plan, its results, the times of its bodies, those of them that are
/// critical, and the names of its keys.
#[derive(Clone, Copy)]
pub struct Run<'r, 'p> {
    pub plan: &'r Plan,
    pub results: &'r Results<'p>,
    pub times: &'r Times,
    pub critical: &'r CriticalBodies,
    pub names: &'r Names,
    ghost planned: { results.now.plan ≡ plan.now },
    ghost named: { AreNames (tree_of plan.now) names.now.locks.items names.now.waits.items },
}

/// Writes the trace of a run on `workers` workers, whose nodes had these waits. Takes no memory.
///
/// The sink is asked again where it takes only some bytes, and no more once it has failed.
pub fn write_trace<W: Sink>(
    run: &Run<'_, '_>,
    workers: u32,
    waits: &[NodeWait],
    sink: &mut W,
) -> Result<(), TapFault>
    ensures { Writes (W.account sink.old) (W.account sink.new)
        (trace_text (tree_of run.now.plan.now) run.now.times.now run.now.results.now workers
        waits.now run.now.critical.now) result }
{
    let mut printer = Printer::new(sink);
    match trace(&mut printer, run, workers, waits) {
        Ok(()) => Ok(()),
        Err(_) => Err(TapFault {
            written: printer.written(),
        }),
    }
}

/// A section of a trace.
#[derive(Clone, Copy)]
enum Section<'a> {
    Plain(&'a str),
    /// The lanes of this number of workers.
    Threads(u32),
    Bodies,
    Waits(&'a [NodeWait]),
}

/// Writes all sections.
fn trace<W: Sink>(
    printer: &mut Printer<'_, W>,
    run: &Run<'_, '_>,
    workers: u32,
    waits: &[NodeWait],
) -> Result<(), SinkFailed>
    ensures { Prints printer.old printer.new
        (trace_text (tree_of run.now.plan.now) run.now.times.now run.now.results.now workers
        waits.now run.now.critical.now) result }
{
    sections(
        printer,
        run,
        &[
            Section::Plain(
                "{\"traceEvents\":[\n{\"ph\":\"M\",\"pid\":1,\"name\":\"process_name\",\"args\":{\"name\":\"jtap\"}}",
            ),
            Section::Threads(workers),
            Section::Bodies,
            Section::Waits(waits),
            Section::Plain("\n]}\n"),
        ],
    )
}

/// Writes sections, one after another.
fn sections<W: Sink>(
    printer: &mut Printer<'_, W>,
    run: &Run<'_, '_>,
    sections: &[Section<'_>],
) -> Result<(), SinkFailed>
    ensures { Prints printer.old printer.new
        (joined (map (section_text (tree_of run.now.plan.now) run.now.times.now run.now.results.now
        run.now.critical.now) sections.now)) result }
{
    for section in sections {
        write_section(printer, run, section)?;
    }
    Ok(())
}

/// Writes a section.
fn write_section<W: Sink>(
    printer: &mut Printer<'_, W>,
    run: &Run<'_, '_>,
    section: &Section<'_>,
) -> Result<(), SinkFailed>
    ensures { Prints printer.old printer.new
        (section_text (tree_of run.now.plan.now) run.now.times.now run.now.results.now
        run.now.critical.now section.now) result }
{
    match *section {
        Section::Plain(text) => printer.bytes(text.as_bytes()),
        Section::Threads(workers) => threads(printer, workers),
        Section::Bodies => bodies(printer, run),
        Section::Waits(waits) => wait_events(printer, run, waits),
    }
}

/// Writes the lanes of `workers` workers.
fn threads<W: Sink>(printer: &mut Printer<'_, W>, workers: u32) -> Result<(), SinkFailed>
    ensures { Prints printer.old printer.new (thread_events workers 0) result }
{
    'workers: for worker in 0..workers {
        thread(printer, worker)?;
    }
    Ok(())
}

/// Writes the lane of a worker.
fn thread<W: Sink>(printer: &mut Printer<'_, W>, worker: u32) -> Result<(), SinkFailed>
    ensures { Prints printer.old printer.new (thread_event worker) result }
{
    printer.pieces(&[
        Piece::Plain(b",\n{\"ph\":\"M\",\"pid\":1,\"tid\":"),
        Piece::Number(u64::from(worker)),
        Piece::Plain(b",\"name\":\"thread_name\",\"args\":{\"name\":\"worker "),
        Piece::Number(u64::from(worker)),
        Piece::Plain(b"\"}}"),
    ])
}

/// Writes the bodies of all nodes.
fn bodies<W: Sink>(printer: &mut Printer<'_, W>, run: &Run<'_, '_>) -> Result<(), SinkFailed>
    ensures { Prints printer.old printer.new
        (body_events (tree_of run.now.plan.now) run.now.times.now run.now.results.now
        run.now.critical.now (length run.now.plan.now.rows - 1) 1) result }
{
    'nodes: for node in 1..run.plan.len() {
        node_events(printer, run, node)?;
    }
    Ok(())
}
