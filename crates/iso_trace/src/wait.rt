//! Waits as events.
ghost use Rattle.iso_plan.specs.RowView.{tree_of};
ghost use Rattle.iso_tap.specs.Printers.{Prints};
ghost use Rattle.iso_trace.specs.TraceText.{wait_event, wait_events};

use crate::part::Part;
use crate::trace::Run;
use crate::writing::parts;
use iso_tap::printer::Printer;
use iso_tap::sink::{Sink, SinkFailed};
use iso_waits::wait::NodeWait;

/// Writes waits, each with its place as its number.
pub(crate) fn wait_events<W: Sink>(
    printer: &mut Printer<'_, W>,
    run: &Run<'_, '_>,
    waits: &[NodeWait],
) -> Result<(), SinkFailed>
    ensures { Prints printer.old printer.new
        (wait_events (tree_of run.now.plan.now) 0 waits.now) result }
{
    for (id, wait) in waits.iter().enumerate() {
        wait_event(printer, run, id as u64, *wait)?;
    }
    Ok(())
}

/// Writes a wait of a node for a key, with a number: its begin, and its end. Among its arguments
/// are the node that it waited for longest, how many single waits there were, and how long they
/// were together.
fn wait_event<W: Sink>(
    printer: &mut Printer<'_, W>,
    run: &Run<'_, '_>,
    id: u64,
    wait: NodeWait,
) -> Result<(), SinkFailed>
    ensures { Prints printer.old printer.new
        (wait_event (tree_of run.now.plan.now) id wait) result }
{
    parts(
        printer,
        run,
        &[
            Part::Plain(",\n{\"ph\":\"b\",\"pid\":1,\"tid\":0,\"cat\":\"wait\",\"id\":"),
            Part::Number(id),
            Part::Plain(",\"name\":"),
            Part::Wait(wait.key),
            Part::Plain(",\"ts\":"),
            Part::Micros(wait.begin),
            Part::Plain(",\"args\":{\"node\":\""),
            Part::Node(wait.node),
            Part::Plain("\",\"for\":\""),
            Part::Node(wait.holder),
            Part::Plain("\",\"waits\":"),
            Part::Number(wait.count),
            Part::Plain(",\"waited\":"),
            Part::Micros(wait.time),
            Part::Plain("}},\n{\"ph\":\"e\",\"pid\":1,\"tid\":0,\"cat\":\"wait\",\"id\":"),
            Part::Number(id),
            Part::Plain(",\"name\":"),
            Part::Wait(wait.key),
            Part::Plain(",\"ts\":"),
            Part::Micros(wait.end),
            Part::Plain("}"),
        ],
    )
}
